//! How a file is written beside another, and takes its place.

use std::alloc::{AllocError, Global};
use std::fs::{self, File};
use std::io::{ErrorKind, Write};
use std::path::PathBuf;
use vme_program::WriteResult;

/// How many names are tried for the new file beside the old one.
const MOST_NAMES: u32 = 100;

/// Writes a file at a path: its bytes go into a new file beside it, which takes its place once all are written. Where
/// that fails, what was there stays.
pub(crate) fn put(rt: &HostRuntime, alloc: Global, path: &str, bytes: &[u8]) -> WriteResult {
    // the file that a link leads to is replaced, and not the link
    let found: Option<PathBuf> = fs::canonicalize(rt, path).ok();
    let place = match &found {
        Some(place) => place.to_string_lossy(),
        None => path,
    };
    match put_at(rt, alloc, place, bytes) {
        Ok(written) => written,
        Err(_) => WriteResult::Memory,
    }
}

/// Writes a file at the place `place`, which is no link. The only error is want of memory.
fn put_at(
    rt: &HostRuntime,
    alloc: Global,
    place: &str,
    bytes: &[u8],
) -> Result<WriteResult, AllocError> {
    for number in 0..MOST_NAMES {
        let beside = format!(in alloc; "{place}.part{number}")?;
        match File::create_new(rt, beside.as_str()) {
            Ok(file) => {
                if is_whole(file, bytes) && fs::rename(rt, beside.as_str(), place).is_ok() {
                    return Ok(WriteResult::Whole);
                }
                let _ = fs::remove_file(rt, beside.as_str());
                return Ok(WriteResult::Failed);
            }
            Err(error) if error.kind() == ErrorKind::AlreadyExists => {}
            Err(_) => return Ok(WriteResult::Failed),
        }
    }
    Ok(WriteResult::Failed)
}

/// Writes all bytes to the device, and returns whether that succeeded.
fn is_whole(mut file: File, bytes: &[u8]) -> bool {
    file.write_all(bytes).is_ok() && file.sync_all().is_ok()
}
