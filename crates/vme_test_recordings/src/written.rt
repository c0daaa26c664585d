//! Steps as texts.

use std::alloc::{AllocError, Global};
use vme_trace::{Change, Level, Step};

fn digit_of(level: Level) -> u8 {
    match level {
        Level::Low => b'0',
        Level::High => b'1',
        Level::Unknown => b'x',
    }
}

fn write_change(text: &mut Vec<u8>, change: &Change) -> Result<(), AllocError> {
    text.push(b' ')?;
    text.extend_from_slice(change.line.name().as_bytes())?;
    text.push(b'=')?;
    text.push(digit_of(change.level))?;
    Ok(())
}

fn write_time(alloc: Global, text: &mut Vec<u8>, time: u64) -> Result<(), AllocError> {
    text.extend_from_slice(format!(in alloc; "#{time}")?.as_bytes())?;
    Ok(())
}

/// Adds the steps, a line for each, e.g. #30 BBSY=0 BR3=1.
pub fn write_steps(alloc: Global, text: &mut Vec<u8>, steps: &[Step]) -> Result<(), AllocError> {
    for step in steps {
        write_time(alloc, text, step.time)?;
        for change in step.changes.as_slice() {
            write_change(text, change)?;
        }
        text.push(b'\n')?;
    }
    Ok(())
}
