//! How far the paths of a dump's variables are from one that it lacks.

ghost use Rattle.std.specs.Prelude.{◌≡◌, IfOk};
ghost use Rattle.vme_faults.specs.Nearness.{AreNearest, path_distance, common_suffix, common_prefix, distances};

use std::alloc::{AllocError, Global};
use vcd_read::Variable;

/// A variable, and how far its path is from the one that is sought. They are ordered by distance, and those at the same
/// distance as they are declared.
#[derive(Clone, Copy, Debug, PartialEq, Eq, PartialOrd, Ord)]
pub struct VariableDistance {
    /// How far its path is from the one that is sought.
    pub distance: usize,
    /// Its index among all variables, from 0.
    pub place: usize,
}

/// The `count` variables, or all if there are fewer, whose paths are nearest to `path`: the nearest first, and those at
/// the same distance in the order of their declaration.
///
/// The distance of two paths is the number of bytes of the longer one, less those that both begin with and those that
/// both end with, which don't overlap in the shorter one. A letter of ASCII is the same in either case. So a byte that
/// is wrong, missing or too many counts 1, wherever it is, and a scope counts as many as its name and its dot have. A
/// character outside of ASCII has several bytes. The only error is want of memory.
pub fn nearest(
    alloc: Global,
    path: &[u8],
    variables: &[Variable],
    count: usize,
) -> Result<Vec<VariableDistance>, AllocError>
    ensures { IfOk result (λ found. AreNearest path.now variables.now count found.items) }
{
    let mut found = distances(alloc, path, variables)?;
    found.sort_unstable();
    found.truncate(count);
    Ok(found)
}

/// How far the path of each variable is from `path`.
fn distances(
    alloc: Global,
    path: &[u8],
    variables: &[Variable],
) -> Result<Vec<VariableDistance>, AllocError>
    ensures { IfOk result (λ all. all.items ≡ distances path.now variables.now 0) }
{
    let mut all = Vec::with_capacity(alloc, variables.len())?;
    for (place, variable) in variables.iter().enumerate() {
        all.push(VariableDistance {
            distance: path_distance(path, variable.path.as_bytes()),
            place,
        })?;
    }
    Ok(all)
}

/// The distance of two paths.
fn path_distance(one: &[u8], other: &[u8]) -> usize
    ensures { result ≡ path_distance one.now other.now }
{
    let shorter = one.len().min(other.len());
    let front = common_prefix(one, other);
    let end = common_suffix(one, other);
    one.len().max(other.len()) - front.saturating_add(end).min(shorter)
}

/// The number of bytes that both begin with, whatever the case of letters of ASCII.
fn common_prefix(one: &[u8], other: &[u8]) -> usize
    ensures { result ≡ common_prefix one.now other.now }
{
    let shorter = one.len().min(other.len());
    for at in 0..shorter {
        if !one[at].eq_ignore_ascii_case(&other[at]) {
            return at;
        }
    }
    shorter
}

/// The number of bytes that both end with, whatever the case of letters of ASCII.
fn common_suffix(one: &[u8], other: &[u8]) -> usize
    ensures { result ≡ common_suffix one.now other.now }
{
    let shorter = one.len().min(other.len());
    for at in 0..shorter {
        if !one[one.len() - 1 - at].eq_ignore_ascii_case(&other[other.len() - 1 - at]) {
            return at;
        }
    }
    shorter
}
