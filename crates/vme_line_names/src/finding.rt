//! Which variables the lines of a backplane are, by their names.

ghost use Rattle.std.specs.Prelude.{◌≡◌, ◌≤◌, IfOk, is_some, length};

use crate::affix::Direction;
use crate::names::{NameReading, NamedLines, push_readings};
use crate::vote::{ScopeVote, VoteCounter};
use std::alloc::{AllocError, Global};
use vme_declarations::{
    BUS_GROUPS, DeclaredNames, DeclaredVariable, FoundLines, Groups, LevelsSeen, MOST_BITS,
    NOWHERE, VariableBit, count, group_of, scopes_have_path,
};
use vme_trace::{LINE_COUNT, Line};

/// How many other scopes are named at most.
const MOST_OTHERS: usize = 10;

/// A variable whose name denotes lines, and how well it fits: a lesser key is better.
#[derive(Clone, Copy)]
struct Candidate {
    key: u64,
    variable: usize,
    named: NamedLines,
    direction: Direction,
}

/// Whether `variable` is bound to a line whose group isn't in `group`.
fn is_bound_elsewhere(found: &FoundLines, variable: usize, group: Groups) -> bool {
    (0..LINE_COUNT).any(|number| match Line::from_number(number) {
        Some(line) => {
            let same = group_of(line) & group != 0;
            match found.bit_of_line(line) {
                Some(bit_of_line) => !same && bit_of_line.variable == variable,
                None => false,
            }
        }
        None => false,
    })
}

/// Whether the bit of a line is of another variable than `variable`.
fn is_of_other(bit_of_line: Option<VariableBit>, variable: usize) -> bool {
    match bit_of_line {
        Some(bit_of_line) => bit_of_line.variable != variable,
        None => false,
    }
}

/// Binds the lines of a candidate to its bits, if none of these lines but IACK has a bit yet, and the variable isn't
/// used for other groups, nor for another line if it has one bit. An IACK that has a bit keeps it. If one of the other
/// lines has a bit of another variable, and the candidate is a board's output, its groups are noted in `doubled`. Of
/// one variable a line may be found in two ways, as IA.1 is in `iack_chain1`.
fn take(
    found: &mut FoundLines,
    declared: &DeclaredVariable,
    candidate: &Candidate,
    levels: &LevelsSeen,
)
    ensures is_asked { found.new.is_asked ≡ found.old.is_asked }
    ensures others { found.new.others ≡ found.old.others }
{
    let size = declared.size.min(MOST_BITS);
    let mut groups: Groups = 0;
    let mut is_taken = false;
    let mut is_doubled = false;
    for place in 0..size {
        if let Some(line) = candidate.named.line_at(declared, place) {
            groups |= group_of(line);
            let bit_of_line = found.bit_of_line(line);
            if line != Line::IACK {
                is_taken = is_taken || bit_of_line.is_some();
                is_doubled = is_doubled || is_of_other(bit_of_line, candidate.variable);
            }
        }
    }
    if candidate.direction == Direction::Output && is_doubled {
        found.doubled |= groups;
    }
    let shared: Groups = if declared.size == 1 { 0 } else { groups };
    if is_taken || groups == 0 || is_bound_elsewhere(found, candidate.variable, shared) {
        return;
    }
    for place in 0..size {
        if let Some(line) = candidate.named.line_at(declared, place) {
            if found.bit_of_line(line).is_none() {
                let bit = VariableBit {
                    variable: candidate.variable,
                    place,
                };
                found.set(line, Some(bit));
                let right = declared.size.saturating_sub(place).saturating_sub(1);
                found.note_moving(line, levels.moves(declared.net, right));
            }
        }
    }
}

/// The votes of the scopes, and the place of the best of those that are asked for: the scopes of the path, where it is
/// some, or else all.
fn all_votes(
    alloc: Global,
    declared: &DeclaredNames,
    levels: &LevelsSeen,
    path: Option<&[u8]>,
) -> Result<(Vec<ScopeVote>, usize), AllocError> {
    let asked = match path {
        Some(path) => Some(scopes_have_path(alloc, declared, path)?),
        None => None,
    };
    let mut counter = VoteCounter::new(alloc);
    let mut votes: Vec<ScopeVote> = Vec::new(alloc);
    let mut best = NOWHERE;
    for scope in 0..declared.scopes().len() {
        if let Some(vote) = counter.vote(declared, levels, scope)? {
            let is_asked = match &asked {
                Some(asked) => asked.get(scope).copied().unwrap_or(false),
                None => true,
            };
            let is_better = match votes.get(best) {
                Some(other) => vote.score() > other.score(),
                None => true,
            };
            if is_asked && is_better {
                best = votes.len();
            }
            votes.push(vote)?;
        }
    }
    Ok((votes, best))
}

/// Appends the candidates of a vote's scope, whose names fit its style. `outside` is how many scopes it is outside of
/// the best one.
fn push_candidates(
    candidates: &mut Vec<Candidate>,
    readings: &mut Vec<NameReading>,
    declared: &DeclaredNames,
    vote: &ScopeVote,
    outside: u64,
) -> Result<(), AllocError> {
    let variables = declared.variables();
    let mut at = declared
        .scopes()
        .get(vote.scope)
        .map_or(NOWHERE, |s| s.first);
    for _ in 0..variables.len() {
        let Some(variable) = variables.get(at) else {
            break;
        };
        readings.clear();
        push_readings(readings, declared.name_of(variable))?;
        for reading in readings.iter() {
            if let Some(rank) = rank_of(reading, vote, outside) {
                candidates.push(Candidate {
                    key: rank.saturating_mul(1 << 40).saturating_add(at as u64),
                    variable: at,
                    named: reading.named,
                    direction: reading.affix.direction,
                })?;
            }
        }
        at = variable.next;
    }
    Ok(())
}

/// How well a reading fits the style of a scope: less is better. It is `None` where the reading doesn't fit.
fn rank_of(reading: &NameReading, vote: &ScopeVote, outside: u64) -> Option<u64> {
    let style = u64::from(reading.affix.rank_in(&vote.style)?);
    let direction = match reading.affix.direction {
        Direction::Unknown => 0,
        Direction::Input => 10,
        Direction::Both => 20,
        Direction::Output => 30,
        Direction::Register => 40,
        Direction::Enable => 50,
    };
    let mark = if reading.affix.is_marked { 0 } else { 2 };
    let word = if reading.is_line_name { 0 } else { 1 };
    let inside = style
        .saturating_mul(100)
        .saturating_add(direction)
        .saturating_add(mark)
        .saturating_add(word);
    Some(
        outside
            .saturating_mul(10_000)
            .saturating_add(inside)
            .min(1 << 23),
    )
}

/// The candidates of the best scope, and of the scopes around it whose style fits, by ascending key.
fn all_candidates(
    alloc: Global,
    declared: &DeclaredNames,
    votes: &[ScopeVote],
    best: &ScopeVote,
) -> Result<Vec<Candidate>, AllocError> {
    let mut candidates = Vec::new(alloc);
    let mut readings = Vec::new(alloc);
    push_candidates(&mut candidates, &mut readings, declared, best, 0)?;
    let mut around: Vec<bool> = Vec::new(alloc);
    around.resize(declared.scopes().len(), false)?;
    let mut at = best.scope;
    for _ in 0..declared.scopes().len() {
        at = declared.scopes().get(at).map_or(NOWHERE, |s| s.parent);
        match around.get_mut(at) {
            Some(is_around) => *is_around = true,
            None => break,
        }
    }
    for vote in votes {
        let is_around = around.get(vote.scope).copied().unwrap_or(false);
        let fits = vote.style.rank_in(&best.style).is_some()
            || best.style.rank_in(&vote.style).is_some();
        if is_around && fits {
            let outside = best.depth.saturating_sub(vote.depth) as u64;
            push_candidates(&mut candidates, &mut readings, declared, vote, outside)?;
        }
    }
    candidates.sort_unstable_by_key(|candidate| candidate.key);
    Ok(candidates)
}

/// Finds the lines of a backplane among the variables of the scope with the best vote, and of those around it. The
/// scope has the path `path`, where that is some. It fails if memory runs out.
pub fn find_lines(
    alloc: Global,
    declared: &DeclaredNames,
    levels: &LevelsSeen,
    path: Option<&[u8]>,
) -> Result<FoundLines, AllocError>
    ensures is_asked { IfOk result (λ found. found.is_asked ≡ is_some path.entry) }
    ensures others { IfOk result (λ found. length found.others.items ≤ 10) }
{
    let mut found = FoundLines::none(alloc);
    if let Some(path) = path {
        found.scope.extend_from_slice(path)?;
    }
    found.is_asked = path.is_some();
    let (votes, place) = all_votes(alloc, declared, levels, path)?;
    let Some(best) = votes.get(place).copied() else {
        return Ok(found);
    };
    found.scope = declared.path_of(alloc, best.scope)?;
    let candidates = all_candidates(alloc, declared, &votes, &best)?;
    for candidate in &candidates {
        if let Some(variable) = declared.variables().get(candidate.variable) {
            take(&mut found, variable, candidate, levels);
        }
    }
    let half = count(best.found & BUS_GROUPS) / 2;
    for other in &votes {
        let names = count(other.found & BUS_GROUPS);
        let is_named = other.scope != best.scope && names >= half.max(2);
        if is_named && found.others.len() < MOST_OTHERS {
            found.others.push(declared.path_of(alloc, other.scope)?)?;
        }
    }
    Ok(found)
}
