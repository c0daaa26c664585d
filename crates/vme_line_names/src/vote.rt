//! The vote of a scope: the style of names by which most lines are found among its variables.

use crate::affix::Affix;
use crate::names::{NameReading, NamedLines, push_readings};
use std::alloc::{AllocError, Global};
use vme_declarations::{
    BUS_GROUPS, DeclaredNames, DeclaredVariable, Groups, LevelsSeen, MOST_BITS, NOWHERE, count,
    group_of, has_cycle, has_handshake,
};

/// A reading of a variable's name.
#[derive(Clone, Copy, Debug, PartialEq, Eq, PartialOrd, Ord)]
struct Ballot {
    /// The hash of the words before the name of the line.
    before: u64,
    /// The hash of the words after it.
    after: u64,
    /// The hash of the words for a bus.
    bus: u64,
    /// The place of the variable in the order of declaration.
    variable: usize,
    /// The groups of its lines.
    found: Groups,
    /// Those of them of which a line moves.
    moving: Groups,
}

/// The style of a scope, and the groups that are found by it.
#[derive(Clone, Copy)]
pub(crate) struct ScopeVote {
    /// The index of the scope.
    pub scope: usize,
    /// The number of scopes around it, the outermost included.
    pub depth: usize,
    /// The style.
    pub style: Affix,
    /// The groups of which a line is found.
    pub found: Groups,
    /// Those of them of which a line moves.
    pub moving: Groups,
    /// The place in the order of declaration of the first variable of the style.
    variable: usize,
}

/// The buffers that are used for one scope after another, so that their memory is allocated once.
#[derive(Drop)]
pub(crate) struct VoteCounter {
    /// The readings of one name.
    readings: Vec<NameReading>,
    /// The ballots of the scope.
    ballots: Vec<Ballot>,
    /// The sums of the ballots, one for each style.
    totals: Vec<ScopeVote>,
}

impl ScopeVote {
    /// How good the choice is: greater is better. First counts whether AS, a data strobe and an answer are found, then
    /// whether AS and a data strobe move, then how many groups are found, then how many of them move, both without the
    /// data lines, and then how few scopes are around this one.
    pub(crate) fn score(&self) -> (bool, bool, u32, u32, usize) {
        (
            has_handshake(self.found),
            has_cycle(self.moving),
            count(self.found & BUS_GROUPS),
            count(self.moving & BUS_GROUPS),
            NOWHERE - self.depth,
        )
    }
}

/// The groups of the lines that `variable` has if it is `named`, and those groups of which a line moves.
pub(crate) fn groups_named(
    variable: &DeclaredVariable,
    named: &NamedLines,
    levels: &LevelsSeen,
) -> (Groups, Groups) {
    let mut found: Groups = 0;
    let mut moving: Groups = 0;
    if variable.size <= MOST_BITS {
        for place in 0..variable.size {
            if let Some(line) = named.line_at(variable, place) {
                found |= group_of(line);
                if levels.moves(variable.net, (variable.size - place).saturating_sub(1)) {
                    moving |= group_of(line);
                }
            }
        }
    }
    (found, moving)
}

impl VoteCounter {
    /// The buffers are empty.
    pub(crate) fn new(alloc: Global) -> VoteCounter {
        VoteCounter {
            readings: Vec::new(alloc),
            ballots: Vec::new(alloc),
            totals: Vec::new(alloc),
        }
    }

    /// The vote of the scope with this index, if anything is found in it. It fails if memory runs out.
    pub(crate) fn vote(
        &mut self,
        declared: &DeclaredNames,
        levels: &LevelsSeen,
        scope: usize,
    ) -> Result<Option<ScopeVote>, AllocError> {
        self.collect(declared, levels, scope)?;
        let depth = declared.scopes().get(scope).map_or(0, |s| s.depth);
        self.add_up(scope, depth)?;
        let mut best: Option<ScopeVote> = None;
        for total in &self.totals {
            let is_better = match &best {
                Some(other) => is_better(total, other),
                None => true,
            };
            if is_better {
                best = Some(*total);
            }
        }
        let Some(mut best) = best else {
            return Ok(None);
        };
        for total in &self.totals {
            if total.style.rank_in(&best.style).is_some() {
                best.found |= total.found;
                best.moving |= total.moving;
            }
        }
        Ok(Some(best))
    }

    /// Collects a ballot of each reading of each name in a scope.
    fn collect(
        &mut self,
        declared: &DeclaredNames,
        levels: &LevelsSeen,
        scope: usize,
    ) -> Result<(), AllocError> {
        self.ballots.clear();
        let variables = declared.variables();
        let mut at = declared.scopes().get(scope).map_or(NOWHERE, |s| s.first);
        for _ in 0..variables.len() {
            let Some(variable) = variables.get(at) else {
                break;
            };
            self.readings.clear();
            push_readings(&mut self.readings, declared.name_of(variable))?;
            self.collect_readings(at, variable, levels)?;
            at = variable.next;
        }
        self.ballots.sort_unstable();
        Ok(())
    }

    /// Collects a ballot of each reading of a variable's name.
    fn collect_readings(
        &mut self,
        at: usize,
        variable: &DeclaredVariable,
        levels: &LevelsSeen,
    ) -> Result<(), AllocError> {
        for reading in &self.readings {
            let (found, moving) = groups_named(variable, &reading.named, levels);
            if found != 0 {
                self.ballots.push(Ballot {
                    before: reading.affix.before,
                    after: reading.affix.after,
                    bus: reading.affix.bus,
                    variable: at,
                    found,
                    moving,
                })?;
            }
        }
        Ok(())
    }

    /// Adds up the ballots of each style.
    fn add_up(&mut self, scope: usize, depth: usize) -> Result<(), AllocError> {
        self.totals.clear();
        for ballot in &self.ballots {
            let style = Affix::of_style(ballot.before, ballot.after, ballot.bus);
            let is_known = match self.totals.last() {
                Some(total) => total.style.is_same_style(&style),
                None => false,
            };
            if !is_known {
                self.totals.push(ScopeVote {
                    scope,
                    depth,
                    style,
                    found: 0,
                    moving: 0,
                    variable: ballot.variable,
                })?;
            }
            if let Some(total) = self.totals.last_mut() {
                total.found |= ballot.found;
                total.moving |= ballot.moving;
                total.variable = total.variable.min(ballot.variable);
            }
        }
        Ok(())
    }
}

/// Whether `style` is better than `other`, of the same scope. Of equals the better is the one that is declared first.
fn is_better(style: &ScopeVote, other: &ScopeVote) -> bool {
    let (new, old) = (style.score(), other.score());
    new > old || (new == old && style.variable < other.variable)
}
