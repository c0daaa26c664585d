//! The bits of a dump that lines are bound to.

ghost use Rattle.std.specs.Prelude.{◌≡◌};
ghost use Rattle.std.specs.List.{filter_map};
ghost use Rattle.vme_bind.specs.Answers.{BindGives, at_line};
ghost use Rattle.vme_bind.specs.BoundGroups.{same_bits, selected, selects, bits_meant, candidate, only, as_wide_as};
ghost use Rattle.vme_bind.specs.BoundGroups.{source_by, bound_group_by, bound_group_in, bound_groups_in, source_on};
ghost use Rattle.vme_bind.specs.BoundGroups.{bound_group_source};

use crate::assignment::Assignment;
use crate::fault::{BindFault, BindFaultKind};
use crate::group::Group;
use crate::source::{LevelSource, VariableSelector};
use std::alloc::Global;
use vcd_read::Variable;
use vme_trace::{Level, Line, Lines};

/// A range of consecutive bits of a net.
#[derive(Clone, Copy)]
pub(crate) struct BitRange {
    /// The number of the net.
    pub net: u32,
    /// The place of the first bit; the leftmost bit of the net is at place 0.
    pub first: u32,
    /// The number of bits.
    pub count: usize,
}

/// One bit of a net.
#[derive(Clone, Copy)]
pub(crate) struct BitPlace {
    /// The number of the net.
    pub net: u32,
    /// Its place: the leftmost bit of the net is at place 0.
    pub place: usize,
}

/// Where the levels of a group come from.
#[derive(Clone, Copy)]
pub(crate) enum GroupSource {
    /// A constant level.
    Fixed(Level),
    /// Bits of a net, one for each line of the group.
    Bits(BitRange),
}

/// A group, and where its levels come from.
#[derive(Clone, Copy)]
pub(crate) struct BoundGroup {
    /// The lines of the group.
    pub group: Group,
    /// Where their levels come from.
    pub source: GroupSource,
}

/// Where the level of a line comes from.
#[derive(Clone, Copy)]
pub(crate) enum LineSource {
    /// A constant level.
    Always(Level),
    /// A bit of a net.
    Bit(BitPlace),
}

impl BitRange {
    /// Whether both are the same bits.
    pub fn is_same(self, other: BitRange) -> bool
        ensures { result ≡ same_bits self other }
    {
        self.net == other.net && self.first == other.first && self.count == other.count
    }

    /// Whether an index holds both ends of a selection, in the same direction.
    fn selects(index: (u32, u32), selection: (u32, u32)) -> bool
        ensures { result ≡ selects index selection }
    {
        let (left, right) = index;
        let (first, last) = selection;
        (first <= left && last <= first && right <= last)
            || (left <= first && first <= last && last <= right)
    }

    /// The bits of `net` that `selection` selects, where `index` has the indices of the leftmost and the rightmost bit.
    /// `None` if `index` doesn't hold `selection` in the same direction.
    fn selected(net: u32, selection: (u32, u32), index: (u32, u32)) -> Option<BitRange>
        ensures { result ≡ selected net selection index }
    {
        if !BitRange::selects(index, selection) {
            return None;
        }
        Some(BitRange {
            net,
            first: index.0.abs_diff(selection.0),
            count: selection.0.abs_diff(selection.1) as usize + 1,
        })
    }

    /// The bits of `net` that `selection` selects of a variable with `size` and `index`: all, where there is no
    /// selection. `None` if the variable has no index that holds `selection` in the same direction.
    pub fn meant(
        selection: Option<(u32, u32)>,
        net: u32,
        size: u32,
        index: Option<(u32, u32)>,
    ) -> Option<BitRange>
        ensures { result ≡ bits_meant selection net size index }
    {
        match selection {
            None => Some(BitRange {
                net,
                first: 0,
                count: size as usize,
            }),
            Some(selection) => BitRange::selected(net, selection, index?),
        }
    }

    /// The bits of `variable` that `named` selects, if `variable` has the path of `named`.
    fn candidate(named: &VariableSelector, variable: &Variable) -> Option<BitRange>
        ensures { result ≡ candidate named.now variable.now }
    {
        if variable.path.as_bytes() != named.path.as_bytes() {
            return None;
        }
        BitRange::meant(named.selection, variable.net, variable.size, variable.index)
    }

    /// The bits that `named` selects of `variables`. They must be the same bits in each variable that has them. A fault
    /// is at the line `line` of the text.
    fn of(
        line: u64,
        named: &VariableSelector,
        variables: &[Variable],
    ) -> Result<BitRange, BindFault>
        ensures { BindGives (λ bits. bits) result
            (at_line line (only (filter_map (candidate named.now) variables.now))) }
    {
        let mut found: Option<BitRange> = None;
        for variable in variables {
            if let Some(bits) = BitRange::candidate(named, variable) {
                if let Some(first) = found {
                    if !first.is_same(bits) {
                        return Err(BindFault {
                            line,
                            kind: BindFaultKind::AmbiguousPath,
                        });
                    }
                } else {
                    found = Some(bits);
                }
            }
        }
        match found {
            Some(bits) => Ok(bits),
            None => Err(BindFault {
                line,
                kind: BindFaultKind::NoSuchPath,
            }),
        }
    }
}

impl BoundGroup {
    /// The bound group of `assignment` with `bits`. The fault is `WrongWidth` where the group has another number of
    /// lines.
    pub fn of_bits(assignment: &Assignment, bits: BitRange) -> Result<BoundGroup, BindFault>
        ensures { BindGives (λ bound_group. bound_group) result (bound_group_by assignment.now
            (source_by assignment.now.group.count (Ok bits))) }
    {
        let group = assignment.group;
        if bits.count != group.count as usize {
            return Err(BindFault {
                line: assignment.line,
                kind: BindFaultKind::WrongWidth,
            });
        }
        Ok(BoundGroup {
            group,
            source: GroupSource::Bits(bits),
        })
    }

    /// The bound group of `assignment`, for a dump with `variables`.
    fn of(assignment: &Assignment, variables: &[Variable]) -> Result<BoundGroup, BindFault>
        ensures { BindGives (λ bound_group. bound_group) result (bound_group_in variables.now assignment.now) }
    {
        match &assignment.source {
            LevelSource::Constant(level) => Ok(BoundGroup {
                group: assignment.group,
                source: GroupSource::Fixed(*level),
            }),
            LevelSource::Variable(named) => {
                match BitRange::of(assignment.line, named, variables) {
                    Ok(bits) => BoundGroup::of_bits(assignment, bits),
                    Err(fault) => Err(fault),
                }
            }
        }
    }

    /// The bound groups of all assignments, or the first fault.
    pub fn all(
        alloc: Global,
        assignments: &[Assignment],
        variables: &[Variable],
    ) -> Result<Vec<BoundGroup>, BindFault>
        ensures { BindGives (λ bound_groups. bound_groups.items) result
            (bound_groups_in variables.now assignments.now) }
    {
        let mut bound_groups = Vec::with_capacity(alloc, assignments.len())?;
        for assignment in assignments {
            match BoundGroup::of(assignment, variables) {
                Ok(bound_group) => bound_groups.push_reserved(bound_group),
                // The fault is taken apart, since the checker can't carry it out of a loop whole.
                Err(BindFault { line, kind }) => return Err(BindFault { line, kind }),
            }
        }
        Ok(bound_groups)
    }

    /// The source of the level of the line at `place` in the group, counted from the group's first line.
    fn source_on(self, place: u8) -> LineSource
        ensures { result ≡ source_on place self.source }
    {
        match self.source {
            GroupSource::Fixed(level) => LineSource::Always(level),
            GroupSource::Bits(bits) => LineSource::Bit(BitPlace {
                net: bits.net,
                place: bits.first as usize + place as usize,
            }),
        }
    }
}

/// Where the level of a line comes from, if it is in some bound group.
pub(crate) fn bound_group_source(bound_groups: &[BoundGroup], line: Line) -> Option<LineSource>
    ensures { result ≡ bound_group_source bound_groups.now line }
{
    for bound_group in bound_groups {
        if bound_group.group.holds(line) {
            return Some(bound_group.source_on(bound_group.group.first.number() - line.number()));
        }
    }
    None
}
