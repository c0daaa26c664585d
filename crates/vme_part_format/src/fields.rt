//! A cursor over bytes: the bytes that are left, and the fields that are read from their front.

ghost use Rattle.std.specs.Prelude.{◌≡◌, ◌↔◌, [], IsTrue, slice_get};
ghost use Rattle.std.specs.Int.{w16, w32, w64};
ghost use Rattle.vme_trace.specs.Rules.{all_rules};
ghost use Rattle.vme_part_format.specs.Reading.{Gives, break_at, byte_at, entry_at, first_break_at, fault_at, flag_at};
ghost use Rattle.vme_part_format.specs.Reading.{first_break_by as first_break_by_number};
ghost use Rattle.vme_part_format.specs.Reading.{number_at, way_at, way_number_at};

use crate::fault::{FieldError, FieldFault, PartFaultKind};
use crate::table::TableEntry;
use crate::wide::WideBreak;
use std::marker::Model;
use vme_trace::{Line, Rule};

/// The rule with the index `place` in `Rule::ALL`, if there is one.
fn rule_at(place: u8) -> Option<Rule>
    ensures { result ≡ slice_get all_rules place }
{
    Rule::ALL.get(usize::from(place)).copied()
}

/// The bytes that are left to read. In contracts it is the list of these bytes.
#[derive(Drop)]
pub(crate) struct Fields<'a> {
    rest: &'a [u8],
}

impl<'a> Model for Fields<'a> {
    ghost use Rattle.std.specs.Prelude.{ℕ, List};

    ghost Value = { List ℕ };

    ghost view = { λ a. a.rest.now };
}

impl<'a> Fields<'a> {
    /// All of `bytes` is left.
    pub(crate) fn new(bytes: &'a [u8]) -> Fields<'a>
        ensures { result ≡ bytes.now }
    {
        Fields { rest: bytes }
    }

    /// Whether nothing is left.
    pub(crate) fn is_empty(&self) -> bool
        ensures { IsTrue result ↔ (self.now ≡ []) }
    {
        self.rest.is_empty()
    }

    /// A fault of the kind `kind` at the next field.
    pub(crate) fn fault(&self, kind: PartFaultKind) -> FieldFault
        ensures { result ≡ fault_at kind self.now }
    {
        FieldFault {
            kind,
            left: self.rest.len(),
        }
    }

    /// Reads a byte.
    pub(crate) fn byte(&mut self) -> Result<u8, FieldError>
        ensures { Gives (λ x. x) result self.new (byte_at self.old) }
    {
        match self.rest {
            [] => Err(FieldError::Fault(self.fault(PartFaultKind::CutShort))),
            [byte, rest @ ..] => {
                self.rest = rest;
                Ok(*byte)
            }
        }
    }

    /// Reads a number of 2 bytes, the least first.
    pub(crate) fn u16(&mut self) -> Result<u16, FieldError>
        ensures { Gives (λ x. x) result self.new (number_at w16 self.old) }
    {
        if self.rest.len() < 2 {
            return Err(FieldError::Fault(self.fault(PartFaultKind::CutShort)));
        }
        let (front, rest) = self.rest.split_at(2);
        self.rest = rest;
        Ok(u16::from_le_bytes([front[0], front[1]]))
    }

    /// Reads a number of 4 bytes, the least first.
    pub(crate) fn u32(&mut self) -> Result<u32, FieldError>
        ensures { Gives (λ x. x) result self.new (number_at w32 self.old) }
    {
        if self.rest.len() < 4 {
            return Err(FieldError::Fault(self.fault(PartFaultKind::CutShort)));
        }
        let (front, rest) = self.rest.split_at(4);
        self.rest = rest;
        Ok(u32::from_le_bytes([front[0], front[1], front[2], front[3]]))
    }

    /// Reads a number of 8 bytes, the least first.
    pub(crate) fn u64(&mut self) -> Result<u64, FieldError>
        ensures { Gives (λ x. x) result self.new (number_at w64 self.old) }
    {
        if self.rest.len() < 8 {
            return Err(FieldError::Fault(self.fault(PartFaultKind::CutShort)));
        }
        let (front, rest) = self.rest.split_at(8);
        self.rest = rest;
        Ok(u64::from_le_bytes([
            front[0], front[1], front[2], front[3], front[4], front[5], front[6], front[7],
        ]))
    }

    /// Reads a byte that has to be 0 for `false` or 1 for `true`.
    #[tactic(auto, unfolding(crate::specs::Reading::flag_at))]
    pub(crate) fn flag(&mut self) -> Result<bool, FieldError>
        ensures { Gives (λ x. x) result self.new (flag_at self.old) }
    {
        match self.rest {
            [] => Err(FieldError::Fault(self.fault(PartFaultKind::CutShort))),
            [0, rest @ ..] => {
                self.rest = rest;
                Ok(false)
            }
            [1, rest @ ..] => {
                self.rest = rest;
                Ok(true)
            }
            [_, ..] => Err(FieldError::Fault(self.fault(PartFaultKind::BadFlag))),
        }
    }

    /// Reads what follows the number of `rule` in a break: line, instant and time.
    #[tactic(auto, unfolding(crate::specs::Reading::break_at))]
    fn break_by(
        &mut self,
        steps: u64,
        rule: Rule,
        bad: FieldFault,
    ) -> Result<Option<WideBreak>, FieldError>
        ensures { Gives (λ x. x) result self.new (break_at steps rule bad self.old) }
    {
        let number = self.byte()?;
        let instant = self.u64()?;
        let time = self.u64()?;
        match Line::from_number(number) {
            Some(line) if 0 < instant && instant <= steps => Ok(Some(WideBreak {
                instant,
                time,
                rule,
                line,
            })),
            _ => Err(FieldError::Fault(bad)),
        }
    }

    /// Reads what follows `number`: no break if it is 0, else a break of the rule `number - 1`.
    #[tactic(auto, unfolding(crate::specs::Reading::first_break_by))]
    fn first_break_by(
        &mut self,
        steps: u64,
        bad: FieldFault,
        number: u8,
    ) -> Result<Option<WideBreak>, FieldError>
        ensures { Gives (λ x. x) result self.new (first_break_by_number steps bad number self.old) }
    {
        if number == 0 {
            return Ok(None);
        }
        match rule_at(number - 1) {
            Some(rule) => self.break_by(steps, rule, bad),
            None => Err(FieldError::Fault(bad)),
        }
    }

    /// Reads a break of a segment of `steps` steps, or that there is none.
    #[tactic(auto, unfolding(crate::specs::Reading::first_break_at))]
    pub(crate) fn first_break(&mut self, steps: u64) -> Result<Option<WideBreak>, FieldError>
        ensures { Gives (λ x. x) result self.new (first_break_at steps self.old) }
    {
        let bad = self.fault(PartFaultKind::BadBreak);
        let number = self.byte()?;
        self.first_break_by(steps, bad, number)
    }

    /// Reads a way, i.e. the number of the memory or node with which a run continues: 4 bytes in a part with marks,
    /// else 1.
    fn way_number(&mut self, listing: bool) -> Result<u32, FieldError>
        ensures { Gives (λ x. x) result self.new (way_number_at listing self.old) }
    {
        if listing {
            self.u32()
        } else {
            Ok(u32::from(self.byte()?))
        }
    }

    /// Reads a way, which has to be below `ways`, the number of the memories and nodes with which the run may continue.
    #[tactic(auto, unfolding(crate::specs::Reading::way_at))]
    pub(crate) fn way(&mut self, listing: bool, ways: u32) -> Result<u32, FieldError>
        ensures { Gives (λ x. x) result self.new (way_at listing ways self.old) }
    {
        let bad = self.fault(PartFaultKind::BadWay);
        let way = self.way_number(listing)?;
        if way < ways {
            Ok(way)
        } else {
            Err(FieldError::Fault(bad))
        }
    }

    /// Reads an entry of a table of a segment of `steps` steps. Its way has to be below `ways`, the number of memories
    /// and nodes.
    #[tactic(auto, unfolding(crate::specs::Reading::entry_at))]
    pub(crate) fn entry(
        &mut self,
        listing: bool,
        steps: u64,
        ways: u32,
    ) -> Result<TableEntry, FieldError>
        ensures { Gives (λ x. x) result self.new (entry_at listing steps ways self.old) }
    {
        let next = self.way(listing, ways)?;
        let first_break = self.first_break(steps)?;
        Ok(TableEntry { next, first_break })
    }
}
