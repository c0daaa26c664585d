//! A visitor that collects the instants of a body.

ghost use Rattle.std.specs.Prelude.{◌≡◌, None, ◌≤◌, length, replicate, [], OnOk, IfOk, vec_capacity};
ghost use Rattle.std.specs.List.Sorted.{IsNonDecreasing};
ghost use Rattle.vcd_read.specs.DumpProgress.{values_from};
ghost use Rattle.vcd_read.specs.ChangedNets.{ListsChangedNets};
ghost use Rattle.vcd_read.specs.Collected.{collected_change, collected_instant};

use crate::bits::extended;
use crate::change_visitor::ChangeVisitor;
use crate::dump::{Bits, Instant, Value, Values};
use std::alloc::{AllocError, Global};
use std::marker::Model;

/// The instants that are ended, and the values at the current one.
#[derive(Drop)]
pub(crate) struct InstantCollector {
    done: Vec<Instant>,
    /// The last value of each net at the current instant, if it has one.
    current: Vec<Option<Bits>>,
    /// The nets that have a value there.
    changed_nets: Vec<u32>,
}

impl Model for InstantCollector {
    ghost use Rattle.vcd_read.specs.Collected.{Collected};

    ghost Value = { Collected };

    ghost use Rattle.vcd_read.specs.ChangedNets.{ListsChangedNets};

    ghost view = { λ c. record { done = c.done.items; current = c.current.items } };

    ghost invariant = { λ c. ListsChangedNets c.changed_nets.items c.current.items };
}

impl InstantCollector {
    /// No instant yet, with room for the values of `nets` nets. It fails if memory runs out.
    pub fn new(alloc: Global, nets: usize) -> Result<InstantCollector, AllocError>
        ensures { IfOk result (λ c. c ≡ record { done = []; current = replicate nets None }) }
    {
        let mut current = Vec::with_capacity(alloc, nets)?;
        for _ in 0..nets {
            current.push(None)?;
        }
        Ok(InstantCollector {
            done: Vec::new(alloc),
            current,
            changed_nets: Vec::new(alloc),
        })
    }

    /// The instants that are ended.
    pub fn into_instants(self) -> Vec<Instant>
        ensures { result.items ≡ self.done }
    {
        self.done
    }

    /// Keeps the value of a net, in place of an earlier one. A net past the end of `current` is passed over. It fails
    /// if memory runs out, and then keeps nothing.
    fn keep(&mut self, net: u32, bits: Bits) -> Result<(), AllocError>
        ensures { OnOk result (self.new ≡ collected_change self.old net bits) }
    {
        let place = net as usize;
        if place >= self.current.len() {
            return Ok(());
        }
        if self.current[place].is_none() {
            self.changed_nets.push(net)?;
        }
        self.current[place] = Some(bits);
        Ok(())
    }
}

impl ChangeVisitor for InstantCollector {
    ghost use Rattle.vcd_read.specs.Collected.{Collected};

    ghost Taken = { Collected };

    ghost taken = { λ c. c };

    ghost with_change = { collected_change };

    ghost with_instant = { collected_instant };

    fn change(
        &mut self,
        alloc: Global,
        net: u32,
        size: u32,
        digits: &[u8],
    ) -> Result<(), AllocError> {
        let bits = extended(alloc, size, digits)?;
        self.keep(net, bits)
    }

    /// Ends the current instant. It fails if memory runs out, and then no value has moved: all memory is allocated
    /// before the first one does.
    fn end_instant(&mut self, alloc: Global, time: u64) -> Result<(), AllocError> {
        let mut values = Vec::with_capacity(alloc, self.changed_nets.len())?;
        self.done.reserve(1)?;
        self.changed_nets.sort_unstable();
        move_values(&self.changed_nets, &mut self.current, &mut values);
        self.changed_nets.clear();
        self.done.push_reserved(Instant {
            time,
            values: Values::from_vec(values),
        });
        Ok(())
    }
}

/// Moves the values of the nets that have one from `current` to `values`, in the order of the nets.
fn move_values(changed_nets: &[u32], current: &mut Vec<Option<Bits>>, values: &mut Vec<Value>)
    requires changed_nets { ListsChangedNets changed_nets.now current.old.items }
    requires sorted { IsNonDecreasing changed_nets.now }
    requires none { values.old.items ≡ [] }
    requires room { length changed_nets.now ≤ vec_capacity values.old }
    ensures values { values.new.items ≡ values_from 0 current.old.items }
    ensures left { current.new.items ≡ replicate (length current.old.items) None }
{
    for net in changed_nets {
        if let Some(bits) = current[*net as usize].take() {
            values.push_reserved(Value { net: *net, bits });
        }
    }
}
