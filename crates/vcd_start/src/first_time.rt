//! The first time of a dump, by a prefix of its text.

ghost use Rattle.std.specs.Prelude.{◌≡◌, ◌≢◌, ◌++◌, ℕ, List, None, IfErr, IfNone, IfOk, IfSome, Ok, OnOk};
ghost use Rattle.vcd_read.specs.Contents.{Contents};
ghost use Rattle.vcd_read.specs.Meaning.{ReadFails, dump_of};
ghost use Rattle.vcd_read.specs.Reached.{reached};
ghost use Rattle.vcd_read.specs.Tokens.{Token, tokens};
ghost use Rattle.vcd_read.specs.declared.fault.FaultKind.TheVariants.{Memory};
ghost use Rattle.vcd_start.specs.FirstTimes.{DeterminesFirstTime, HasFirstTime};
ghost use Rattle.vcd_start.specs.FirstTimeReading.{IsFirstTimeRead};

use crate::first_time_visitor::FirstTimeVisitor;
use crate::no_variables::NoVariables;
use std::alloc::{AllocError, Global};
use vcd_read::{BodyReader, FaultKind, VcdFault, read_front, whole_tokens};

/// What a prefix of a text determines of its first time, in the time units of the dump.
#[derive(Clone, Copy, Debug)]
pub enum FirstTime {
    /// The first instant doesn't end in the prefix.
    Undetermined,
    /// The first time of the text, if it has one.
    Determined(Option<u64>),
}

/// Reads what `front` has of a body. `None` if the definitions don't end in `front`. A fault is that of every text that
/// begins with the tokens of `front`.
fn read_in(alloc: Global, front: &[u8]) -> Result<Option<BodyReader<FirstTimeVisitor>>, VcdFault>
    ensures read { IfOk result
        (λ found. IfSome found (λ reader. IsFirstTimeRead front.now (reached (λ v. v.time) reader))) }
    ensures none { IfOk result (λ found. IfNone found ((dump : Contents) → dump_of front.now ≡ Ok dump → ⊥)) }
    ensures fails { IfErr result (λ fault. (text : List ℕ) (more : List Token)
        → tokens text ≡ tokens front.now ++ more → ReadFails fault (dump_of text)) }
{
    match read_front(alloc, front, NoVariables::new(alloc)) {
        Ok(Some((found, _))) => {
            let (reader, rest) = found.before_body(FirstTimeVisitor { time: None });
            match reader.read(alloc, rest) {
                Ok(reader) => Ok(Some(reader)),
                Err(fault) => Err(fault),
            }
        }
        Ok(None) => Ok(None),
        Err(fault) => Err(fault),
    }
}

/// `AllocError` if the fault is want of memory. Any other fault means that the text is no dump.
fn unless_memory(fault: VcdFault) -> Result<(), AllocError>
    ensures { OnOk result (fault.kind ≢ Memory) }
{
    match fault.kind {
        FaultKind::Memory => Err(AllocError),
        _ => Ok(()),
    }
}

/// What the body that is read so far determines of the first time.
fn first_time_by_reader(reader: BodyReader<FirstTimeVisitor>) -> FirstTime
    ensures { (front text : List ℕ) (more : List Token) → IsFirstTimeRead front (reached (λ v. v.time) reader)
        → tokens text ≡ tokens front ++ more → DeterminesFirstTime text result }
{
    let (_, first) = reader.with_visitor(FirstTimeVisitor { time: None });
    match first.into_time() {
        Some(time) => FirstTime::Determined(Some(time)),
        None => FirstTime::Undetermined,
    }
}

/// What the tokens of `front` determine of the first time.
fn first_time_by_tokens(alloc: Global, front: &[u8]) -> Result<FirstTime, AllocError>
    ensures { IfOk result (λ first_time. (text : List ℕ) (more : List Token) → tokens text ≡ tokens front.now ++ more
        → DeterminesFirstTime text first_time) }
{
    match read_in(alloc, front) {
        Ok(Some(reader)) => Ok(first_time_by_reader(reader)),
        Ok(None) => Ok(FirstTime::Undetermined),
        Err(fault) => {
            unless_memory(fault)?;
            Ok(FirstTime::Determined(None))
        }
    }
}

/// The first time of each dump that begins with `front`, if `front` determines it. It fails if memory runs out.
pub fn first_time_in(alloc: Global, front: &[u8]) -> Result<FirstTime, AllocError>
    ensures { IfOk result (λ first_time. (rest : List ℕ) → DeterminesFirstTime (front.now ++ rest) first_time) }
{
    let count = whole_tokens(front);
    first_time_by_tokens(alloc, &front[..count])
}

/// The first time of a whole dump, if it has one, in the time units of the dump. Of a text that is no dump nothing is
/// said. It fails if memory runs out.
pub fn first_time_of_text(alloc: Global, text: &[u8]) -> Result<Option<u64>, AllocError>
    ensures { IfOk result (λ time. HasFirstTime text.now time) }
{
    match read_in(alloc, text) {
        Ok(Some(reader)) => match reader.finish(alloc) {
            Ok(first) => Ok(first.into_time()),
            Err(fault) => {
                unless_memory(fault)?;
                Ok(None)
            }
        },
        Ok(None) => Ok(None),
        Err(fault) => {
            unless_memory(fault)?;
            Ok(None)
        }
    }
}
