//! The time scale of a dump.

ghost use Rattle.std.specs.Prelude.{◌≡◌, ◌≤◌, ◌++◌, IfOk, OnOk};
ghost use Rattle.vcd_read.specs.Tokens.{is_space};
ghost use Rattle.vme_variables.specs.Timescale.{section_after, shown_token, time_scale};

use std::alloc::{AllocError, Global};
use vme_text::Text;

/// The section of the definitions that a token is in.
#[derive(Clone, Copy)]
enum TimescaleSection {
    /// No section.
    Outside,
    /// The section of the time scale.
    Timescale,
    /// Another section.
    Other,
    /// The first time scale has ended, or the definitions have.
    After,
}

/// Whether a byte separates tokens.
fn is_blank(byte: u8) -> bool
    ensures { result ≡ is_space byte }
{
    byte == b' ' || byte == b'\t' || byte == b'\n' || byte == b'\r'
}

/// Appends a token if it is one of the time scale, and returns the section after it.
fn push_token(
    text: &mut Text,
    section: TimescaleSection,
    token: &[u8],
) -> Result<TimescaleSection, AllocError>
    ensures text { OnOk result (text.new ≡ text.old ++ shown_token section token.now) }
    ensures section { IfOk result (λ behind. behind ≡ section_after section token.now) }
{
    if token.is_empty() {
        return Ok(section);
    }
    match section {
        TimescaleSection::Outside => {
            if token == b"$enddefinitions".as_slice() {
                return Ok(TimescaleSection::After);
            }
            if token == b"$timescale".as_slice() {
                return Ok(TimescaleSection::Timescale);
            }
            Ok(TimescaleSection::Other)
        }
        TimescaleSection::Timescale => {
            if token == b"$end".as_slice() {
                return Ok(TimescaleSection::After);
            }
            text.push(token)?;
            Ok(TimescaleSection::Timescale)
        }
        TimescaleSection::Other => {
            if token == b"$end".as_slice() {
                return Ok(TimescaleSection::Outside);
            }
            Ok(TimescaleSection::Other)
        }
        TimescaleSection::After => Ok(TimescaleSection::After),
    }
}

/// Appends the tokens of the first `$timescale` section of a dump, joined without space; nothing where it has none.
pub(crate) fn push_timescale(text: &mut Text, dump: &[u8]) -> Result<(), AllocError>
    ensures { OnOk result (text.new ≡ text.old ++ time_scale dump.now) }
{
    let mut section = TimescaleSection::Outside;
    let mut start = 0;
    for (at, byte) in dump.iter().enumerate() {
        if !is_blank(*byte) {
            continue;
        }
        section = push_token(text, section, &dump[start..at])?;
        if let TimescaleSection::After = section {
            return Ok(());
        }
        start = at + 1;
    }
    let _ = push_token(text, section, &dump[start..dump.len()])?;
    Ok(())
}

/// The number that the digits at the beginning of `text` denote, or `u64::MAX` where that is less; 0 where there are
/// none.
fn leading_number(text: &[u8]) -> u64 {
    let mut number: u64 = 0;
    for byte in text {
        match *byte {
            b'0'..=b'9' => {
                number = number
                    .saturating_mul(10)
                    .saturating_add(u64::from(*byte - b'0'));
            }
            _ => return number,
        }
    }
    number
}

/// The time scale of a dump, as `10ns`; nothing where it has none. It fails if memory runs out.
pub fn time_scale(alloc: Global, dump: &[u8]) -> Result<Text, AllocError>
    ensures { IfOk result (λ scale. scale ≡ time_scale dump.now) }
{
    let mut scale = Text::new(alloc);
    push_timescale(&mut scale, dump)?;
    Ok(scale)
}

/// The number of units in the time scale of a dump, as 10 for 10 ns: how many of them one tick of time is. It is at
/// least 1, and 1 where the dump has no time scale. It fails if memory runs out.
pub fn time_unit(alloc: Global, dump: &[u8]) -> Result<u64, AllocError>
    ensures { IfOk result (λ units. 1 ≤ units) }
{
    let scale = time_scale(alloc, dump)?;
    Ok(leading_number(scale.as_bytes()).max(1))
}
