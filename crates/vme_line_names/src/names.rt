//! The readings of a variable's name: each place in it that has the name of a line or of a group,
//! and the texts before and after that.

use crate::affix::{Affix, Direction, affix_of};
use std::alloc::AllocError;
use vme_declarations::DeclaredVariable;
use vme_trace::{CHAIN_NETS, Line, MOST_SLOTS};

/// The lines that a word or a whole name denotes.
#[derive(Clone, Copy, Debug, PartialEq, Eq)]
pub(crate) enum NamedLines {
    /// One line.
    Line(Line),
    /// DS1 and DS0.
    Strobes,
    /// AM5 to AM0.
    Modifiers,
    /// A31 to A01, or some of them.
    Addresses,
    /// D31 to D00, or some of them.
    Data,
    /// BR3 to BR0.
    Requests,
    /// A grant chain whose level is in the text after the word. No whole name denotes this.
    Grants,
    /// The nets of a level's grant chain.
    GrantChain(u8),
    /// A level and a net: a variable of one bit without an index is this net of the level's grant chain. Any other one
    /// is the whole chain, or the bit of it with its index.
    GrantNet(u8, u8),
    /// The net with this number of each level's grant chain.
    GrantNetOfEachLevel(u8),
    /// IACKOUT* of the slots, from slot 1 on. The number 0 is no line, since there is no slot 0; a chain that begins
    /// with IACK has another word.
    SlotAcknowledges,
    /// IACK with the number 0, and after it IACKOUT* of the slots.
    WholeAcknowledgeChain,
    /// A variable of one bit is IACK, and one of several bits is IACK and the whole acknowledge chain.
    AcknowledgeLineOrChain,
}

/// The words for lines and groups, in lower case, where `_` matches any separators or none; what each denotes, alone or
/// with the text after it; and whether the names of lines in a binding have the word, as those of AS, DS0, BG3 and IA.
const WORDS: [(&[u8], NamedLines, bool); 58] = [
    (b"as", NamedLines::Line(Line::AS), true),
    (b"addr_strobe", NamedLines::Line(Line::AS), false),
    (b"address_strobe", NamedLines::Line(Line::AS), false),
    (b"ds", NamedLines::Strobes, true),
    (b"data_strobe", NamedLines::Strobes, false),
    (b"d_strobe", NamedLines::Strobes, false),
    (b"dtack", NamedLines::Line(Line::DTACK), true),
    (b"data_ack", NamedLines::Line(Line::DTACK), false),
    (b"berr", NamedLines::Line(Line::BERR), true),
    (b"bus_err", NamedLines::Line(Line::BERR), false),
    (b"bus_error", NamedLines::Line(Line::BERR), false),
    (b"iack", NamedLines::AcknowledgeLineOrChain, true),
    (b"iack_in", NamedLines::Line(Line::IACK), false),
    (b"int_ack", NamedLines::AcknowledgeLineOrChain, false),
    (b"lword", NamedLines::Line(Line::LWORD), true),
    (b"long_word", NamedLines::Line(Line::LWORD), false),
    (b"write", NamedLines::Line(Line::WRITE), true),
    (b"bbsy", NamedLines::Line(Line::BBSY), true),
    (b"bus_busy", NamedLines::Line(Line::BBSY), false),
    (b"sys_reset", NamedLines::Line(Line::SYSRESET), true),
    (b"sys_res", NamedLines::Line(Line::SYSRESET), false),
    (b"sys_rst", NamedLines::Line(Line::SYSRESET), false),
    (b"system_reset", NamedLines::Line(Line::SYSRESET), false),
    (b"am", NamedLines::Modifiers, true),
    (b"am_code", NamedLines::Modifiers, false),
    (b"amod", NamedLines::Modifiers, false),
    (b"addr_mod", NamedLines::Modifiers, false),
    (b"addr_modifier", NamedLines::Modifiers, false),
    (b"address_mod", NamedLines::Modifiers, false),
    (b"address_modifier", NamedLines::Modifiers, false),
    (b"a", NamedLines::Addresses, true),
    (b"addr", NamedLines::Addresses, false),
    (b"adr", NamedLines::Addresses, false),
    (b"address", NamedLines::Addresses, false),
    (b"d", NamedLines::Data, true),
    (b"data", NamedLines::Data, false),
    (b"dat", NamedLines::Data, false),
    (b"br", NamedLines::Requests, true),
    (b"breq", NamedLines::Requests, false),
    (b"bus_req", NamedLines::Requests, false),
    (b"bus_request", NamedLines::Requests, false),
    (b"bg", NamedLines::Grants, true),
    (b"bgnt", NamedLines::Grants, false),
    (b"bgrant", NamedLines::Grants, false),
    (b"bus_gnt", NamedLines::Grants, false),
    (b"bus_grant", NamedLines::Grants, false),
    (b"bg_in", NamedLines::GrantNetOfEachLevel(0), false),
    (b"bg_out", NamedLines::GrantNetOfEachLevel(1), false),
    (b"bus_grant_in", NamedLines::GrantNetOfEachLevel(0), false),
    (b"bus_grant_out", NamedLines::GrantNetOfEachLevel(1), false),
    (b"ia", NamedLines::SlotAcknowledges, true),
    (b"iack_out", NamedLines::SlotAcknowledges, false),
    (b"int_ack_out", NamedLines::SlotAcknowledges, false),
    (b"iack_chain", NamedLines::WholeAcknowledgeChain, false),
    (b"iack_daisy", NamedLines::WholeAcknowledgeChain, false),
    (
        b"iack_daisy_chain",
        NamedLines::WholeAcknowledgeChain,
        false,
    ),
    (b"acknowledge", NamedLines::WholeAcknowledgeChain, false),
    (
        b"acknowledge_chain",
        NamedLines::WholeAcknowledgeChain,
        false,
    ),
];

/// One way to read a name.
#[derive(Clone, Copy)]
pub(crate) struct NameReading {
    /// The lines that are named.
    pub named: NamedLines,
    /// The words before and after their name.
    pub affix: Affix,
    /// Whether the names of lines in a binding have the word.
    pub is_line_name: bool,
}

/// Whether a byte only separates the words of a name.
pub(crate) fn is_separator(byte: u8) -> bool {
    matches!(
        byte,
        b'_' | b'[' | b']' | b'(' | b')' | b'<' | b'>' | b'{' | b'}' | b'.' | b':' | b'-' | b'$'
    )
}

/// The text from its first byte on that is no separator.
fn after_separators(text: &[u8]) -> &[u8] {
    match text.iter().position(|byte| !is_separator(*byte)) {
        Some(at) => text.get(at..).unwrap_or(b""),
        None => b"",
    }
}

/// The text after `word`, if `text` begins with that, in whichever case it is written.
fn after_word<'a>(text: &'a [u8], word: &[u8]) -> Option<&'a [u8]> {
    let mut rest = text;
    for wanted in word {
        if *wanted == b'_' {
            rest = after_separators(rest);
        } else {
            match rest {
                [byte, after @ ..] if byte.to_ascii_lowercase() == *wanted => rest = after,
                _ => return None,
            }
        }
    }
    Some(rest)
}

/// A number of one or two digits that `text` begins with after any separators, and the text after it.
fn number(text: &[u8]) -> Option<(u8, &[u8])> {
    match after_separators(text) {
        [b'0'..=b'9', b'0'..=b'9', b'0'..=b'9', ..] => None,
        [ten @ b'0'..=b'9', digit @ b'0'..=b'9', rest @ ..] => {
            Some(((*ten - b'0') * 10 + (*digit - b'0'), rest))
        }
        [digit @ b'0'..=b'9', rest @ ..] => Some((*digit - b'0', rest)),
        _ => None,
    }
}

/// What a word that denotes `named` denotes with the number `bit`. For `iack` this is nothing if the number is 0: IACK
/// has no number, and the first slot has the number 1.
fn numbered(named: &NamedLines, bit: u8) -> Option<NamedLines> {
    match named {
        NamedLines::GrantNetOfEachLevel(net) if bit < 4 => Some(NamedLines::GrantNet(bit, *net)),
        NamedLines::AcknowledgeLineOrChain if bit == 0 => None,
        _ => {
            let line = named.line_of_number(bit)?;
            Some(NamedLines::Line(line))
        }
    }
}

/// A number of one or two digits at the end of a text, and the text before it. It is `None` where only separators are
/// before it: that is the number that the text begins with.
fn ending_number(text: &[u8]) -> Option<(u8, &[u8])> {
    let last = text.iter().rposition(|byte| !is_separator(*byte))?;
    let text = &text[..last + 1];
    let before = text.iter().rposition(|byte| !byte.is_ascii_digit())?;
    let (found, _) = number(&text[before + 1..])?;
    let front = &text[..before + 1];
    if after_separators(front).is_empty() {
        None
    } else {
        Some((found, front))
    }
}

/// The direction `in` or `out` that `text` begins with after any separators, and the text after it; `None` where a
/// letter follows.
fn after_direction(text: &[u8]) -> Option<(Direction, &[u8])> {
    let (direction, rest) = match after_word(text, b"_in") {
        Some(rest) => (Direction::Input, rest),
        None => (Direction::Output, after_word(text, b"_out")?),
    };
    match rest {
        [byte, ..] if byte.is_ascii_alphabetic() => None,
        _ => Some((direction, rest)),
    }
}

/// The direction that `word` itself says.
fn direction_of(word: &[u8]) -> Direction {
    if word.ends_with(b"_in") {
        Direction::Input
    } else if word.ends_with(b"_out") {
        Direction::Output
    } else {
        Direction::Unknown
    }
}

/// Appends all readings of a name to `readings`.
pub(crate) fn push_readings(
    readings: &mut Vec<NameReading>,
    written: &[u8],
) -> Result<(), AllocError> {
    let name = match written {
        [b'\\', rest @ ..] => rest,
        _ => written,
    };
    for start in 0..name.len() {
        let (before, text) = (&name[..start], &name[start..]);
        if !is_separator(text[0]) {
            push_readings_at(readings, before, text)?;
        }
    }
    Ok(())
}

/// A word in a name: the text before it, and what the word itself says.
#[derive(Clone, Copy)]
struct MatchedWord<'n> {
    before: &'n [u8],
    direction: Direction,
    is_line_name: bool,
}

/// Appends a reading, if the word denotes something: what it denotes, and the affix with the text `after` it.
fn push_reading(
    readings: &mut Vec<NameReading>,
    matched: &MatchedWord<'_>,
    named: Option<NamedLines>,
    after: &[u8],
) -> Result<(), AllocError> {
    let Some(named) = named else {
        return Ok(());
    };
    let mut affix = affix_of(matched.before, after);
    if affix.direction == Direction::Unknown {
        affix.direction = matched.direction;
    }
    readings.push(NameReading {
        named,
        affix,
        is_line_name: matched.is_line_name,
    })?;
    Ok(())
}

/// Appends the readings of a word for a line or a group, before the text `rest`: without a number, with one right after
/// the word, and with another one at the end.
fn push_word(
    readings: &mut Vec<NameReading>,
    matched: &MatchedWord<'_>,
    named: &NamedLines,
    rest: &[u8],
) -> Result<(), AllocError> {
    push_reading(readings, matched, Some(*named), rest)?;
    if let Some((bit, after_number)) = number(rest) {
        push_reading(readings, matched, numbered(named, bit), after_number)?;
    }
    if let Some((bit, before_number)) = ending_number(rest) {
        push_reading(readings, matched, numbered(named, bit), before_number)?;
    }
    Ok(())
}

/// A level of arbitration that `text` begins with after any separators, and the text after it.
fn first_level(text: &[u8]) -> Option<(u8, &[u8])> {
    match after_separators(text) {
        [digit @ b'0'..=b'3', rest @ ..] => Some((*digit - b'0', rest)),
        _ => None,
    }
}

/// What a grant of a level denotes before the text `rest`: the net that a board gets where this begins with `in`, the
/// net that it passes on where it begins with `out`, or else the whole chain.
fn grants_of(level: u8, rest: &[u8]) -> NamedLines {
    let Some((direction, _)) = after_direction(rest) else {
        return NamedLines::GrantChain(level);
    };
    let net = if direction == Direction::Input { 0 } else { 1 };
    NamedLines::GrantNet(level, net)
}

/// Appends the readings of a grant, whose level is in the text `rest` after the word.
fn push_grants(
    readings: &mut Vec<NameReading>,
    matched: &MatchedWord<'_>,
    rest: &[u8],
) -> Result<(), AllocError> {
    if let Some((level, after_level)) = first_level(rest) {
        return push_level(readings, matched, level, after_level);
    }
    if let Some((level, before_level)) = ending_number(rest) {
        if level < 4 {
            let named = grants_of(level, before_level);
            push_reading(readings, matched, Some(named), before_level)?;
        }
    }
    Ok(())
}

/// Appends the readings of a grant of a level, before the text `rest`: as the first net of the chain (`in`) or its
/// second one (`out`), or else as the whole chain; and as the net with a number. The direction may belong to the style,
/// as that of `as_in2` and `bg3_in2` does, or not.
fn push_level(
    readings: &mut Vec<NameReading>,
    matched: &MatchedWord<'_>,
    level: u8,
    rest: &[u8],
) -> Result<(), AllocError> {
    push_reading(readings, matched, Some(grants_of(level, rest)), rest)?;
    let Some((direction, after)) = after_direction(rest) else {
        return push_nets(readings, matched, level, rest);
    };
    let directed = MatchedWord {
        before: matched.before,
        direction,
        is_line_name: matched.is_line_name,
    };
    push_reading(readings, &directed, Some(grants_of(level, rest)), after)?;
    push_nets(readings, &directed, level, after)
}

/// Appends the readings of a net of a level's chain, before the text `rest`: with the number that this begins with, and
/// with another one at its end.
fn push_nets(
    readings: &mut Vec<NameReading>,
    matched: &MatchedWord<'_>,
    level: u8,
    rest: &[u8],
) -> Result<(), AllocError> {
    if let Some((net, after_number)) = number(rest) {
        push_reading(readings, matched, net_of(level, net), after_number)?;
    }
    if let Some((net, before_number)) = ending_number(rest) {
        push_reading(readings, matched, net_of(level, net), before_number)?;
    }
    Ok(())
}

/// The net `net` of the level's grant chain, if there is one.
fn net_of(level: u8, net: u8) -> Option<NamedLines> {
    if level < 4 && net < CHAIN_NETS {
        Some(NamedLines::Line(Line::grant(level, net)))
    } else {
        None
    }
}

/// Whether a word that denotes `named` is a part of a word for IACKOUT*, which isn't IACK: `out` stands right after it.
fn is_part_of_output(named: &NamedLines, rest: &[u8]) -> bool {
    let is_output = match after_direction(rest) {
        Some((direction, _)) => direction == Direction::Output,
        None => false,
    };
    is_output && matches!(named, NamedLines::AcknowledgeLineOrChain)
}

/// Appends the readings of a name whose word begins where `text` begins, after the text `before`.
fn push_readings_at(
    readings: &mut Vec<NameReading>,
    before: &[u8],
    text: &[u8],
) -> Result<(), AllocError> {
    for place in 0..WORDS.len() {
        let (word, named, is_line_name) = WORDS[place];
        if let Some(rest) = after_word(text, word) {
            let matched = MatchedWord {
                before,
                direction: direction_of(word),
                is_line_name,
            };
            if matches!(&named, NamedLines::Grants) {
                push_grants(readings, &matched, rest)?;
            } else if !is_part_of_output(&named, rest) {
                push_word(readings, &matched, &named, rest)?;
            }
        }
    }
    Ok(())
}

/// What is added to the number of a bit of the address: 1 where the bits are numbered from 0, but are as many as the
/// lines from A01 to A31, A23 or A15.
fn address_shift(variable: &DeclaredVariable) -> u32 {
    let lowest = match variable.index {
        Some((left, right)) => left.min(right),
        None => 0,
    };
    let from_one = matches!(variable.size, 31 | 23 | 15);
    if lowest == 0 && from_one { 1 } else { 0 }
}

impl NamedLines {
    /// The line of the bit at `place`, from the left, of a variable with this name. A variable of one bit without an
    /// index is no address, data, modifier, request or strobe line by the name of their group: a `d` is the input of a
    /// flip-flop. By that of a grant chain it is net 0, by that of a net of a level it is this net, by that of a net of
    /// each level it is the net of BG0, by that of IACKOUT* it is IA.1, and by that of the acknowledge chain IACK.
    pub(crate) fn line_at(&self, variable: &DeclaredVariable, place: u32) -> Option<Line> {
        let is_lone = variable.size == 1 && variable.index.is_none();
        let shift = match self {
            NamedLines::Line(line) => return if variable.size == 1 {
                Some(*line)
            } else {
                None
            },
            NamedLines::AcknowledgeLineOrChain if variable.size == 1 => return Some(Line::IACK),
            NamedLines::GrantNet(level, net) if is_lone && *level < 4 && *net < CHAIN_NETS => {
                return Some(Line::grant(*level, *net));
            }
            NamedLines::Data
            | NamedLines::Modifiers
            | NamedLines::Addresses
            | NamedLines::Requests
            | NamedLines::Strobes
                if is_lone => return None,
            NamedLines::Addresses => address_shift(variable),
            NamedLines::SlotAcknowledges if variable.index.is_none() => 1,
            _ => 0,
        };
        let number = variable.number_of_bit(place);
        let bit = u8::try_from(number.saturating_add(shift)).ok()?;
        self.line_of_number(bit)
    }

    /// The line with the number `bit` in the group.
    fn line_of_number(&self, bit: u8) -> Option<Line> {
        match self {
            NamedLines::Strobes if bit == 0 => Some(Line::DS0),
            NamedLines::Strobes if bit == 1 => Some(Line::DS1),
            NamedLines::Modifiers if bit < 6 => Some(Line::address_modifier(bit)),
            NamedLines::Addresses if 1 <= bit && bit <= 31 => Some(Line::address(bit)),
            NamedLines::Data if bit < 32 => Some(Line::data(bit)),
            NamedLines::Requests if bit < 4 => Some(Line::bus_request(bit)),
            NamedLines::GrantChain(level) | NamedLines::GrantNet(level, _)
                if *level < 4 && bit < CHAIN_NETS => Some(Line::grant(*level, bit)),
            NamedLines::GrantNetOfEachLevel(net) if bit < 4 && *net < CHAIN_NETS => {
                Some(Line::grant(bit, *net))
            }
            NamedLines::WholeAcknowledgeChain | NamedLines::AcknowledgeLineOrChain if bit == 0 => {
                Some(Line::IACK)
            }
            NamedLines::SlotAcknowledges
            | NamedLines::WholeAcknowledgeChain
            | NamedLines::AcknowledgeLineOrChain
                if 1 <= bit && bit <= MOST_SLOTS => Some(Line::iack(bit)),
            _ => None,
        }
    }
}
