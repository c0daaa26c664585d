//! The parts of a variable's name before and after the name of a line.

use vme_declarations::{EMPTY_HASH, hash_of};

/// The direction of a board's signal. A variant shows the level of the bus better than those after it.
#[derive(Clone, Copy, Debug, PartialEq, Eq)]
pub(crate) enum Direction {
    /// The name says none.
    Unknown,
    /// What the board receives from the bus.
    Input,
    /// What the board drives and receives.
    Both,
    /// What the board drives on the bus.
    Output,
    /// A register of the board that keeps the signal.
    Register,
    /// The enable of the board's driver.
    Enable,
}

/// The words before and after the name of a line. Two affixes are of one style where their three hashes are the same.
/// Marks of polarity and of direction, and words that say nothing, aren't in the hashes.
#[derive(Clone, Copy)]
pub(crate) struct Affix {
    /// The hash of the words before.
    pub before: u64,
    /// The hash of the words after.
    pub after: u64,
    /// The hash of the words for a bus, before and after.
    pub bus: u64,
    /// The direction of the signal.
    pub direction: Direction,
    /// Whether there is a mark of a signal that is asserted when it is Low.
    pub is_marked: bool,
}

/// What a word of an affix is.
#[derive(Clone, Copy, PartialEq, Eq)]
enum WordKind {
    /// A mark of a signal that is asserted when it is Low.
    Polarity,
    /// A direction.
    Direction(Direction),
    /// A name of the bus.
    Bus,
    /// It says nothing.
    Filler,
    /// It says something that isn't known here.
    Word,
}

/// The words that are known, in lower case.
const KNOWN_WORDS: [(&[u8], WordKind); 55] = [
    (b"n", WordKind::Polarity),
    (b"l", WordKind::Polarity),
    (b"b", WordKind::Polarity),
    (b"x", WordKind::Polarity),
    (b"z", WordKind::Polarity),
    (b"bar", WordKind::Polarity),
    (b"not", WordKind::Polarity),
    (b"neg", WordKind::Polarity),
    (b"inv", WordKind::Polarity),
    (b"low", WordKind::Polarity),
    (b"lo", WordKind::Polarity),
    (b"al", WordKind::Polarity),
    (b"i", WordKind::Direction(Direction::Input)),
    (b"in", WordKind::Direction(Direction::Input)),
    (b"input", WordKind::Direction(Direction::Input)),
    (b"ni", WordKind::Direction(Direction::Input)),
    (b"io", WordKind::Direction(Direction::Both)),
    (b"nio", WordKind::Direction(Direction::Both)),
    (b"inout", WordKind::Direction(Direction::Both)),
    (b"bi", WordKind::Direction(Direction::Both)),
    (b"bidir", WordKind::Direction(Direction::Both)),
    (b"o", WordKind::Direction(Direction::Output)),
    (b"no", WordKind::Direction(Direction::Output)),
    (b"out", WordKind::Direction(Direction::Output)),
    (b"output", WordKind::Direction(Direction::Output)),
    (b"drv", WordKind::Direction(Direction::Output)),
    (b"drive", WordKind::Direction(Direction::Output)),
    (b"r", WordKind::Direction(Direction::Register)),
    (b"q", WordKind::Direction(Direction::Register)),
    (b"reg", WordKind::Direction(Direction::Register)),
    (b"t", WordKind::Direction(Direction::Enable)),
    (b"tri", WordKind::Direction(Direction::Enable)),
    (b"oe", WordKind::Direction(Direction::Enable)),
    (b"en", WordKind::Direction(Direction::Enable)),
    (b"vme", WordKind::Bus),
    (b"vmebus", WordKind::Bus),
    (b"vme64", WordKind::Bus),
    (b"bus", WordKind::Bus),
    (b"backplane", WordKind::Bus),
    (b"bp", WordKind::Bus),
    (b"p1", WordKind::Bus),
    (b"p2", WordKind::Bus),
    (b"j1", WordKind::Bus),
    (b"j2", WordKind::Bus),
    (b"chain", WordKind::Filler),
    (b"daisy", WordKind::Filler),
    (b"code", WordKind::Filler),
    (b"sig", WordKind::Filler),
    (b"signal", WordKind::Filler),
    (b"net", WordKind::Filler),
    (b"wire", WordKind::Filler),
    (b"line", WordKind::Filler),
    (b"lines", WordKind::Filler),
    (b"pin", WordKind::Filler),
    (b"pad", WordKind::Filler),
];

/// What a word is.
fn kind_of(word: &[u8]) -> WordKind {
    for (known, kind) in KNOWN_WORDS {
        if word.eq_ignore_ascii_case(known) {
            return kind;
        }
    }
    WordKind::Word
}

/// What a word is that is joined to the name of a line without a separator. As a polarity it is `n` or has at least
/// three letters. As a direction it has at least two letters: one letter may belong to another name, as the `i` of `ia`
/// does.
fn kind_of_joined(word: &[u8]) -> WordKind {
    let kind = kind_of(word);
    let is_known = match &kind {
        WordKind::Polarity => word.eq_ignore_ascii_case(b"n") || word.len() > 2,
        WordKind::Direction(_) => word.len() > 1,
        WordKind::Bus => true,
        WordKind::Filler | WordKind::Word => false,
    };
    if is_known { kind } else { WordKind::Word }
}

/// A text up to its last separator, and its last word.
fn split_last(text: &[u8]) -> (&[u8], &[u8]) {
    match text.iter().rposition(|byte| !byte.is_ascii_alphanumeric()) {
        Some(at) => (&text[..at], &text[at + 1..]),
        None => (b"", text),
    }
}

/// The first word of a text, and the text after it.
fn split_first(text: &[u8]) -> (&[u8], &[u8]) {
    match text.iter().position(|byte| !byte.is_ascii_alphanumeric()) {
        Some(at) => (&text[..at], &text[at..]),
        None => (text, b""),
    }
}

/// The hash of `word` after words with the hash `before`, in whichever case it is written.
fn with_word(before: u64, word: &[u8]) -> u64 {
    let mut hash = before;
    for byte in word {
        hash = hash_of(hash, &[byte.to_ascii_lowercase()]);
    }
    hash_of(hash, b" ")
}

/// Whether a byte is a mark of a signal that is asserted when it is Low.
fn is_sign(byte: u8) -> bool {
    matches!(byte, b'*' | b'#' | b'/' | b'~' | b'!')
}

/// The affix of a name with the texts `before` and `after` around the name of a line.
pub(crate) fn affix_of(before: &[u8], after: &[u8]) -> Affix {
    let mut made = Affix::of_style(EMPTY_HASH, EMPTY_HASH, EMPTY_HASH);
    let (words, close) = split_last(before);
    for word in words.split(|byte| !byte.is_ascii_alphanumeric()) {
        made.take(word, kind_of(word), true);
    }
    made.take(close, kind_of_joined(close), true);
    let (close, words) = split_first(after);
    made.take(close, kind_of_joined(close), false);
    for word in words.split(|byte| !byte.is_ascii_alphanumeric()) {
        made.take(word, kind_of(word), false);
    }
    let has_sign = before.iter().any(|byte| is_sign(*byte))
        || after.iter().any(|byte| is_sign(*byte));
    made.is_marked = made.is_marked || has_sign;
    made
}

impl Affix {
    /// Adds a word before or after the name of a line.
    fn take(&mut self, word: &[u8], kind: WordKind, is_before: bool) {
        if word.is_empty() {
            return;
        }
        match kind {
            WordKind::Polarity => self.is_marked = true,
            WordKind::Direction(direction) => self.direction = direction,
            WordKind::Bus => self.bus = with_word(self.bus, word),
            WordKind::Filler => {}
            WordKind::Word if is_before => self.before = with_word(self.before, word),
            WordKind::Word => self.after = with_word(self.after, word),
        }
    }

    /// The affix of a style, without a direction and a mark of polarity.
    pub(crate) fn of_style(before: u64, after: u64, bus: u64) -> Affix {
        Affix {
            before,
            after,
            bus,
            direction: Direction::Unknown,
            is_marked: false,
        }
    }

    /// Whether two affixes are of one style.
    pub(crate) fn is_same_style(&self, other: &Affix) -> bool {
        self.before == other.before && self.after == other.after && self.bus == other.bus
    }

    /// How well this affix fits `style`: less is better. It is `None` where the affix doesn't fit.
    pub(crate) fn rank_in(&self, style: &Affix) -> Option<u32> {
        let before = rank_of(self.before, style.before)?;
        let after = rank_of(self.after, style.after)?;
        let bus = if self.bus == style.bus { 0 } else { 2 };
        Some(before.saturating_add(after).saturating_add(bus))
    }
}

/// 0 for the same words, 4 for no words, and else `None`.
fn rank_of(words: u64, style: u64) -> Option<u32> {
    if words == style {
        Some(0)
    } else if words == EMPTY_HASH {
        Some(4)
    } else {
        None
    }
}
