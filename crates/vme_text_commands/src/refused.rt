//! What is written after the line of a refusal: the line of the input that it names, with the token marked where the
//! line shows which it is, what kind of file the input is where another was expected, and the page of the refusal's
//! kind.

ghost use Rattle.std.specs.Prelude.{◌++◌, IfOk, List, ℕ};
ghost use Rattle.vme_stream.specs.Texts.{line_of, refusal_text};
ghost use Rattle.vme_text_commands.specs.Refused.{IsRefusalPage, IsRefusedText};
ghost use Rattle.vme_stream.specs.Outputs.{TriesToWrite};

use crate::fault_context::FaultContext;
use crate::suggestions::{FaultySource, push_nearest, push_widths};
use std::alloc::{AllocError, Global};
use vcd_read::{FaultKind, Variable, VcdFault};
use vme_bind::BindFaultKind;
use vme_faults::{FileKind, RefusalKind, push_page};
use vme_stream::{Refusal, complain, refusal_line, say};
use vme_text::{Text, push_escaped};
use vme_trace::Sink;

/// How many columns a line of an excerpt has, at most.
const COLUMNS: usize = 100;

/// How many columns of an input's line are shown before the marked token, and how many of that token, at most.
const SIDE: usize = 40;

/// An input: the name of its file, and its bytes.
#[derive(Clone, Copy)]
pub(crate) struct NamedInput<'a> {
    name: &'a [u8],
    bytes: &'a [u8],
}

impl<'a> NamedInput<'a> {
    /// An input with this name and these bytes.
    pub(crate) fn new(name: &'a [u8], bytes: &'a [u8]) -> NamedInput<'a> {
        NamedInput { name, bytes }
    }
}

/// Where a token is in a line: the place of its first byte, and the place after its last.
#[derive(Clone, Copy)]
struct WordRange {
    start: usize,
    end: usize,
}

/// Writes the line of a refusal, then the excerpt `shown` of the inputs, and the page of the refusal's kind. If memory
/// runs out, it writes the line alone.
pub(crate) fn complain_with<E: Sink>(alloc: Global, err: &mut E, refusal: &Refusal, shown: &Text)
    ensures { (more : List ℕ) × IsRefusalPage refusal.now more
        × TriesToWrite (E.writing err.old) (E.writing err.new) (line_of (refusal_text refusal.now) ++ more) }
{
    match refused_text(alloc, refusal, shown) {
        Ok(text) => say(err, text.as_bytes()),
        Err(_) => complain(err, refusal_line(refusal)),
    }
}

/// The line of a refusal, the excerpt `shown` of the inputs, and the page of its kind.
fn refused_text(alloc: Global, refusal: &Refusal, shown: &Text) -> Result<Text, AllocError>
    ensures { IfOk result (IsRefusedText refusal.now) }
{
    let mut text = Text::new(alloc);
    text.push(refusal_line(refusal).as_bytes())?;
    text.push(shown.as_bytes())?;
    push_page(&mut text, RefusalKind::of(refusal))?;
    Ok(text)
}

/// Appends an excerpt of a dump where it is refused. If memory runs out, the excerpt is cut off.
pub(crate) fn show_dump(shown: &mut Text, alloc: Global, refusal: &Refusal, dump: NamedInput<'_>) {
    if let Refusal::BadDump(fault) = refusal {
        let line = line_at(dump.bytes, fault.line);
        let _ = push_dump(
            shown,
            alloc,
            dump.name,
            FileKind::of(dump.bytes),
            *fault,
            line,
        );
    }
}

/// Appends an excerpt of a dump that was read piece by piece, where it is refused.
pub(crate) fn show_fault_context(
    shown: &mut Text,
    alloc: Global,
    refusal: &Refusal,
    name: &[u8],
    context: &FaultContext,
) {
    if let Refusal::BadDump(fault) = refusal {
        let _ = push_dump(shown, alloc, name, context.kind(), *fault, context.line());
    }
}

/// Appends an excerpt of a binding where it is refused. If memory runs out, the excerpt is cut off.
pub(crate) fn show_binding(
    shown: &mut Text,
    alloc: Global,
    refusal: &Refusal,
    binding: NamedInput<'_>,
) {
    if let Refusal::BadBinding(fault) = refusal {
        let line = line_at(binding.bytes, fault.line);
        let span = match fault.kind {
            BindFaultKind::NoSuchPath | BindFaultKind::AmbiguousPath | BindFaultKind::WrongWidth =>
                { word_at(line, 2) }
            BindFaultKind::BadLine => bad_word_in(line),
            BindFaultKind::Unbound(_) => next_word(line, line.len()),
            _ => word_at(line, 0),
        };
        let _ = push_binding(shown, alloc, binding, fault.line, line, span);
    }
}

/// Appends what a dump has instead of what a binding asks for. If memory runs out, the text is cut off.
pub(crate) fn show_suggestions(
    shown: &mut Text,
    alloc: Global,
    refusal: &Refusal,
    binding: &[u8],
    slots: u8,
    variables: &[Variable],
) {
    if let Refusal::BadBinding(fault) = refusal {
        let line = line_at(binding, fault.line);
        let faulty = FaultySource {
            name: token_of(line, word_at(line, 0)),
            source: token_of(line, word_at(line, 2)),
            slots,
        };
        let _ = match fault.kind {
            BindFaultKind::NoSuchPath => push_nearest(shown, alloc, faulty, variables),
            BindFaultKind::WrongWidth => push_widths(shown, alloc, faulty, variables),
            _ => Ok(()),
        };
    }
}

/// Appends the line of a dump at which it is refused, and a hint. The token at fault is marked, if the line shows which
/// it is.
fn push_dump(
    shown: &mut Text,
    alloc: Global,
    name: &[u8],
    kind: Option<FileKind>,
    fault: VcdFault,
    line: &[u8],
) -> Result<(), AllocError> {
    push_place(shown, alloc, name, fault.line)?;
    match token_at_fault(line, fault.kind, kind) {
        Some(span) => {
            push_marked(shown, alloc, line, span)?;
            if let Some(FileKind::Dump) = kind {
                push_hint(shown, fault.kind, line, span)?;
            }
        }
        None => push_unmarked(shown, alloc, line)?,
    }
    match kind {
        Some(FileKind::Dump) | None => Ok(()),
        Some(kind) => push_file(shown, alloc, name, kind),
    }
}

/// Appends the line of a binding at which it is refused, with the token marked.
fn push_binding(
    shown: &mut Text,
    alloc: Global,
    binding: NamedInput<'_>,
    number: u64,
    line: &[u8],
    span: WordRange,
) -> Result<(), AllocError> {
    if number > 0 {
        push_place(shown, alloc, binding.name, number)?;
        push_marked(shown, alloc, line, span)?;
    }
    match FileKind::of(binding.bytes) {
        Some(FileKind::Binding) | None => Ok(()),
        Some(kind) => push_file(shown, alloc, binding.name, kind),
    }
}

/// Appends the name of a file and the number of a line.
fn push_place(shown: &mut Text, alloc: Global, name: &[u8], number: u64) -> Result<(), AllocError> {
    push_escaped(shown, alloc, name)?;
    shown.push(b", line ")?;
    shown.push_decimal(alloc, number)?;
    shown.push(b":\n")
}

/// Appends what kind of file an input is, and what helps.
fn push_file(
    shown: &mut Text,
    alloc: Global,
    name: &[u8],
    kind: FileKind,
) -> Result<(), AllocError> {
    push_escaped(shown, alloc, name)?;
    shown.push(b" is ")?;
    shown.push(kind.name().as_bytes())?;
    shown.push(b":\n")?;
    shown.push(kind.help().as_bytes())?;
    shown.push(b"\n")
}

/// Appends a hint, if the token of a dump that is at fault shows more than its kind of fault.
fn push_hint(
    shown: &mut Text,
    fault: FaultKind,
    line: &[u8],
    span: WordRange,
) -> Result<(), AllocError> {
    let hint: &'static str = match fault {
        FaultKind::BadToken => bad_token_hint(token_of(line, span)),
        FaultKind::BadVar => bad_var_hint(token_of(line, next_word(line, span.end))),
        _ => "",
    };
    shown.push(hint.as_bytes())
}

/// The hint for a token that may not stand where it stands, or nothing.
fn bad_token_hint(token: &[u8]) -> &'static str {
    match token {
        b"$date" | b"$version" | b"$scope" | b"$timescale" | b"$var" | b"$upscope" => {
            "a second header begins here: two dumps stand in one file\n"
        }
        [b'$', ..] if token.starts_with(b"$dumpports") =>
            "a section of extended VCD: record with `$dumpvars` and not with `$dumpports`\n",
        [b'$', ..] => "",
        [b'p', ..] =>
            "a change of extended VCD: record with `$dumpvars` and not with `$dumpports`\n",
        [b'b' | b'B', digits @ ..] if digits.iter().any(|digit| is_of_nine(*digit)) => NINE_STATES,
        [first, ..] if is_of_nine(*first) => NINE_STATES,
        _ => "",
    }
}

/// The hint for a declaration that is none, by the type that it gives to its variable, or nothing.
fn bad_var_hint(type_word: &[u8]) -> &'static str {
    match type_word {
        b"port" => "a port of extended VCD: record with `$dumpvars` and not with `$dumpports`\n",
        _ => "",
    }
}

/// The hint for a letter of the nine states of std_logic.
const NINE_STATES: &str = "\
a letter of nine states, of which a dump has four: record with `ghdl -r bench --vcd=bus.vcd\n\
--vcd-4states`, or signals that `to_X01Z` converted\n";

/// Whether a byte is a state of std_logic that four states lack.
fn is_of_nine(byte: u8) -> bool {
    matches!(
        byte,
        b'U' | b'W' | b'L' | b'H' | b'-' | b'u' | b'w' | b'l' | b'h'
    )
}

/// Whether a byte separates tokens.
fn is_blank(byte: u8) -> bool {
    matches!(byte, b' ' | b'\t' | b'\r')
}

/// The line with this number in a text, from 1, without its line feed.
fn line_at(bytes: &[u8], number: u64) -> &[u8] {
    let mut at: u64 = 1;
    for line in bytes.split(|byte| *byte == b'\n') {
        if at == number {
            return match line {
                [front @ .., b'\r'] => front,
                _ => line,
            };
        }
        at = at.saturating_add(1);
    }
    b""
}

/// The first word of a line from the place `from` on. If there is none, the empty range at the end of the line.
fn next_word(line: &[u8], from: usize) -> WordRange {
    let rest = line.get(from..).unwrap_or(b"");
    let blanks = place_in(rest, false);
    let word = rest.get(blanks..).unwrap_or(b"");
    let start = from.saturating_add(blanks);
    WordRange {
        start,
        end: start.saturating_add(place_in(word, true)),
    }
}

/// The place of the first byte that is a blank, if `of_blank`, or else of the first that isn't; the length, if there is
/// none.
fn place_in(bytes: &[u8], of_blank: bool) -> usize {
    match bytes.iter().position(|byte| is_blank(*byte) == of_blank) {
        Some(at) => at,
        None => bytes.len(),
    }
}

/// The word with the index `place` in a line, from 0, or the last one.
fn word_at(line: &[u8], place: u8) -> WordRange {
    let mut span = next_word(line, 0);
    for _ in 0..place {
        let next = next_word(line, span.end);
        if next.start < line.len() {
            span = next;
        }
    }
    span
}

/// The word of a binding's line that is at fault: the second, unless it is an equals sign, else the fourth or the last
/// one.
fn bad_word_in(line: &[u8]) -> WordRange {
    let second = word_at(line, 1);
    if token_of(line, second) != b"=".as_slice() {
        second
    } else {
        word_at(line, 3)
    }
}

/// The token that a fault is at, in the line of the fault and a file of this kind, or the end of the line, if the text
/// ends before its `$enddefinitions`. `None` if the line alone doesn't show which token it is. What is no dump is
/// refused at its first token.
fn token_at_fault(line: &[u8], fault: FaultKind, file: Option<FileKind>) -> Option<WordRange> {
    match fault {
        FaultKind::NoEndDefinitions => Some(next_word(line, line.len())),
        FaultKind::BadToken => match file {
            Some(FileKind::Dump) => bad_token_in(line),
            _ => Some(word_at(line, 0)),
        },
        _ => only_token_at_fault(line, fault),
    }
}

/// The token of a dump's line that may not stand there: the first that no body may have, or else the one that opens or
/// closes a dump section. `None` if it may be another: the line has another such border before the token, or it goes on
/// behind a section, which may have begun before the line. A line that begins with a time or a change is taken as one
/// of the body.
fn bad_token_in(line: &[u8]) -> Option<WordRange> {
    if goes_on_after_end(line) {
        return None;
    }
    let mut border: Option<WordRange> = None;
    let mut is_code = false;
    let mut span = next_word(line, 0);
    for _ in 0..line.len() {
        let token = token_of(line, span);
        if token.is_empty() || (!is_code && token == b"$comment".as_slice()) {
            return border;
        }
        if !is_code && !may_stand(token) {
            return if border.is_some() { None } else { Some(span) };
        }
        if !is_code && token.starts_with(b"$") {
            if border.is_some() {
                return if token == b"$end".as_slice() {
                    border
                } else {
                    None
                };
            }
            border = Some(span);
        }
        is_code = !is_code && (is_vector(token) || is_skipped(token));
        span = next_word(line, span.end);
    }
    border
}

/// Whether a line has a token behind an `$end`.
fn goes_on_after_end(line: &[u8]) -> bool {
    let mut is_after_end = false;
    let mut span = next_word(line, 0);
    for _ in 0..line.len() {
        let token = token_of(line, span);
        if token.is_empty() {
            return false;
        }
        if is_after_end {
            return true;
        }
        is_after_end = token == b"$end".as_slice();
        span = next_word(line, span.end);
    }
    false
}

/// The only token of a dump's line that a fault of this kind may be at. `None` if there are several, or none.
fn only_token_at_fault(line: &[u8], kind: FaultKind) -> Option<WordRange> {
    let mut found: Option<WordRange> = None;
    let mut span = next_word(line, 0);
    for _ in 0..line.len() {
        let token = token_of(line, span);
        if token.is_empty() {
            return found;
        }
        if may_have(token, kind) {
            if found.is_some() {
                return None;
            }
            found = Some(span);
        }
        span = next_word(line, span.end);
    }
    found
}

/// Whether a fault of this kind may be at a token, judged by the token alone, though it may be a code or a word of a
/// section.
fn may_have(token: &[u8], kind: FaultKind) -> bool {
    match kind {
        FaultKind::BadVar | FaultKind::SizeConflict => token == b"$var".as_slice(),
        FaultKind::ScopeUnderflow => token == b"$upscope".as_slice(),
        FaultKind::NumberTooLarge => is_time(token) || token == b"$var".as_slice(),
        FaultKind::TimeBackwards => is_time(token),
        FaultKind::UndeclaredCode => is_change(token),
        FaultKind::TooWide => is_change(token) && !is_skipped(token),
        FaultKind::UnfinishedSection => opens_section(token)
            || is_vector(token)
            || is_skipped(token),
        _ => false,
    }
}

/// Whether a token begins a section.
fn opens_section(token: &[u8]) -> bool {
    token.starts_with(b"$") && token != b"$end".as_slice()
}

/// Whether a token may be a time.
fn is_time(token: &[u8]) -> bool {
    token.starts_with(b"#") && may_stand(token)
}

/// Whether a token may be a change, or the first token of one.
fn is_change(token: &[u8]) -> bool {
    !token.starts_with(b"#") && !token.starts_with(b"$") && may_stand(token)
}

/// Whether a token may be the digits of a vector, which its code follows.
fn is_vector(token: &[u8]) -> bool {
    matches!(token, [b'b' | b'B', ..]) && may_stand(token)
}

/// Whether a token may be a real number or a string, which its code follows.
fn is_skipped(token: &[u8]) -> bool {
    matches!(token, [b'r' | b'R' | b's', ..])
}

/// Whether a token may be in the body of a dump, judged by how it begins.
fn may_stand(token: &[u8]) -> bool {
    match token {
        [b'#', digits @ ..] => !digits.is_empty()
            && digits.iter().all(|digit| digit.is_ascii_digit()),
        [b'b' | b'B', digits @ ..] => {
            !digits.is_empty()
                && digits.iter().all(|digit| matches!(
                    digit,
                    b'0' | b'1' | b'x' | b'X' | b'z' | b'Z'
                ))
        }
        [b'0' | b'1' | b'x' | b'X' | b'z' | b'Z', code @ ..] => !code.is_empty(),
        [b'r' | b'R' | b's', ..] => true,
        b"$comment" | b"$dumpvars" | b"$dumpall" | b"$dumpon" | b"$dumpoff" | b"$end" => true,
        _ => false,
    }
}

/// The bytes of a token.
fn token_of(line: &[u8], span: WordRange) -> &[u8] {
    line.get(span.start..span.end).unwrap_or(b"")
}

/// How many columns a byte is shown in.
fn columns(byte: u8) -> usize {
    if 0x20 <= byte && byte <= 0x7E { 1 } else { 4 }
}

/// How many of the first bytes fit into `room` columns.
fn fitting(bytes: &[u8], room: usize) -> usize {
    let mut used: usize = 0;
    for (at, byte) in bytes.iter().enumerate() {
        used = used.saturating_add(columns(*byte));
        if used > room {
            return at;
        }
    }
    bytes.len()
}

/// The place from which on the last bytes fit into `room` columns.
fn fitting_end(bytes: &[u8], room: usize) -> usize {
    let mut used: usize = 0;
    for (at, byte) in bytes.iter().rev().enumerate() {
        used = used.saturating_add(columns(*byte));
        if used > room {
            return bytes.len().saturating_sub(at);
        }
    }
    0
}

/// Appends a line of an input, cut to the columns that there are, with no token marked.
fn push_unmarked(shown: &mut Text, alloc: Global, line: &[u8]) -> Result<(), AllocError> {
    let kept = fitting(line, COLUMNS.saturating_sub(8));
    shown.push(b"    ")?;
    push_escaped(shown, alloc, line.get(..kept).unwrap_or(b""))?;
    if kept < line.len() {
        shown.push(b" ..")?;
    }
    shown.push(b"\n")
}

/// Appends a line of an input, cut to the columns that there are, with a token of it marked below.
fn push_marked(
    shown: &mut Text,
    alloc: Global,
    line: &[u8],
    span: WordRange,
) -> Result<(), AllocError> {
    let front = line.get(..span.start).unwrap_or(b"");
    let token = token_of(line, span);
    if token.is_empty() {
        return shown.push(b"    the text ends here\n");
    }
    let rest = line.get(span.end..).unwrap_or(b"");
    let mut quoted = Text::new(alloc);
    let from = fitting_end(front, SIDE);
    if from > 0 {
        quoted.push(b".. ")?;
    }
    push_escaped(&mut quoted, alloc, front.get(from..).unwrap_or(b""))?;
    let before = quoted.as_bytes().len();
    push_escaped(
        &mut quoted,
        alloc,
        token.get(..fitting(token, SIDE)).unwrap_or(b""),
    )?;
    let marked = quoted.as_bytes().len().saturating_sub(before).max(1);
    if fitting(token, SIDE) < token.len() {
        quoted.push(b" ..")?;
    } else {
        let room = COLUMNS
            .saturating_sub(quoted.as_bytes().len())
            .saturating_sub(8);
        let kept = fitting(rest, room);
        push_escaped(&mut quoted, alloc, rest.get(..kept).unwrap_or(b""))?;
        if kept < rest.len() {
            quoted.push(b" ..")?;
        }
    }
    shown.push(b"    ")?;
    shown.push(quoted.as_bytes())?;
    shown.push(b"\n    ")?;
    shown.push_spaces(before)?;
    for _ in 0..marked {
        shown.push(b"^")?;
    }
    shown.push(b"\n")
}
