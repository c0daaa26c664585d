//! The page of each kind of fault or refusal, and how it is written.

ghost use Rattle.std.specs.Prelude.{◌≡◌, ◌++◌, IfOk, OnOk, flat_map};
ghost use Rattle.vme_faults.specs.Pages.{causes_of, expected_of, means_of, page_text, pages_of, remedy_of, row, rows};

use crate::refusal_kind::RefusalKind;
use std::alloc::{AllocError, Global};
use vme_text::Text;

/// The page of a kind.
#[derive(Clone, Copy, Debug)]
pub struct Page {
    /// The kind.
    pub kind: RefusalKind,
    /// What it means.
    pub means: &'static str,
    /// What was expected there.
    pub expected: &'static str,
    /// What usually causes it.
    pub causes: &'static str,
    /// What helps.
    pub remedy: &'static str,
}

const BAD_TOKEN: Page = Page {
    kind: RefusalKind::BadToken,
    means: "a token of the dump may not stand where it stands",
    expected: "in the header a section, as `$var wire 1 ! AS $end`; behind `$enddefinitions` a time\n    \
     (`#100`), a change (`0!`, `x!`, `b01z !`), `$dumpvars`, `$dumpall`, `$dumpon`, `$dumpoff` or\n    \
     `$comment`, each up to its `$end`",
    causes: "in line 1 no plain dump: an FST, an LXT or a compressed file, UTF-16, a byte order mark,\n    \
     or a binding in the dump's place; a letter such as U, W, L, H or - in a value: nine states; a\n    \
     change such as `pD`: extended VCD; a `b` with a space before its digits; `$date`, `$version` or\n    \
     `$scope` behind changes: two dumps in one file; in the last line: the dump ends in the middle",
    remedy: "`fst2vcd bus.fst > bus.vcd`, `zcat bus.vcd.gz > bus.vcd`, `iconv -f UTF-16 -t UTF-8`, or\n    \
     `tail -c +4` for a mark of three bytes, make it plain; GHDL writes four states by\n    \
     `--vcd-4states`; record with `$dumpvars` and not with `$dumpports`; cut two dumps apart; give\n    \
     the binding first and then the dump",
};

const UNFINISHED_SECTION: Page = Page {
    kind: RefusalKind::UnfinishedSection,
    means: "a section, a change or a bracket that the dump ends in",
    expected: "the `$end` of that section, or the code of that change",
    causes: "the simulation was killed, or the disk was full, so the dump ends in the middle; in the\n    \
     header a section without its `$end`",
    remedy: "record again, or cut the dump before its last line that begins with #",
};

const BAD_VAR: Page = Page {
    kind: RefusalKind::BadVar,
    means: "a declaration that is none",
    expected: "`$var`, a type, a size in digits, a code of visible characters, a name and `$end`",
    causes: "a vector of extended VCD, by `$dumpports`; a header that was edited by hand",
    remedy: "record with `$dumpvars`",
};

const SCOPE_UNDERFLOW: Page = Page {
    kind: RefusalKind::ScopeUnderflow,
    means: "an `$upscope` where no scope is open",
    expected: "a `$scope` for each `$upscope`, before it",
    causes: "two headers were joined; a header that was edited by hand",
    remedy: "take each dump with its own header alone",
};

const NO_END_DEFINITIONS: Page = Page {
    kind: RefusalKind::NoEndDefinitions,
    means: "the dump ends before its `$enddefinitions`",
    expected: "a header up to `$enddefinitions $end`, and changes behind it",
    causes: "an empty dump, or one whose simulation ended before `$dumpvars`",
    remedy: "call `$dumpfile` and `$dumpvars` at the start of the simulation, and look whether it ended\n    \
     as it should",
};

const UNDECLARED_CODE: Page = Page {
    kind: RefusalKind::UndeclaredCode,
    means: "a change of a code that no variable has",
    expected: "the code of a variable of the header",
    causes: "a header that belongs to another run; two headers that were joined; a string with a space\n    \
     in it, behind `s`",
    remedy: "record again, in one run, to a file of its own",
};

const SIZE_CONFLICT: Page = Page {
    kind: RefusalKind::SizeConflict,
    means: "a code is declared again with another size",
    expected: "one size for each code",
    causes: "a header that belongs to another run; two headers that were joined",
    remedy: "record again, in one run, to a file of its own",
};

const TOO_WIDE: Page = Page {
    kind: RefusalKind::TooWide,
    means: "a change of more digits than its variable has bits",
    expected: "at most as many digits as the header declares bits",
    causes: "a header that belongs to another run; two headers that were joined; a writer that pads\n    \
     its vectors to more digits than they are declared with",
    remedy: "record again, in one run, to a file of its own; declare the vector as wide as it is\n    \
     written",
};

const TIME_BACKWARDS: Page = Page {
    kind: RefusalKind::TimeBackwards,
    means: "a time before the one that came last",
    expected: "times that never go back",
    causes: "the changes of two runs in one file, such as two that wrote to the same name at once",
    remedy: "record each run to a file of its own",
};

const NUMBER_TOO_LARGE: Page = Page {
    kind: RefusalKind::NumberTooLarge,
    means: "a size over 65,536 bits, or a time past 18,446,744,073,709,551,615",
    expected: "a smaller number",
    causes: "a variable of over 65,536 bits, such as a memory",
    remedy: "leave its scope out of the dump: `$dumpvars(1, backplane)`",
};

const SLOTS_FIRST: Page = Page {
    kind: RefusalKind::SlotsFirst,
    means: "the first line of the binding that says something isn't `slots N`",
    expected: "`slots N`, N from 1 to 21 without leading zeros",
    causes: "binding and dump in the wrong order; an empty file, as `bind` leaves where it is refused\n    \
     or can't run; a `slots` line that is missing or stands further down",
    remedy: "give the binding first and then the dump; `vmecheck bind bus.vcd > bus.bind` writes a\n    \
     binding",
};

const BAD_LINE: Page = Page {
    kind: RefusalKind::BadLine,
    means: "a line of the binding isn't `NAME = SOURCE`",
    expected: "three words with spaces between them: a line or a group, `=`, and a path, `0`, `1` or\n    \
     `x`",
    causes: "a comment behind a source; a path with a space in it; no space beside `=`; a second\n    \
     `slots` line",
    remedy: "let a comment begin with # and stand on a line of its own; write a vector such as `AM\n    \
     [5:0]` without the space",
};

const UNKNOWN_NAME: Page = Page {
    kind: RefusalKind::UnknownName,
    means: "a name that no line of the backplane has, and no group",
    expected: "AS, DS0, DS1, DTACK, BERR, IACK, AM0 to AM5, A01 to A31, D00 to D31, LWORD, WRITE, BBSY,\n    \
     BR0 to BR3, SYSRESET, of N slots BG0.0 to BG3.N and IA.1 to IA.N, or a group: AM, A, D, BR, BG0\n    \
     to BG3, IA",
    causes: "a net beyond the slots, such as BG3.4 of three slots; A00; a mark at the name, such as\n    \
     `AS*`; small letters",
    remedy: "write the name as it stands here, or more `slots`",
};

const NAMED_TWICE: Page = Page {
    kind: RefusalKind::NamedTwice,
    means: "a line of the backplane that is bound before",
    expected: "each line once",
    causes: "a line by itself and in its group, such as AM0 and AM",
    remedy: "leave one of the two out",
};

const UNBOUND: Page = Page {
    kind: RefusalKind::Unbound,
    means: "a line of the backplane that isn't bound, the least one",
    expected: "a source for each line; the data lines may be left out together, and so may SYSRESET",
    causes: "a line that wasn't recorded; a binding that was made for fewer slots",
    remedy: "bind it to what it shows, 1 for a line that nobody drives: the list of lines that weren't\n    \
     recorded says what that does",
};

const NO_SUCH_PATH: Page = Page {
    kind: RefusalKind::NoSuchPath,
    means: "the dump has no variable of this path, or none with these bits",
    expected: "the scopes and the name of a variable, joined by dots, and bits that its index has",
    causes: "another case of letters; a scope left out, such as `TOP.`; an index that isn't the\n    \
     variable's, or one that runs the other way, or of a variable that has none; a binding of another\n    \
     dump",
    remedy: "`vmecheck variables bus.vcd` shows the paths; `vmecheck bind bus.vcd` looks for the lines",
};

const AMBIGUOUS_PATH: Page = Page {
    kind: RefusalKind::AmbiguousPath,
    means: "the dump has several variables of this path, and they aren't the same bits",
    expected: "a path that means one variable",
    causes: "two variables of one path; nets such as `AM [5]` and `AM [4]`, bound without the index",
    remedy: "bind the one that is meant in another scope; bind each net by its index, as `AM5 =\n    \
     bench.AM[5]`",
};

const WRONG_WIDTH: Page = Page {
    kind: RefusalKind::WrongWidth,
    means: "the variable has more bits than the lines, or fewer",
    expected: "one bit for a line; 6 for AM, 31 for A, 32 for D, 4 for BR, N + 1 for BG0 to BG3 and N\n    \
     for IA of N slots",
    causes: "A of 32 bits; BGn or IA of another number of slots",
    remedy: "select the bits, as `A = bench.addr[31:1]`, or bind the lines one by one",
};

const TOO_MANY_STEPS: Page = Page {
    kind: RefusalKind::TooManySteps,
    means: "over 268,435,456 instants at which a bound line changes",
    expected: "a shorter recording",
    causes: "a long simulation; a clock that is bound as a line",
    remedy: "`audit` takes it; for the other commands cut the dump",
};

const BAD_HEADER: Page = Page {
    kind: RefusalKind::BadHeader,
    means: "the first line of the listing isn't that of a listing",
    expected: "`vmecheck listing 3`, or 2 or 1",
    causes: "another file; other line ends; a listing of a later version",
    remedy: "`vmecheck list bus.bind bus.vcd > bus.list` writes a listing",
};

const BAD_ROW: Page = Page {
    kind: RefusalKind::BadRow,
    means: "a row of the listing isn't written as a row is, or may not stand there",
    expected: "a row as `list` writes it, with one space between its words",
    causes: "a listing that was edited by hand, has other line ends, or ends in the middle",
    remedy: "`vmecheck list bus.bind bus.vcd > bus.list` writes a listing",
};

const UNSORTED: Page = Page {
    kind: RefusalKind::Unsorted,
    means: "a row of the listing isn't behind the one before it",
    expected: "rows in the order of their first instants",
    causes: "a listing that was sorted or edited by hand",
    remedy: "`vmecheck list bus.bind bus.vcd > bus.list` writes a listing",
};

const CANNOT_OPEN: Page = Page {
    kind: RefusalKind::CannotOpen,
    means: "the file of an input can't be opened",
    expected: "the name of a file that may be read",
    causes: "a name that is misspelt; another folder; a file that this user may not read",
    remedy: "`ls -l` of that name shows whether it is there, and who may read it",
};

const CANNOT_READ: Page = Page {
    kind: RefusalKind::CannotRead,
    means: "the bytes of an input can't be had",
    expected: "a file, or a pipe that ends",
    causes: "a folder in the file's place; a disk or a network that fails; a pipe that gives a few\n    \
     bytes at once, 16,777,216 times",
    remedy: "copy the file to a disk of this machine",
};

const TOO_LONG: Page = Page {
    kind: RefusalKind::TooLong,
    means: "an input has over 268,435,456 bytes, or a listing over 137,438,953,472",
    expected: "a shorter input",
    causes: "a long simulation; a dump of the whole design",
    remedy: "`audit` takes dumps of any length; for the other commands record the backplane's scope\n    \
     alone, `$dumpvars(1, backplane)`, or cut the dump",
};

const TOO_MANY_BLOCKS: Page = Page {
    kind: RefusalKind::TooManyBlocks,
    means: "over 4,096 blocks of the size that was asked",
    expected: "a greater block",
    causes: "a small `--block` of a long recording",
    remedy: "leave `--block` out, or make it 65536",
};

const OUT_OF_MEMORY: Page = Page {
    kind: RefusalKind::OutOfMemory,
    means: "there is no memory, or none is given",
    expected: "memory for the inputs and for the steps of the recording",
    causes: "a limit, as by `ulimit -v` or of a container; a long recording",
    remedy: "give more of it, or take `audit`, which keeps neither a dump nor its steps",
};

impl Page {
    /// The page of a kind.
    pub fn of(kind: RefusalKind) -> Page
        ensures kind { result.kind ≡ kind }
        ensures means { result.means.now ≡ means_of kind }
        ensures expected { result.expected.now ≡ expected_of kind }
        ensures causes { result.causes.now ≡ causes_of kind }
        ensures remedy { result.remedy.now ≡ remedy_of kind }
    {
        let page: &'static Page = match kind {
            RefusalKind::BadToken => &BAD_TOKEN,
            RefusalKind::UnfinishedSection => &UNFINISHED_SECTION,
            RefusalKind::BadVar => &BAD_VAR,
            RefusalKind::ScopeUnderflow => &SCOPE_UNDERFLOW,
            RefusalKind::NoEndDefinitions => &NO_END_DEFINITIONS,
            RefusalKind::UndeclaredCode => &UNDECLARED_CODE,
            RefusalKind::SizeConflict => &SIZE_CONFLICT,
            RefusalKind::TooWide => &TOO_WIDE,
            RefusalKind::TimeBackwards => &TIME_BACKWARDS,
            RefusalKind::NumberTooLarge => &NUMBER_TOO_LARGE,
            RefusalKind::SlotsFirst => &SLOTS_FIRST,
            RefusalKind::BadLine => &BAD_LINE,
            RefusalKind::UnknownName => &UNKNOWN_NAME,
            RefusalKind::NamedTwice => &NAMED_TWICE,
            RefusalKind::Unbound => &UNBOUND,
            RefusalKind::NoSuchPath => &NO_SUCH_PATH,
            RefusalKind::AmbiguousPath => &AMBIGUOUS_PATH,
            RefusalKind::WrongWidth => &WRONG_WIDTH,
            RefusalKind::TooManySteps => &TOO_MANY_STEPS,
            RefusalKind::BadHeader => &BAD_HEADER,
            RefusalKind::BadRow => &BAD_ROW,
            RefusalKind::Unsorted => &UNSORTED,
            RefusalKind::CannotOpen => &CANNOT_OPEN,
            RefusalKind::CannotRead => &CANNOT_READ,
            RefusalKind::TooLong => &TOO_LONG,
            RefusalKind::TooManyBlocks => &TOO_MANY_BLOCKS,
            RefusalKind::OutOfMemory => &OUT_OF_MEMORY,
        };
        *page
    }
}

/// Appends the page of a kind, four lines: its name and what it means, what was expected, what usually causes it, and
/// the remedy. If memory runs out, the page is cut off.
pub fn push_page(text: &mut Text, kind: RefusalKind) -> Result<(), AllocError>
    ensures { OnOk result (text.new ≡ text.old ++ page_text kind) }
{
    let page = Page::of(kind);
    push_rows(
        text,
        kind.name().as_bytes(),
        page.means.as_bytes(),
        page.expected.as_bytes(),
        page.causes.as_bytes(),
        page.remedy.as_bytes(),
    )
}

/// Appends the four lines of a page.
fn push_rows(
    text: &mut Text,
    name: &[u8],
    means: &[u8],
    expected: &[u8],
    causes: &[u8],
    remedy: &[u8],
) -> Result<(), AllocError>
    ensures { OnOk result (text.new ≡ text.old ++ rows name.now means.now expected.now causes.now remedy.now) }
{
    push_row(text, name, means)?;
    push_row(text, b"  expected", expected)?;
    push_row(text, b"  usually", causes)?;
    push_row(text, b"  remedy", remedy)
}

/// Appends a name, a colon and its value.
fn push_row(text: &mut Text, name: &[u8], value: &[u8]) -> Result<(), AllocError>
    ensures { OnOk result (text.new ≡ text.old ++ row name.now value.now) }
{
    text.push(name)?;
    text.push(b": ")?;
    text.push(value)?;
    text.push(b"\n")
}

/// Appends the pages of these kinds.
fn push_pages(text: &mut Text, kinds: &[RefusalKind]) -> Result<(), AllocError>
    ensures { OnOk result (text.new ≡ text.old ++ flat_map page_text kinds.now) }
{
    for kind in kinds {
        push_page(text, *kind)?;
    }
    Ok(())
}

/// The page of a kind, or that of each kind, in their order. It fails if memory runs out.
pub fn faults_text(alloc: Global, only: Option<RefusalKind>) -> Result<Text, AllocError>
    ensures { IfOk result (λ text. text ≡ pages_of only) }
{
    let mut text = Text::new(alloc);
    match only {
        Some(kind) => push_page(&mut text, kind)?,
        None => push_pages(&mut text, &RefusalKind::ALL)?,
    }
    Ok(text)
}
