//! The kinds of faults and refusals.

ghost use Rattle.std.specs.Prelude.{◌≡◌, IfSome, Some, find};
ghost use Rattle.vme_faults.specs.RefusalKinds.{all_kinds, is_kind_name, kind_name, kind_named};

/// A kind of refusal: of a dump, of a binding, of a listing, or of any input, in this order.
#[derive(Clone, Copy, Debug, PartialEq, Eq)]
pub enum RefusalKind {
    /// A token of the dump isn't allowed where it is.
    BadToken,
    /// A section, a change or a bracket that the dump ends in.
    UnfinishedSection,
    /// A `$var` section that declares no variable.
    BadVar,
    /// An `$upscope` where no scope is open.
    ScopeUnderflow,
    /// The dump ends before its `$enddefinitions`.
    NoEndDefinitions,
    /// A change of a code that no variable has.
    UndeclaredCode,
    /// A code is declared again with another size.
    SizeConflict,
    /// A change of more digits than its variable has bits.
    TooWide,
    /// A time before the one that came last.
    TimeBackwards,
    /// A size over 65,536 bits, or a time past 18,446,744,073,709,551,615.
    NumberTooLarge,
    /// The first line of the binding that says something isn't `slots N`.
    SlotsFirst,
    /// A line of the binding isn't `NAME = SOURCE`.
    BadLine,
    /// A name that no line of the backplane has, and no group.
    UnknownName,
    /// A line of the backplane that is bound already.
    NamedTwice,
    /// The line of the backplane with the least number that isn't bound.
    Unbound,
    /// The dump has no variable of this path, or none with these bits.
    NoSuchPath,
    /// The dump has several variables of this path, and they aren't the same bits.
    AmbiguousPath,
    /// The variable has more bits than the lines, or fewer.
    WrongWidth,
    /// Over 268,435,456 instants at which a bound line changes.
    TooManySteps,
    /// The first line of the listing isn't that of a listing.
    BadHeader,
    /// A row of the listing isn't written as a row is, or isn't allowed where it is.
    BadRow,
    /// A row of the listing isn't after the preceding one in the order of rows.
    Unsorted,
    /// The file of an input can't be opened.
    CannotOpen,
    /// An input can't be read.
    CannotRead,
    /// An input has over 268,435,456 bytes.
    TooLong,
    /// Over 4,096 blocks of the size that was asked for.
    TooManyBlocks,
    /// Memory ran out, or none is given.
    OutOfMemory,
}

/// How many kinds there are.
const KIND_COUNT: usize = 27;

impl RefusalKind {
    /// All kinds.
    pub const ALL: [RefusalKind; KIND_COUNT] = [
        RefusalKind::BadToken,
        RefusalKind::UnfinishedSection,
        RefusalKind::BadVar,
        RefusalKind::ScopeUnderflow,
        RefusalKind::NoEndDefinitions,
        RefusalKind::UndeclaredCode,
        RefusalKind::SizeConflict,
        RefusalKind::TooWide,
        RefusalKind::TimeBackwards,
        RefusalKind::NumberTooLarge,
        RefusalKind::SlotsFirst,
        RefusalKind::BadLine,
        RefusalKind::UnknownName,
        RefusalKind::NamedTwice,
        RefusalKind::Unbound,
        RefusalKind::NoSuchPath,
        RefusalKind::AmbiguousPath,
        RefusalKind::WrongWidth,
        RefusalKind::TooManySteps,
        RefusalKind::BadHeader,
        RefusalKind::BadRow,
        RefusalKind::Unsorted,
        RefusalKind::CannotOpen,
        RefusalKind::CannotRead,
        RefusalKind::TooLong,
        RefusalKind::TooManyBlocks,
        RefusalKind::OutOfMemory,
    ];

    /// The name of the kind, as a refusal has it.
    pub fn name(self) -> &'static str
        ensures { result.now ≡ kind_name self }
    {
        match self {
            RefusalKind::BadToken => "BadToken",
            RefusalKind::UnfinishedSection => "UnfinishedSection",
            RefusalKind::BadVar => "BadVar",
            RefusalKind::ScopeUnderflow => "ScopeUnderflow",
            RefusalKind::NoEndDefinitions => "NoEndDefinitions",
            RefusalKind::UndeclaredCode => "UndeclaredCode",
            RefusalKind::SizeConflict => "SizeConflict",
            RefusalKind::TooWide => "TooWide",
            RefusalKind::TimeBackwards => "TimeBackwards",
            RefusalKind::NumberTooLarge => "NumberTooLarge",
            RefusalKind::SlotsFirst => "SlotsFirst",
            RefusalKind::BadLine => "BadLine",
            RefusalKind::UnknownName => "UnknownName",
            RefusalKind::NamedTwice => "NamedTwice",
            RefusalKind::Unbound => "Unbound",
            RefusalKind::NoSuchPath => "NoSuchPath",
            RefusalKind::AmbiguousPath => "AmbiguousPath",
            RefusalKind::WrongWidth => "WrongWidth",
            RefusalKind::TooManySteps => "TooManySteps",
            RefusalKind::BadHeader => "listing header",
            RefusalKind::BadRow => "BadRow",
            RefusalKind::Unsorted => "Unsorted",
            RefusalKind::CannotOpen => "cannot open",
            RefusalKind::CannotRead => "cannot read",
            RefusalKind::TooLong => "too long",
            RefusalKind::TooManyBlocks => "too many blocks",
            RefusalKind::OutOfMemory => "out of memory",
        }
    }

    /// The kind with this name, if there is one. Different kinds have different names.
    pub fn from_name(name: &[u8]) -> Option<RefusalKind>
        ensures kind { result ≡ kind_named name.now }
        ensures named { IfSome result (λ kind. kind_name kind ≡ name.now) }
        ensures found { (kind : RefusalKind) → kind_name kind ≡ name.now → result ≡ Some kind }
    {
        first_named(&RefusalKind::ALL, name)
    }
}

/// The first of these kinds with the name `name`.
fn first_named(kinds: &[RefusalKind], name: &[u8]) -> Option<RefusalKind>
    ensures { result ≡ find (is_kind_name name.now) kinds.now }
{
    kinds
        .iter()
        .copied()
        .find(|kind| kind.name().as_bytes() == name)
}
