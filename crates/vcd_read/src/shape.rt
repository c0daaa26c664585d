//! What a token of the body is.

ghost use Rattle.std.specs.Prelude.{◌≡◌};
ghost use Rattle.std.specs.List.{list_all};
ghost use Rattle.vcd_read.specs.Header.{is_end};
ghost use Rattle.vcd_read.specs.Numbers.{is_bit};
ghost use Rattle.vcd_read.specs.Body.{shape_of, keyword_shape, are_bits, opens_dump_section};
ghost use Rattle.vcd_read.specs.Shapes.{found_shape};

/// What a token of the body is, or begins.
#[derive(Clone, Copy)]
pub(crate) enum Shape<'a> {
    /// A time, by the digits after its `#`.
    Time(&'a [u8]),
    /// A scalar change: its digit and its code.
    Scalar(&'a [u8], &'a [u8]),
    /// The digits of a vector change, whose code is the next token.
    Vector(&'a [u8]),
    /// A real number or a string, whose code is the next token.
    Foreign,
    /// The first token of a `$comment`.
    Comment,
    /// `$dumpvars` and the like, which open a dump section.
    Opens,
    /// `$end`.
    Ends,
    /// No token of the format.
    Unknown,
}

/// What a token of the body is, or begins.
#[inline(always)]
pub(crate) fn shape_of(token: &[u8]) -> Shape<'_>
    ensures { found_shape result ≡ shape_of token.now }
{
    if token.is_empty() {
        return Shape::Unknown;
    }
    let rest = &token[1..];
    match token[0] {
        b'#' => Shape::Time(rest),
        b'0' | b'1' | b'x' | b'X' | b'z' | b'Z' => {
            if rest.is_empty() {
                return Shape::Unknown;
            }
            Shape::Scalar(&token[..1], rest)
        }
        b'b' | b'B' => {
            if !are_bits(rest) {
                return Shape::Unknown;
            }
            Shape::Vector(rest)
        }
        b'r' | b'R' | b's' => Shape::Foreign,
        b'$' => keyword_shape(token),
        _ => Shape::Unknown,
    }
}

/// What a token is that begins with a dollar sign.
fn keyword_shape(word: &[u8]) -> Shape<'_>
    ensures { found_shape result ≡ keyword_shape word.now }
{
    if is_end(word) {
        Shape::Ends
    } else if opens_dump_section(word) {
        Shape::Opens
    } else if word == b"$comment".as_slice() {
        Shape::Comment
    } else {
        Shape::Unknown
    }
}

/// Whether a token is `$end`.
pub fn is_end(word: &[u8]) -> bool
    ensures { result ≡ is_end word.now }
{
    word == b"$end".as_slice()
}

/// Whether a token opens a dump section.
fn opens_dump_section(word: &[u8]) -> bool
    ensures { result ≡ opens_dump_section word.now }
{
    word == b"$dumpvars".as_slice()
        || word == b"$dumpall".as_slice()
        || word == b"$dumpon".as_slice()
        || word == b"$dumpoff".as_slice()
}

/// Whether `digits` is one or more digits of a vector.
pub fn are_bits(digits: &[u8]) -> bool
    ensures { result ≡ are_bits digits.now }
{
    !digits.is_empty() && all_bits(digits)
}

/// Whether each digit is 0, 1, x or z.
fn all_bits(digits: &[u8]) -> bool
    ensures { result ≡ list_all is_bit digits.now }
{
    digits.iter().all(|digit| is_bit(*digit))
}

/// Whether `digit` is a digit of a value. Nearly all are 0 or 1, so these are tested first.
pub(crate) fn is_bit(digit: u8) -> bool
    ensures { result ≡ is_bit digit }
{
    if b'0' <= digit && digit <= b'1' {
        return true;
    }
    matches!(digit, b'x' | b'X' | b'z' | b'Z')
}
