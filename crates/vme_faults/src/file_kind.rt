//! What kind of file some bytes are, by the first of them.

ghost use Rattle.std.specs.Prelude.{◌≡◌, false};
ghost use Rattle.vme_faults.specs.Files.{after_comments, begins_with, file_help, file_kind, file_name, is_big_utf16};
ghost use Rattle.vme_faults.specs.Files.{is_binding, is_dump, is_little_utf16, is_text, unmarked};

use vcd_read::is_space;

/// A kind of file.
#[derive(Clone, Copy, Debug, PartialEq, Eq)]
pub enum FileKind {
    /// No bytes.
    Empty,
    /// A waveform in the format of GTKWave.
    Fst,
    /// Compressed by gzip.
    Gzip,
    /// Compressed by xz.
    Xz,
    /// Compressed by zstd.
    Zstd,
    /// Compressed by bzip2.
    Bzip2,
    /// A text that begins with the byte order mark of UTF-8.
    MarkedUtf8,
    /// A text in UTF-16 that begins with a byte order mark.
    MarkedUtf16,
    /// A text in UTF-16, the low byte first, without a mark.
    LittleUtf16,
    /// A text in UTF-16, the high byte first, without a mark.
    BigUtf16,
    /// A listing, as `vmecheck list` writes it.
    Listing,
    /// A binding.
    Binding,
    /// A value change dump, a plain one.
    Dump,
}

impl FileKind {
    /// The kind of file that these bytes are, if they show it.
    #[tactic(auto, unfolding(crate::specs::Files::file_kind))]
    pub fn of(bytes: &[u8]) -> Option<FileKind>
        ensures { result ≡ file_kind bytes.now }
    {
        if bytes.is_empty() {
            Some(FileKind::Empty)
        } else if begins_with(bytes, &[0, 0, 0, 0, 0, 0, 0, 1, 73]) {
            Some(FileKind::Fst)
        } else if begins_with(bytes, &[0x1F, 0x8B]) {
            Some(FileKind::Gzip)
        } else if begins_with(bytes, &[0xFD, b'7', b'z', b'X', b'Z', 0]) {
            Some(FileKind::Xz)
        } else if begins_with(bytes, &[0x28, 0xB5, 0x2F, 0xFD]) {
            Some(FileKind::Zstd)
        } else if begins_with(bytes, b"BZh") {
            Some(FileKind::Bzip2)
        } else if begins_with(bytes, &[0xEF, 0xBB, 0xBF]) {
            Some(FileKind::MarkedUtf8)
        } else if begins_with(bytes, &[0xFF, 0xFE]) || begins_with(bytes, &[0xFE, 0xFF]) {
            Some(FileKind::MarkedUtf16)
        } else if begins_with(bytes, b"vmecheck listing ") {
            Some(FileKind::Listing)
        } else {
            unmarked(bytes)
        }
    }

    /// What such a file is.
    pub fn name(self) -> &'static str
        ensures { result.now ≡ file_name self }
    {
        match self {
            FileKind::Empty => "an empty file",
            FileKind::Fst => "an FST, a waveform in the format of GTKWave",
            FileKind::Gzip => "a file that gzip compressed",
            FileKind::Xz => "a file that xz compressed",
            FileKind::Zstd => "a file that zstd compressed",
            FileKind::Bzip2 => "a file that bzip2 compressed",
            FileKind::MarkedUtf8 => "a text with a byte order mark before it",
            FileKind::MarkedUtf16 => "a text in UTF-16",
            FileKind::LittleUtf16 => "a text in UTF-16, the low byte first and without a mark",
            FileKind::BigUtf16 => "a text in UTF-16, the high byte first and without a mark",
            FileKind::Listing => "a listing of vmecheck",
            FileKind::Binding => "a binding",
            FileKind::Dump => "a dump",
        }
    }

    /// What helps where such a file is given in place of another.
    pub fn help(self) -> &'static str
        ensures { result.now ≡ file_help self }
    {
        match self {
            FileKind::Empty => "look whether what was to write it did",
            FileKind::Fst =>
                "`fst2vcd bus.fst > bus.vcd`, which comes with GTKWave, makes a plain dump of it",
            FileKind::Gzip => "`zcat bus.vcd.gz > bus.vcd` makes a plain dump of it",
            FileKind::Xz => "`xzcat bus.vcd.xz > bus.vcd` makes a plain dump of it",
            FileKind::Zstd => "`zstdcat bus.vcd.zst > bus.vcd` makes a plain dump of it",
            FileKind::Bzip2 => "`bzcat bus.vcd.bz2 > bus.vcd` makes a plain dump of it",
            FileKind::MarkedUtf8 => "`tail -c +4 marked.vcd > bus.vcd` takes the mark off",
            FileKind::MarkedUtf16 => "`iconv -f UTF-16 -t UTF-8 wide.vcd > bus.vcd` makes it plain",
            FileKind::LittleUtf16 =>
                "`iconv -f UTF-16LE -t UTF-8 wide.vcd > bus.vcd` makes it plain",
            FileKind::BigUtf16 => "`iconv -f UTF-16BE -t UTF-8 wide.vcd > bus.vcd` makes it plain",
            FileKind::Listing => "give the binding first, then the dump, and then the listing",
            FileKind::Binding => "give the binding first and then the dump",
            FileKind::Dump => "give the binding first and then the dump",
        }
    }
}

/// The kind of a file that begins with no magic number, no byte order mark and no header of a listing.
#[tactic(auto, unfolding(crate::specs::Files::unmarked))]
fn unmarked(bytes: &[u8]) -> Option<FileKind>
    ensures { result ≡ unmarked bytes.now }
{
    if is_big_utf16(bytes) {
        Some(FileKind::BigUtf16)
    } else if is_little_utf16(bytes) {
        Some(FileKind::LittleUtf16)
    } else if is_dump(bytes) {
        Some(FileKind::Dump)
    } else if is_binding(bytes) {
        Some(FileKind::Binding)
    } else {
        None
    }
}

/// Whether `bytes` begin with `magic`.
#[tactic(auto, unfolding(crate::specs::Files::begins_with))]
fn begins_with(bytes: &[u8], magic: &[u8]) -> bool
    ensures { result ≡ begins_with magic.now bytes.now }
{
    bytes.starts_with(magic)
}

/// Whether the first byte is 0, and the second one of a text.
#[tactic(auto, unfolding(crate::specs::Files::is_big_utf16))]
fn is_big_utf16(bytes: &[u8]) -> bool
    ensures { result ≡ is_big_utf16 bytes.now }
{
    match bytes {
        [high, low, ..] => *high == 0 && is_text(*low),
        _ => false,
    }
}

/// Whether the second byte is 0, and the first one of a text.
#[tactic(auto, unfolding(crate::specs::Files::is_little_utf16))]
fn is_little_utf16(bytes: &[u8]) -> bool
    ensures { result ≡ is_little_utf16 bytes.now }
{
    match bytes {
        [low, high, ..] => is_text(*low) && *high == 0,
        _ => false,
    }
}

/// Whether a byte is one of a text in ASCII.
fn is_text(byte: u8) -> bool
    ensures { result ≡ is_text byte }
{
    9 <= byte && byte <= 126
}

/// Whether the first word that isn't in a comment begins with a dollar sign.
#[tactic(auto, unfolding(crate::specs::Files::is_dump))]
fn is_dump(bytes: &[u8]) -> bool
    ensures { result ≡ is_dump bytes.now }
{
    begins_with(after_comments(bytes), b"$")
}

/// Whether the first word that isn't in a comment begins with `slots`.
#[tactic(auto, unfolding(crate::specs::Files::is_binding))]
fn is_binding(bytes: &[u8]) -> bool
    ensures { result ≡ is_binding bytes.now }
{
    begins_with(after_comments(bytes), b"slots")
}

/// The text from its first word on that isn't in a comment, i.e. a line that begins with `#`.
#[tactic(auto, unfolding(crate::specs::Files::after_comments))]
fn after_comments(text: &[u8]) -> &[u8]
    ensures { result.now ≡ after_comments false text.now }
{
    let mut rest = text;
    let mut is_within = false;
    while let [first, others @ ..] = rest {
        if is_within {
            is_within = *first != b'\n';
        } else if *first == b'#' {
            is_within = true;
        } else if !is_space(*first) {
            return rest;
        }
        rest = others;
    }
    rest
}
