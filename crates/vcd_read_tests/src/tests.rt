use std::alloc::{AllocError, Global};
use vcd_read::{
    Bit, BodyReader, ChangeVisitor, DetachedPiece, Dump, FaultKind, Front, Instant, Stopped,
    Variable, Variables, VcdFault, line_feeds, read_front, read_vcd,
};

/// What a dump says, a line for each variable and each instant.
fn show_dump(alloc: Global, text: &mut Vec<u8>, dump: &Dump) -> Result<(), AllocError> {
    show_variables(alloc, text, dump.variables())?;
    show_instants(alloc, text, dump.instants())
}

fn show_instants(
    alloc: Global,
    text: &mut Vec<u8>,
    instants: &[Instant],
) -> Result<(), AllocError> {
    for instant in instants {
        show_time(alloc, text, instant.time)?;
        for value in instant.values.as_slice() {
            show_net(alloc, text, value.net)?;
            show_bits(text, value.bits.as_slice())?;
        }
        text.push(b'\n')?;
    }
    Ok(())
}

fn show_time(alloc: Global, text: &mut Vec<u8>, time: u64) -> Result<(), AllocError> {
    text.extend_from_slice(format!(in alloc; "#{time}")?.as_bytes())?;
    Ok(())
}

fn show_net(alloc: Global, text: &mut Vec<u8>, net: u32) -> Result<(), AllocError> {
    text.extend_from_slice(format!(in alloc; " {net}=")?.as_bytes())?;
    Ok(())
}

fn show_index(
    alloc: Global,
    text: &mut Vec<u8>,
    index: Option<(u32, u32)>,
) -> Result<(), AllocError> {
    if let Some((left, right)) = index {
        text.extend_from_slice(format!(in alloc; "[{left}:{right}]")?.as_bytes())?;
    }
    Ok(())
}

fn show_size_and_net(
    alloc: Global,
    text: &mut Vec<u8>,
    size: u32,
    net: u32,
) -> Result<(), AllocError> {
    text.extend_from_slice(format!(in alloc; " {size} {net}\n")?.as_bytes())?;
    Ok(())
}

fn show_variables(
    alloc: Global,
    text: &mut Vec<u8>,
    variables: &[Variable],
) -> Result<(), AllocError> {
    for variable in variables {
        text.extend_from_slice(variable.path.as_bytes())?;
        show_index(alloc, text, variable.index)?;
        show_size_and_net(alloc, text, variable.size, variable.net)?;
    }
    Ok(())
}

fn digit_of(bit: Bit) -> u8 {
    match bit {
        Bit::Zero => b'0',
        Bit::One => b'1',
        Bit::X => b'x',
        Bit::Z => b'z',
    }
}

fn show_bits(text: &mut Vec<u8>, bits: &[Bit]) -> Result<(), AllocError> {
    for bit in bits {
        text.push(digit_of(*bit))?;
    }
    Ok(())
}

/// What a visitor of a body is given.
#[derive(Drop)]
enum Visit {
    /// A net, and the bits that it changes to, as digits.
    Change(u32, Vec<u8>),
    /// The time of an instant that ends.
    End(u64),
}

/// A visitor that keeps all that it is given.
#[derive(Drop)]
struct Visits {
    visits: Vec<Visit>,
}

impl ChangeVisitor for Visits {
    ghost Taken = { Unit {0} };

    ghost taken = { λ v. tt };

    ghost with_change = { λ v net bits. v };

    ghost with_instant = { λ v time. v };

    fn change(
        &mut self,
        alloc: Global,
        net: u32,
        size: u32,
        digits: &[u8],
    ) -> Result<(), AllocError> {
        let bits = bits_of(alloc, size, digits)?;
        self.visits.push(Visit::Change(net, bits))?;
        Ok(())
    }

    fn end_instant(&mut self, alloc: Global, time: u64) -> Result<(), AllocError> {
        let _ = alloc;
        self.visits.push(Visit::End(time))?;
        Ok(())
    }
}

/// A visitor that has been given nothing yet.
fn no_visits(alloc: Global) -> Visits {
    Visits {
        visits: Vec::new(alloc),
    }
}

/// The digits of a value, extended on the left.
fn extend_bits(bits: &mut Vec<u8>, size: u32, digits: &[u8]) -> Result<(), AllocError> {
    let first = digits.first().copied().unwrap_or(b'x');
    let fill = if first == b'1' { b'0' } else { first };
    bits.resize((size as usize).saturating_sub(digits.len()), fill)?;
    bits.extend_from_slice(digits)?;
    bits.make_ascii_lowercase();
    Ok(())
}

fn bits_of(alloc: Global, size: u32, digits: &[u8]) -> Result<Vec<u8>, AllocError> {
    let mut bits = Vec::new(alloc);
    extend_bits(&mut bits, size, digits)?;
    Ok(bits)
}

/// The last bits that a net changes to.
fn last_bits(visits: &[Visit], net: u32) -> Option<&[u8]> {
    let mut last = None;
    for visit in visits {
        if let Visit::Change(changed, bits) = visit {
            if *changed == net {
                last = Some(bits.as_slice());
            }
        }
    }
    last
}

/// No net of these dumps has a greater number.
const LAST_NET: u32 = 9;

/// The nets that change, and the last bits of each.
fn show_changes(alloc: Global, text: &mut Vec<u8>, visits: &[Visit]) -> Result<(), AllocError> {
    for net in 0..LAST_NET + 1 {
        if let Some(bits) = last_bits(visits, net) {
            show_net(alloc, text, net)?;
            text.extend_from_slice(bits)?;
        }
    }
    Ok(())
}

/// The instants that end. The result is where the visits after these begin.
fn show_visits(alloc: Global, text: &mut Vec<u8>, visits: &[Visit]) -> Result<usize, AllocError> {
    let mut from = 0;
    for (at, visit) in visits.iter().enumerate() {
        if let Visit::End(time) = visit {
            show_time(alloc, text, *time)?;
            show_changes(alloc, text, visits.get(from..at).unwrap_or(&[]))?;
            text.push(b'\n')?;
            from = at + 1;
        }
    }
    Ok(from)
}

/// Where pieces of a text end that have at least `size` bytes, and end after a space.
fn ends_of(alloc: Global, text: &[u8], size: usize) -> Result<Vec<usize>, AllocError> {
    let mut ends = Vec::new(alloc);
    let mut from = 0;
    for (at, b) in text.iter().enumerate() {
        let long = (at + 1).saturating_sub(from) >= size;
        if long && matches!(*b, b' ' | b'\t' | b'\n' | b'\r') {
            ends.push(at + 1)?;
            from = at + 1;
        }
    }
    ends.push(text.len())?;
    Ok(ends)
}

/// Reads the next piece of a body.
fn read_piece(
    alloc: Global,
    pieces: BodyReader<Visits>,
    piece: &[u8],
) -> Result<BodyReader<Visits>, VcdFault> {
    pieces.read(alloc, piece)
}

/// Reads what `front` has of the body.
fn body_begun(
    alloc: Global,
    front: Front<'_>,
    variables: Variables,
) -> Result<(BodyReader<Visits>, Variables), VcdFault> {
    let (pieces, rest) = front.before_body(no_visits(alloc));
    Ok((read_piece(alloc, pieces, rest)?, variables))
}

/// Reads a text up to the end of its prefix `front`. `None` if its definitions don't end in `front`.
fn begun(alloc: Global, front: &[u8]) -> Result<Option<(BodyReader<Visits>, Variables)>, VcdFault> {
    match read_front(alloc, front, Variables::new(alloc))? {
        Some((front, variables)) => Ok(Some(body_begun(alloc, front, variables)?)),
        None => Ok(None),
    }
}

/// Reads a text from `begin` on, in pieces that end at `ends`. `Err` is where reading stops.
fn read_on(
    alloc: Global,
    pieces: BodyReader<Visits>,
    text: &[u8],
    begin: usize,
    ends: &[usize],
) -> Result<Visits, Stopped<Visits>> {
    let mut pieces = pieces;
    let mut from = begin;
    for end in ends {
        let piece = text.get(from..*end).unwrap_or(&[]);
        pieces = match pieces.read_until_fault(alloc, piece) {
            Ok(pieces) => pieces,
            Err(stopped) => return Err(stopped),
        };
        from = *end;
    }
    pieces.finish_or_stop(alloc)
}

/// What a dump says, by its variables and the visits of its body.
fn show_told(
    alloc: Global,
    text: &mut Vec<u8>,
    variables: &[Variable],
    visits: &[Visit],
) -> Result<(), AllocError> {
    show_variables(alloc, text, variables)?;
    show_visits(alloc, text, visits)?;
    Ok(())
}

/// Reads the rest of a body that was begun, in pieces with the ends `ends`: whether the whole says `wanted`. `Err` is
/// the fault that reading gives.
fn body_says(
    alloc: Global,
    begun: (BodyReader<Visits>, Variables),
    text: &[u8],
    begin: usize,
    ends: &[usize],
    wanted: &str,
) -> Result<bool, VcdFault> {
    let (pieces, variables) = begun;
    let told = match read_on(alloc, pieces, text, begin, ends) {
        Ok(told) => told,
        Err(stopped) => return Err(stopped.fault),
    };
    let mut found = Vec::new(alloc);
    show_told(
        alloc,
        &mut found,
        variables.as_slice(),
        told.visits.as_slice(),
    )?;
    Ok(found.as_slice() == wanted.as_bytes())
}

/// Reads a text in pieces with the ends `ends`: whether it says `wanted`. `Ok(None)` if its definitions don't end.
/// `Err` is the fault that reading gives.
fn says_in_pieces(
    alloc: Global,
    text: &[u8],
    ends: &[usize],
    wanted: &str,
) -> Result<Option<bool>, VcdFault> {
    for (count, end) in ends.iter().enumerate() {
        if let Some(begun) = begun(alloc, text.get(..*end).unwrap_or(text))? {
            let behind = ends.get(count + 1..).unwrap_or(&[]);
            return Ok(Some(body_says(alloc, begun, text, *end, behind, wanted)?));
        }
    }
    Ok(None)
}

/// Reads a text in pieces of at least `size` bytes: whether it says `wanted`. `Ok(None)` if its definitions don't end.
/// `Err` is the fault that reading gives.
fn says_by_pieces(
    alloc: Global,
    text: &[u8],
    size: usize,
    wanted: &str,
) -> Result<Option<bool>, VcdFault> {
    let ends = ends_of(alloc, text, size)?;
    says_in_pieces(alloc, text, &ends, wanted)
}

/// Where a text may be cut before a time at the beginning of a line.
fn times_of(alloc: Global, text: &[u8]) -> Result<Vec<usize>, AllocError> {
    let mut ends = Vec::new(alloc);
    for (at, b) in text.iter().enumerate() {
        if *b == b'#' && at > 0 && text.get(at - 1) == Some(&b'\n') {
            ends.push(at)?;
        }
    }
    ends.push(text.len())?;
    Ok(ends)
}

/// The visits of `earlier` and `later`, and the end of an instant between them.
fn visits_together(
    earlier: Visits,
    ended: Option<u64>,
    later: Visits,
) -> Result<Visits, AllocError> {
    let mut visits = earlier.visits;
    if let Some(time) = ended {
        visits.push(Visit::End(time))?;
    }
    for visit in later.visits {
        visits.push(visit)?;
    }
    Ok(Visits { visits })
}

/// Puts the earlier visits before those of a piece that was joined.
fn with_earlier(
    alloc: Global,
    pieces: BodyReader<Visits>,
    earlier: Visits,
    ended: Option<u64>,
) -> Result<BodyReader<Visits>, AllocError> {
    let (pieces, later) = pieces.with_visitor(no_visits(alloc));
    let (pieces, _) = pieces.with_visitor(visits_together(earlier, ended, later)?);
    Ok(pieces)
}

/// A body that is read in pieces, and how many of them were joined.
#[derive(Drop)]
struct Joined {
    pieces: BodyReader<Visits>,
    count: usize,
}

/// Adds the next piece, which was read by itself: it is joined if it fits, and else read again, in order.
fn join_or_read(
    alloc: Global,
    pieces: BodyReader<Visits>,
    piece: &[u8],
    detached: DetachedPiece<Visits>,
) -> Result<Joined, VcdFault> {
    if !pieces.may_join(&detached) {
        return read_in_order(alloc, pieces, piece);
    }
    let ended = pieces.ended_by(&detached);
    let (pieces, earlier) = pieces.join(detached);
    Ok(Joined {
        pieces: with_earlier(alloc, pieces, earlier, ended)?,
        count: 1,
    })
}

fn read_in_order(
    alloc: Global,
    pieces: BodyReader<Visits>,
    piece: &[u8],
) -> Result<Joined, VcdFault> {
    Ok(Joined {
        pieces: read_piece(alloc, pieces, piece)?,
        count: 0,
    })
}

/// The visits of a body, and how many of its pieces are joined: each is read by itself, by `origin`, and joined if it
/// fits.
fn read_and_join(
    alloc: Global,
    origin: &BodyReader<Visits>,
    pieces: BodyReader<Visits>,
    body: &[u8],
    ends: &[usize],
) -> Result<(Visits, usize), VcdFault> {
    let mut so_far = Joined { pieces, count: 0 };
    let mut from = 0;
    let mut line = origin.line();
    for end in ends {
        let piece = body.get(from..*end).unwrap_or(&[]);
        let count = so_far.count;
        so_far = match origin.detached(alloc, piece, line, no_visits(alloc)) {
            Some(detached) => join_or_read(alloc, so_far.pieces, piece, detached)?,
            None => read_in_order(alloc, so_far.pieces, piece)?,
        };
        so_far.count = so_far.count.saturating_add(count);
        line = line.saturating_add(line_feeds(piece));
        from = *end;
    }
    Ok((so_far.pieces.finish(alloc)?, so_far.count))
}

/// The sizes of pieces that are tried.
static SIZES: [usize; 6] = [1, 2, 5, 13, 40, 64];

/// The definitions of a recording of six lines of the bus, but for their end.
const BUS: &str = "\
$timescale 1 ns $end
$scope module bus $end
$var wire 1 p AS $end
$var wire 1 q DS0 $end
$var wire 1 r DS1 $end
$var wire 1 s DTACK $end
$var wire 1 t BERR $end
$var wire 1 u IACK $end
$upscope $end
";

/// The rest of the recording.
const BUS_BODY: &str = "\
$enddefinitions $end
#0 1p 1q 1r 1s 1t 1u
#10 0p
#20 0q
#30 0s
#40 1p 1q
#50 1s
";

/// What the recording says.
const BUS_SHOWN: &str = "\
bus.AS 1 0
bus.DS0 1 1
bus.DS1 1 2
bus.DTACK 1 3
bus.BERR 1 4
bus.IACK 1 5
#0 0=1 1=1 2=1 3=1 4=1 5=1
#10 0=0
#20 1=0
#30 3=0
#40 0=1 1=1
#50 3=1
";

/// Six variables with codes of one to five bytes, and a seventh with a code that another has.
const CODES: &str = "\
$var wire 1 ! a $end $var reg 8 \" b $end $var wire 1 !! c $end $var wire 1 ~~~ d $end
$var wire 65536 !!!! e $end $var wire 1 clock f $end $var wire 8 \" g $end $enddefinitions $end
";

/// The first part and the rest of texts, and what they say.
static DUMPS: [(&str, &str, &str); 7] = [
    (BUS, BUS_BODY, BUS_SHOWN),
    (
        "",
        "$var wire 6 p P $end $enddefinitions $end\n\
        #0 b1x p #1 bx1 p #2 bz p #3 b1 p #4 0p #5 xp #6 B01Xz p",
        "P 6 0\n#0 0=00001x\n#1 0=xxxxx1\n#2 0=zzzzzz\n#3 0=000001\n#4 0=000000\n#5 0=xxxxxx\n#6 0=0001xz\n",
    ),
    (
        "",
        "$var reg 20 ! D [19:0] $end $enddefinitions $end #3 b10000000000000000001 ! 1! bx1 !",
        "D[19:0] 20 0\n#3 0=xxxxxxxxxxxxxxxxxxx1\n",
    ),
    (
        "",
        "$comment $scope $end $date today $end\n\
        $scope module rack $end $scope begin $end $var wire 4 a D [3:0] $end $upscope $end\n\
        $scope module slot 1 $end $var wire 4 a ALIAS [4:1] $end $var wire 1 b n [ 7 ] $end\n\
        $var integer 3 c B[3:0] $end $upscope $upscope $end $var real 0 d R $end $enddefinitions now $end\n\
        1b $comment a #5 $end $dumpvars b1 a 0b rnone c $end\n\
        $comment $end #7 #7 zb s c $dumpoff xb bx a $end 1b #9 #10 b0 c",
        "rack.D[3:0] 4 0\nrack.slot1.ALIAS[4:1] 4 0\nrack.slot1.n[7:7] 1 1\nrack.slot1.B[3:0] 3 2\nrack.R 0 3\n\
        #0 0=0001 1=0\n#7 0=xxxx 1=1\n#9\n#10 2=000\n",
    ),
    (
        CODES,
        "#0 1! b1 \" 0!! x~~~ zclock",
        "a 1 0\nb 8 1\nc 1 2\nd 1 3\ne 65536 4\nf 1 5\ng 8 1\n#0 0=1 1=00000001 2=0 3=x 5=z\n",
    ),
    (
        "",
        "$var wire 1 p AS $end $enddefinitions $end r1.5 p R p $dumpall s p $end #4",
        "AS 1 0\n#4\n",
    ),
    (
        "",
        "$var wire 3 p B[3:0] $end\n$enddefinitions $end\n",
        "B[3:0] 3 0\n",
    ),
];

/// Three texts, one after the other.
fn together(alloc: Global, first: &[u8], next: &[u8], last: &[u8]) -> Result<Vec<u8>, AllocError> {
    let mut text = Vec::new(alloc);
    put_together(&mut text, first, next, last)?;
    Ok(text)
}

fn put_together(
    text: &mut Vec<u8>,
    first: &[u8],
    next: &[u8],
    last: &[u8],
) -> Result<(), AllocError> {
    text.extend_from_slice(first)?;
    text.extend_from_slice(next)?;
    text.extend_from_slice(last)?;
    Ok(())
}

/// Whether a dump says `wanted`.
fn dump_says(alloc: Global, dump: &Dump, wanted: &str) -> bool {
    let mut found = Vec::new(alloc);
    show_dump(alloc, &mut found, dump).is_ok() && found.as_slice() == wanted.as_bytes()
}

/// Whether a text is a dump that says `wanted`.
fn says(alloc: Global, text: &[u8], wanted: &str) -> bool {
    match read_vcd(alloc, text) {
        Ok(dump) => dump_says(alloc, &dump, wanted),
        Err(_) => false,
    }
}

/// Whether a text is a dump that says `wanted`, also in pieces of each size that is tried.
fn says_always(alloc: Global, text: &[u8], wanted: &str) -> bool {
    let mut same = says(alloc, text, wanted);
    for size in SIZES.iter() {
        same &= says_by_pieces(alloc, text, *size, wanted) == Ok(Some(true));
    }
    same
}

/// Whether `front` and `rest` together are a dump that says `wanted`, also in pieces of each size that is tried.
fn are_read(alloc: Global, front: &str, rest: &str, wanted: &str) -> bool {
    match together(alloc, front.as_bytes(), rest.as_bytes(), b"") {
        Ok(text) => says_always(alloc, &text, wanted),
        Err(_) => false,
    }
}

#[test]
fn dumps(rt: HostRuntime) {
    for (front, rest, wanted) in DUMPS.iter() {
        assert!(rt; are_read(rt.alloc(), front, rest, wanted), "not {wanted}");
    }
}

/// One variable of one bit, in two lines.
const ONE_BIT: &str = "$var wire 1 p AS $end\n$enddefinitions $end\n";

/// A text that is put after another, and the line and kind of the first fault of both together.
type Faulty = (&'static str, u64, FaultKind);

/// Faults of bodies, after the definitions of one variable.
static BODY_FAULTS: [Faulty; 20] = [
    ("1q", 3, FaultKind::UndeclaredCode),
    ("b10 p", 3, FaultKind::TooWide),
    ("#5\n#4", 4, FaultKind::TimeBackwards),
    ("#18446744073709551616", 3, FaultKind::NumberTooLarge),
    ("2p", 3, FaultKind::BadToken),
    ("$dumpvars 1p", 3, FaultKind::UnfinishedSection),
    ("$comment x", 3, FaultKind::UnfinishedSection),
    ("b1", 3, FaultKind::UnfinishedSection),
    ("$end", 3, FaultKind::BadToken),
    ("$dumpvars $dumpall $end $end", 3, FaultKind::BadToken),
    ("$dumpvars\n1q", 4, FaultKind::UndeclaredCode),
    ("\n#5 b1\nq", 4, FaultKind::UndeclaredCode),
    ("r1.5\n\nq", 3, FaultKind::UndeclaredCode),
    ("b1 $end", 3, FaultKind::UndeclaredCode),
    ("b12", 3, FaultKind::BadToken),
    ("1", 3, FaultKind::BadToken),
    ("#", 3, FaultKind::BadToken),
    ("#1x", 3, FaultKind::BadToken),
    ("S p", 3, FaultKind::BadToken),
    ("$dumpflush", 3, FaultKind::BadToken),
];

/// Faults of headers.
static HEADER_FAULTS: [Faulty; 11] = [
    ("$upscope $end", 1, FaultKind::ScopeUnderflow),
    ("$var wire 1 p $end", 1, FaultKind::BadVar),
    ("$var wire 1 p AS $end\n", 2, FaultKind::NoEndDefinitions),
    (
        "$var wire 1 p AS $end\n$var wire 2 p B $end",
        2,
        FaultKind::SizeConflict,
    ),
    ("", 1, FaultKind::NoEndDefinitions),
    ("$var wire 65537 p A $end", 1, FaultKind::NumberTooLarge),
    (
        "$var wire 0 p A $end\n$enddefinitions $end\n0p",
        3,
        FaultKind::TooWide,
    ),
    ("$var wire one p A $end", 1, FaultKind::BadVar),
    ("$scope module a $end\n#0", 2, FaultKind::BadToken),
    ("\n\n$end", 3, FaultKind::BadToken),
    ("$date\n$var wire 1 p A", 1, FaultKind::UnfinishedSection),
];

/// Faults of texts after `BUS`.
static BUS_FAULTS: [Faulty; 2] = [
    ("$enddef", 10, FaultKind::UnfinishedSection),
    (
        "$enddefinitions $end\n#0 1p 1q 1r 1s 1t 1u\n#",
        12,
        FaultKind::BadToken,
    ),
];

/// Codes that aren't declared, after `CODES`.
static CODE_FAULTS: [Faulty; 5] = [
    ("#0 1#", 3, FaultKind::UndeclaredCode),
    ("#0 1!\"", 3, FaultKind::UndeclaredCode),
    ("#0 1!!!", 3, FaultKind::UndeclaredCode),
    ("#0 1!!!!!", 3, FaultKind::UndeclaredCode),
    ("#0 1\x7f", 3, FaultKind::UndeclaredCode),
];

/// Whether reading a text gives the fault of this line and kind.
fn has_fault(alloc: Global, text: &[u8], line: u64, kind: FaultKind) -> bool {
    match read_vcd(alloc, text) {
        Ok(_) => false,
        Err(fault) => fault == VcdFault { line, kind },
    }
}

/// Whether reading a text in pieces gives the fault of this line and kind. If the definitions don't end in the text, no
/// piece is read, and the kind has to say so.
fn has_fault_by_pieces(
    alloc: Global,
    text: &[u8],
    size: usize,
    line: u64,
    kind: FaultKind,
) -> bool {
    match says_by_pieces(alloc, text, size, "") {
        Ok(Some(_)) => false,
        Ok(None) => matches!(
            kind,
            FaultKind::NoEndDefinitions | FaultKind::UnfinishedSection
        ),
        Err(fault) => fault == VcdFault { line, kind },
    }
}

/// Whether reading a text gives the fault of this line and kind, also in pieces of the sizes `sizes`.
fn fails_with(alloc: Global, text: &[u8], sizes: &[usize], line: u64, kind: FaultKind) -> bool {
    let mut same = has_fault(alloc, text, line, kind);
    for size in sizes {
        same &= has_fault_by_pieces(alloc, text, *size, line, kind);
    }
    same
}

/// Whether a text after `front` has its fault, also in pieces of the sizes `sizes`.
fn fails_behind(alloc: Global, front: &str, faulty: &Faulty, sizes: &[usize]) -> bool {
    let (rest, line, kind) = *faulty;
    match together(alloc, front.as_bytes(), rest.as_bytes(), b"") {
        Ok(text) => fails_with(alloc, &text, sizes, line, kind),
        Err(_) => false,
    }
}

/// The first text that doesn't have its fault after `front`.
fn first_wrong(
    alloc: Global,
    front: &str,
    faults: &[Faulty],
    sizes: &[usize],
) -> Option<&'static str> {
    for faulty in faults {
        if !fails_behind(alloc, front, faulty, sizes) {
            return Some(faulty.0);
        }
    }
    None
}

#[test]
fn faults_of_bodies(rt: HostRuntime) {
    let wrong = first_wrong(rt.alloc(), ONE_BIT, &BODY_FAULTS, &SIZES);
    assert!(rt; wrong.is_none(), "{}", wrong.unwrap_or(""));
}

/// Where reading a text after its definitions stops, if it does, in pieces of at least `size` bytes.
fn stopped_behind(alloc: Global, front: Front<'_>, size: usize) -> Option<Stopped<Visits>> {
    let (pieces, body) = front.before_body(no_visits(alloc));
    match ends_of(alloc, body, size) {
        Ok(ends) => read_on(alloc, pieces, body, 0, &ends).err(),
        Err(_) => None,
    }
}

fn stopped_by_pieces(alloc: Global, text: &[u8], size: usize) -> Option<Stopped<Visits>> {
    match read_front(alloc, text, Variables::new(alloc)) {
        Ok(Some((front, _))) => stopped_behind(alloc, front, size),
        Ok(None) | Err(_) => None,
    }
}

/// A body, its first fault, and what stands before that.
#[derive(Clone, Copy)]
struct Stopping {
    body: &'static str,
    /// The line and the kind of the fault.
    line: u64,
    kind: FaultKind,
    /// The instants that end before the fault.
    instants: &'static str,
    /// How many nets change between those and the fault.
    changed: usize,
    /// The last time before the fault.
    last_time: u64,
}

/// Faults after the definitions of one variable.
static STOPS: [Stopping; 9] = [
    Stopping {
        body: "2p",
        line: 3,
        kind: FaultKind::BadToken,
        instants: "",
        changed: 0,
        last_time: 0,
    },
    Stopping {
        body: "1p 1q",
        line: 3,
        kind: FaultKind::UndeclaredCode,
        instants: "",
        changed: 1,
        last_time: 0,
    },
    Stopping {
        body: "#0 1p\n#10 0p\n#20 1p 1q\n#30 0p",
        line: 5,
        kind: FaultKind::UndeclaredCode,
        instants: "#0 0=1\n#10 0=0\n",
        changed: 1,
        last_time: 20,
    },
    Stopping {
        body: "#0 1p\n#10 0p\n#5 1p",
        line: 5,
        kind: FaultKind::TimeBackwards,
        instants: "#0 0=1\n",
        changed: 1,
        last_time: 10,
    },
    Stopping {
        body: "#0 1p\n#10 0p\n#20\n#20\n#30 b10 p",
        line: 7,
        kind: FaultKind::TooWide,
        instants: "#0 0=1\n#10 0=0\n#20\n",
        changed: 0,
        last_time: 30,
    },
    Stopping {
        body: "#0 1p #18446744073709551616",
        line: 3,
        kind: FaultKind::NumberTooLarge,
        instants: "",
        changed: 1,
        last_time: 0,
    },
    Stopping {
        body: "#0 1p\n#1 $dumpvars 0p",
        line: 4,
        kind: FaultKind::UnfinishedSection,
        instants: "#0 0=1\n",
        changed: 1,
        last_time: 1,
    },
    Stopping {
        body: "#0 1p\n#1 b1",
        line: 4,
        kind: FaultKind::UnfinishedSection,
        instants: "#0 0=1\n",
        changed: 0,
        last_time: 1,
    },
    Stopping {
        body: "#0 1p #1 $end",
        line: 3,
        kind: FaultKind::BadToken,
        instants: "#0 0=1\n",
        changed: 0,
        last_time: 1,
    },
];

/// Whether the instants that end in the visits are `told`, and `changed` nets change after them.
fn visits_tell(alloc: Global, visits: &[Visit], told: &str, changed: usize) -> bool {
    let mut found = Vec::new(alloc);
    match show_visits(alloc, &mut found, visits) {
        Ok(from) => {
            found.as_slice() == told.as_bytes()
                && nets_changed(visits.get(from..).unwrap_or(&[])) == changed
        }
        Err(_) => false,
    }
}

/// How many nets change.
fn nets_changed(visits: &[Visit]) -> usize {
    let mut count: usize = 0;
    for net in 0..LAST_NET + 1 {
        if last_bits(visits, net).is_some() {
            count = count.saturating_add(1);
        }
    }
    count
}

/// Whether reading the body stops as `stopping` says, in pieces of at least `size` bytes.
fn stops(alloc: Global, text: &[u8], size: usize, stopping: &Stopping) -> bool {
    let fault = VcdFault {
        line: stopping.line,
        kind: stopping.kind,
    };
    match stopped_by_pieces(alloc, text, size) {
        Some(stopped) => {
            stopped.fault == fault
                && stopped.time == stopping.last_time
                && visits_tell(
                    alloc,
                    stopped.visitor.visits.as_slice(),
                    stopping.instants,
                    stopping.changed,
                )
        }
        None => false,
    }
}

/// Whether reading a text stops as `stopping` says, in pieces of each size.
fn stops_always(alloc: Global, text: &[u8], stopping: &Stopping) -> bool {
    let mut same = true;
    for size in SIZES.iter() {
        same &= stops(alloc, text, *size, stopping);
    }
    same
}

/// Whether reading the body after the definitions of one variable stops as `stopping` says, in pieces of each size.
fn body_stops(alloc: Global, stopping: &Stopping) -> bool {
    match together(alloc, ONE_BIT.as_bytes(), stopping.body.as_bytes(), b"") {
        Ok(text) => stops_always(alloc, &text, stopping),
        Err(_) => false,
    }
}

#[test]
fn a_fault_comes_with_what_stands_before_it(rt: HostRuntime) {
    for stopping in STOPS.iter() {
        assert!(rt; body_stops(rt.alloc(), stopping), "{}", stopping.body);
    }
}

/// Pieces of a body, and the last time that was read after each.
static TIMES: [(&str, u64); 5] = [
    ("#10 0p\n", 10),
    ("1p\n", 10),
    ("#10 #20 \n", 20),
    ("$comment #30 \n", 20),
    ("$end #40\n", 40),
];

/// One variable of one bit, and a change.
const ONE_CHANGE: &str = "$var wire 1 p AS $end\n$enddefinitions $end\n1p\n";

/// The first piece after which another time is the last, or which isn't read.
fn first_wrong_time(alloc: Global, pieces: BodyReader<Visits>) -> Option<&'static str> {
    let mut pieces = pieces;
    for (piece, time) in TIMES.iter() {
        pieces = match read_piece(alloc, pieces, piece.as_bytes()) {
            Ok(pieces) => pieces,
            Err(_) => return Some(*piece),
        };
        if pieces.time() != *time {
            return Some(*piece);
        }
    }
    None
}

/// Whether the last time is 0 after the first change, and then the one given beside each piece.
fn are_times_known(alloc: Global) -> bool {
    match begun(alloc, ONE_CHANGE.as_bytes()) {
        Ok(Some((pieces, _))) => pieces.time() == 0 && first_wrong_time(alloc, pieces).is_none(),
        Ok(None) | Err(_) => false,
    }
}

/// The last time that was read is known between pieces.
#[test]
fn the_last_time_is_known_between_pieces(rt: HostRuntime) {
    assert!(rt; are_times_known(rt.alloc()));
}

#[test]
fn faults_of_headers(rt: HostRuntime) {
    let wrong = first_wrong(rt.alloc(), "", &HEADER_FAULTS, &SIZES);
    assert!(rt; wrong.is_none(), "{}", wrong.unwrap_or(""));
}

#[test]
fn faults_after_the_lines_of_the_bus(rt: HostRuntime) {
    let wrong = first_wrong(rt.alloc(), BUS, &BUS_FAULTS, &SIZES);
    assert!(rt; wrong.is_none(), "{}", wrong.unwrap_or(""));
}

#[test]
fn faults_of_codes(rt: HostRuntime) {
    let wrong = first_wrong(rt.alloc(), CODES, &CODE_FAULTS, &[13]);
    assert!(rt; wrong.is_none(), "{}", wrong.unwrap_or(""));
}

/// The digits of the longest vector that is tried.
const DIGITS: &str = "1x0zXZ1x0zXZ1x0zXZ1x0zXZ1x0zXZ1x0zXZ1x0z";

/// The digits of the longest time that is tried. Any 19 of them are below 2^64.
const TIME: &str = "2345678923456789234567892345678923456789";

/// The longest code that is tried.
const CODE: &str = "~~~~~~~~~~~~~~~~~~~~~~~~~~~~~~~~~~~~~~~~";

/// The first `length` bytes of a text.
fn first_bytes(text: &'static str, length: usize) -> &'static [u8] {
    text.as_bytes().get(..length).unwrap_or(b"")
}

/// Some spaces.
const SPACES: &str = "                ";

/// A byte that stands at a place of an item, in place of its own.
#[derive(Clone, Copy)]
struct OtherByte {
    place: usize,
    byte: u8,
}

/// The byte at `at` of an item: `own`, or `other` where that stands at this place.
fn byte_at(at: usize, own: u8, other: Option<OtherByte>) -> u8 {
    match other {
        Some(other) => { if at == other.place { other.byte } else { own } }
        None => own,
    }
}

/// Writes `item`, with its byte `other` if there is one, after the definitions `front` and `count` spaces, and `count`
/// spaces after it.
fn write_spaced(
    text: &mut Vec<u8>,
    front: &[u8],
    count: usize,
    item: &[u8],
    other: Option<OtherByte>,
) -> Result<(), AllocError> {
    text.extend_from_slice(front)?;
    text.extend_from_slice(first_bytes(SPACES, count))?;
    for (at, byte) in item.iter().enumerate() {
        text.push(byte_at(at, *byte, other))?;
    }
    text.extend_from_slice(first_bytes(SPACES, count))?;
    Ok(())
}

fn spaced(
    alloc: Global,
    front: &[u8],
    count: usize,
    item: &[u8],
    other: Option<OtherByte>,
) -> Result<Vec<u8>, AllocError> {
    let mut text = Vec::new(alloc);
    write_spaced(&mut text, front, count, item, other)?;
    Ok(text)
}

/// Whether the instants of a dump are `wanted`.
fn instants_say(alloc: Global, dump: &Dump, wanted: &[u8]) -> bool {
    let mut found = Vec::new(alloc);
    show_instants(alloc, &mut found, dump.instants()).is_ok() && found.as_slice() == wanted
}

/// Whether a text is a dump whose instants are `wanted`.
fn has_instants(alloc: Global, text: &[u8], wanted: &[u8]) -> bool {
    match read_vcd(alloc, text) {
        Ok(dump) => instants_say(alloc, &dump, wanted),
        Err(_) => false,
    }
}

/// Whether `item` after `front` and `count` spaces gives the instants `wanted`.
fn is_read_behind(alloc: Global, front: &[u8], count: usize, item: &[u8], wanted: &[u8]) -> bool {
    match spaced(alloc, front, count, item, None) {
        Ok(text) => has_instants(alloc, &text, wanted),
        Err(_) => false,
    }
}

/// Whether `item` gives the instants `wanted` after `front` and each count of spaces from 0 to 15.
fn is_read(alloc: Global, front: &[u8], item: &[u8], wanted: &[u8]) -> bool {
    let mut same = true;
    for count in 0..16 {
        same &= is_read_behind(alloc, front, count, item, wanted);
    }
    same
}

/// Whether an item with another byte at a place gives a fault of this kind after `count` spaces.
fn is_refused_at(
    alloc: Global,
    front: &[u8],
    count: usize,
    item: &[u8],
    other: Option<OtherByte>,
    kind: FaultKind,
) -> bool {
    match spaced(alloc, front, count, item, other) {
        Ok(text) => has_fault(alloc, &text, 3, kind),
        Err(_) => false,
    }
}

/// Whether an item with the byte `byte` at each place from 1 to `last` gives a fault of this kind, after each count of
/// spaces from 0 to 15.
fn is_refused(
    alloc: Global,
    front: &[u8],
    item: &[u8],
    last: usize,
    byte: u8,
    kind: FaultKind,
) -> bool {
    let mut same = true;
    for count in 0..16 {
        for place in 0..last {
            let other = OtherByte {
                place: place + 1,
                byte,
            };
            same &= is_refused_at(alloc, front, count, item, Some(other), kind);
        }
    }
    same
}

/// The definitions of a vector.
const VECTOR: &[u8] = b"$var wire 64 p A $end\n$enddefinitions $end\n";

/// The instant at time 0 at which the vector gets the value `digits`.
fn vector_shown(alloc: Global, digits: &[u8]) -> Result<Vec<u8>, AllocError> {
    let bits = bits_of(alloc, 64, digits)?;
    together(alloc, b"#0 0=", &bits, b"\n")
}

/// Whether a change of the vector gives the instants `wanted`, and is refused with a 2 at each place of its digits.
fn is_vector(alloc: Global, digits: &[u8], wanted: &[u8]) -> bool {
    match together(alloc, b"b", digits, b" p") {
        Ok(item) => {
            is_read(alloc, VECTOR, &item, wanted)
                && is_refused(
                    alloc,
                    VECTOR,
                    &item,
                    digits.len(),
                    b'2',
                    FaultKind::BadToken,
                )
        }
        Err(_) => false,
    }
}

/// Whether a change of the vector to `length` digits is read.
fn is_vector_of(alloc: Global, length: usize) -> bool {
    let digits = first_bytes(DIGITS, length);
    match vector_shown(alloc, digits) {
        Ok(wanted) => is_vector(alloc, digits, &wanted),
        Err(_) => false,
    }
}

/// Vectors of each length, with 0 to 15 spaces before and as many after them.
#[test]
fn vectors_of_each_length_at_each_place(rt: HostRuntime) {
    for length in 1..41 {
        assert!(rt; is_vector_of(rt.alloc(), length), "{length}");
    }
}

/// The definitions of one variable.
const SHORT: &[u8] = b"$var wire 1 p A $end\n$enddefinitions $end\n";

/// Whether the time of `digits` gives the instants `wanted`, also with zeros before its digits.
fn is_time(alloc: Global, time: &[u8], digits: &[u8], wanted: &[u8]) -> bool {
    match together(alloc, b"#000000000000000000000000", digits, b"") {
        Ok(late) => { is_read(alloc, SHORT, time, wanted) && is_read(alloc, SHORT, &late, wanted) }
        Err(_) => false,
    }
}

/// Whether a time is too large after each count of spaces from 0 to 15.
fn is_too_large(alloc: Global, time: &[u8]) -> bool {
    let mut same = true;
    for count in 0..16 {
        same &= is_refused_at(alloc, SHORT, count, time, None, FaultKind::NumberTooLarge);
    }
    same
}

/// Whether a time of at most 19 digits is read, or one of more is too large.
fn is_time_or_too_large(alloc: Global, time: &[u8], digits: &[u8]) -> bool {
    if digits.len() > 19 {
        return is_too_large(alloc, time);
    }
    match together(alloc, time, b"\n", b"") {
        Ok(wanted) => is_time(alloc, time, digits, &wanted),
        Err(_) => false,
    }
}

/// Whether a time of `length` digits is read, or too large with more than 19, and refused with a colon at each place of
/// its digits.
fn is_time_of(alloc: Global, length: usize) -> bool {
    let digits = first_bytes(TIME, length);
    match together(alloc, b"#", digits, b"") {
        Ok(time) => {
            is_time_or_too_large(alloc, &time, digits)
                && is_refused(alloc, SHORT, &time, length, b':', FaultKind::BadToken)
        }
        Err(_) => false,
    }
}

/// Times of each length, with 0 to 15 spaces before and as many after them. Up to 19 digits they fit; 20 and more are
/// too large here, and zeros before the digits change nothing.
#[test]
fn times_of_each_length_at_each_place(rt: HostRuntime) {
    for length in 1..41 {
        assert!(rt; is_time_of(rt.alloc(), length), "{length}");
    }
}

/// Whether a change of `code` is read after the definitions `front`, and refused with another byte at each place of it.
fn is_code(alloc: Global, front: &[u8], code: &[u8]) -> bool {
    match together(alloc, b"1", code, b"") {
        Ok(item) => {
            is_read(alloc, front, &item, b"#0 0=1\n")
                && is_refused(
                    alloc,
                    front,
                    &item,
                    code.len(),
                    1,
                    FaultKind::UndeclaredCode,
                )
        }
        Err(_) => false,
    }
}

/// Whether a change of a code of `length` bytes is read, and refused with another byte at each place of the code.
fn is_code_of(alloc: Global, length: usize) -> bool {
    let code = first_bytes(CODE, length);
    match together(
        alloc,
        b"$var wire 1 ",
        code,
        b" A $end\n$enddefinitions $end\n",
    ) {
        Ok(front) => is_code(alloc, &front, code),
        Err(_) => false,
    }
}

/// Changes of codes of each length, with 0 to 15 spaces before and as many after them.
#[test]
fn codes_of_each_length_at_each_place(rt: HostRuntime) {
    for length in 1..41 {
        assert!(rt; is_code_of(rt.alloc(), length), "{length}");
    }
}

/// Whether a fault is shown with its line and kind.
fn is_fault_shown(alloc: Global) -> bool {
    let kind = FaultKind::BadVar;
    let fault = VcdFault { line: 3, kind };
    match format!(in alloc; "{fault}") {
        Ok(shown) => shown.as_str() == "dump line 3: BadVar",
        Err(_) => false,
    }
}

#[test]
fn a_fault_is_shown_with_its_line(rt: HostRuntime) {
    assert!(rt; is_fault_shown(rt.alloc()));
}

/// Whether a fault of `text` is at one of its lines, as each is but want of memory.
fn is_at_a_line(fault: &VcdFault, text: &[u8]) -> bool {
    0 < fault.line && fault.line <= line_feeds(text).saturating_add(1)
}

/// Whether `text` is a dump. `None` if it isn't, and its fault isn't at one of its lines.
fn is_dump(alloc: Global, text: &[u8]) -> Option<bool> {
    match read_vcd(alloc, text) {
        Ok(_) => Some(true),
        Err(fault) => {
            if is_at_a_line(&fault, text) {
                Some(false)
            } else {
                None
            }
        }
    }
}

/// How many prefixes of `text` are dumps, itself among them. `None` if one has a fault that isn't at one of its lines.
fn count_dumps(alloc: Global, text: &[u8]) -> Option<usize> {
    let mut count: usize = 0;
    for end in 0..=text.len() {
        let is_read = is_dump(alloc, &text[..end])?;
        if is_read {
            count = count.saturating_add(1);
        }
    }
    Some(count)
}

/// The recording of the bus.
fn whole_bus(alloc: Global) -> Result<Vec<u8>, AllocError> {
    together(alloc, BUS.as_bytes(), BUS_BODY.as_bytes(), b"")
}

/// How many prefixes of the recording of the bus are dumps, as `count_dumps` gives it.
fn count_dumps_of_bus(alloc: Global) -> Option<usize> {
    match whole_bus(alloc) {
        Ok(text) => count_dumps(alloc, &text),
        Err(_) => None,
    }
}

/// By the second judge 39 of the 280 prefixes are dumps: those that have the definitions, unless they end with `#`, a
/// level without its code, or a time that is earlier than the one before it.
#[test]
fn every_prefix_of_a_recording_is_a_dump_or_has_a_fault_at_one_of_its_lines(rt: HostRuntime) {
    assert!(rt; count_dumps_of_bus(rt.alloc()) == Some(39));
}

/// Writes a hundred thousand nested scopes.
fn write_scopes(text: &mut Vec<u8>) -> Result<(), AllocError> {
    for _ in 0..100_000 {
        text.extend_from_slice(b"$scope module a $end\n")?;
    }
    text.extend_from_slice(b"$enddefinitions $end")?;
    Ok(())
}

/// Whether a text is a dump that says nothing.
fn says_nothing(alloc: Global, text: &[u8]) -> bool {
    match read_vcd(alloc, text) {
        Ok(dump) => dump.variables().is_empty() && dump.instants().is_empty(),
        Err(_) => false,
    }
}

/// Whether deep scopes are read.
fn are_deep_scopes_read(alloc: Global) -> bool {
    let mut text = Vec::new(alloc);
    write_scopes(&mut text).is_ok() && says_nothing(alloc, &text)
}

#[test]
fn scopes_stand_in_one_another_to_any_depth(rt: HostRuntime) {
    assert!(rt; are_deep_scopes_read(rt.alloc()));
}

/// A recording in which each growth of memory is met: nested scopes, codes in the table and in the map, references of
/// several words, a value of more bits than lie inline, and several values at an instant.
const GROWING: &str = "\
$scope module rack $end $scope module slot 1 $end $var wire 1 p AS $end $upscope $end
$var wire 1 clock0 clk $end $var wire 1 clock1 clk [ 1 ] $end $var wire 20 ~~~ D [19:0] $end
$enddefinitions $end
#0 1p 1clock0 0clock1 bx ~~~ #1 0p #2 b1 ~~~ 1p 0clock0
";

/// Whether the recording is read, or want of memory is the fault.
fn is_read_or_refused(alloc: Global) -> bool {
    match read_vcd(alloc, GROWING.as_bytes()) {
        Ok(dump) => dump.instants().len() == 3 && dump.variables().len() == 4,
        Err(fault) => fault.line == 0 && fault.kind == FaultKind::Memory,
    }
}

/// Run with each allocation refused in turn, this test shows that the fault is then want of memory.
#[test]
fn want_of_memory_is_the_fault(rt: HostRuntime) {
    assert!(rt; is_read_or_refused(rt.alloc()));
}

/// Definitions with a code that looks like a time.
const FRONT: &str =
    "$var wire 1 p P $end $var wire 2 q Q $end $var wire 2 #9 R $end $enddefinitions $end\n";

/// A body that is cut before each `#` that begins a line: of its pieces, those at the times 0, 5, 5, 6, 10 and 12 fit.
const BODY: &str = "\
0p
#0 1p
#5 b10 q
#5 0p
#6 $dumpvars 1p
#7 0p $end
#8 b1
#9 1p
#10 0p
#10 $comment
#11 $end 1p
#12 0p
";

/// What the body says.
const BODY_SHOWN: &str = "\
#0 0=1
#5 0=0 1=10
#6 0=1
#7 0=0
#8 0=1 2=01
#10 0=1
#12 0=0
";

/// The visits of a body after `FRONT`, and how many of its pieces are joined, as `read_and_join` gives them. `Ok(None)`
/// if the definitions of `FRONT` don't end.
fn join_after_front(
    alloc: Global,
    origin: &BodyReader<Visits>,
    body: &[u8],
    ends: &[usize],
) -> Result<Option<(Visits, usize)>, VcdFault> {
    match begun(alloc, FRONT.as_bytes())? {
        Some((pieces, _)) => Ok(Some(read_and_join(alloc, origin, pieces, body, ends)?)),
        None => Ok(None),
    }
}

/// As `join_after_front`, where `origin` is another reading of `FRONT`.
fn join_by_another_front(
    alloc: Global,
    body: &[u8],
    ends: &[usize],
) -> Result<Option<(Visits, usize)>, VcdFault> {
    match begun(alloc, FRONT.as_bytes())? {
        Some((origin, _)) => join_after_front(alloc, &origin, body, ends),
        None => Ok(None),
    }
}

/// How many pieces of `BODY` are joined, if it says what it should.
fn count_joined(alloc: Global, ends: &[usize]) -> Option<usize> {
    match join_by_another_front(alloc, BODY.as_bytes(), ends) {
        Ok(Some((told, count))) => {
            if visits_tell(alloc, told.visits.as_slice(), BODY_SHOWN, 0) {
                Some(count)
            } else {
                None
            }
        }
        Ok(None) | Err(_) => None,
    }
}

/// How many pieces of `BODY` are joined where it is cut before times, if it says what it should.
fn count_joined_by_times(alloc: Global) -> Option<usize> {
    match times_of(alloc, BODY.as_bytes()) {
        Ok(ends) => count_joined(alloc, &ends),
        Err(_) => None,
    }
}

/// Whether `BODY` says what it should in pieces of at least `size` bytes.
fn is_joined_by_size(alloc: Global, size: usize) -> bool {
    match ends_of(alloc, BODY.as_bytes(), size) {
        Ok(ends) => count_joined(alloc, &ends).is_some(),
        Err(_) => false,
    }
}

#[test]
fn pieces_are_joined_where_they_fit(rt: HostRuntime) {
    assert!(rt; count_joined_by_times(rt.alloc()) == Some(6));
    for size in SIZES.iter() {
        assert!(rt; is_joined_by_size(rt.alloc(), *size), "by {size}");
    }
}

/// The fault of a body whose pieces are joined, where each begins with a time.
fn fault_by_joining(alloc: Global, body: &[u8]) -> Option<VcdFault> {
    match times_of(alloc, body) {
        Ok(ends) => join_by_another_front(alloc, body, &ends).err(),
        Err(_) => None,
    }
}

#[test]
fn an_earlier_time_is_a_fault_where_pieces_are_joined(rt: HostRuntime) {
    let fault = fault_by_joining(rt.alloc(), b"#5 1p\n#3 0p\n#6 1p\n");
    assert!(rt;
        fault
            == Some(VcdFault {
                line: 3,
                kind: FaultKind::TimeBackwards,
            })
    );
}
