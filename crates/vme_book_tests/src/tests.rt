//! Books that take the blocks of a worked recording, of 14 steps and called *the read*, or single steps of a long one.

ghost use Rattle.std.specs.Prelude.{◌≡◌, IfOk};
ghost use Rattle.vme_summary.specs.Stands.{first_number};

use std::alloc::Global;
use std::process::Abort;
use vme_book::{Book, BookFault, CloseFault, InsertFault, Whole};
use vme_listing::{Listing, read_listing};
use vme_summary::{Judged, Span, judge_block};
use vme_test_recordings::{GRANTED, GRANTED_READ_LISTING, READ, capture_of, push_steps, step_of};
use vme_trace::{Block, Break, Capture, Line, Lines, Rule, Steps, Verdict};

/// The read in single steps.
fn single_steps(alloc: Global) -> Option<Vec<Block>> {
    capture_of(alloc, GRANTED, READ)?.cut(alloc, 1).ok()
}

/// The read in blocks of five steps.
fn read_by_fives(alloc: Global) -> Option<Vec<Block>> {
    capture_of(alloc, GRANTED, READ)?.cut(alloc, 5).ok()
}

/// Block 0, 1 or 2 of the read in blocks of five steps.
fn block_of_read(alloc: Global, number: usize) -> Option<Block> {
    read_by_fives(alloc)?.get(number)?.copy(alloc).ok()
}

/// The judged block. Where memory is short once, the block that comes back is judged again.
fn judged(alloc: Global, block: Block) -> Option<Judged> {
    if let Err(_) = block.check() {
        return None;
    }
    if block.steps.as_slice().len() > 1000 {
        return None;
    }
    match judge_block(alloc, block) {
        Ok(judged) => Some(judged),
        Err((block, _)) => judge_block(alloc, block).ok(),
    }
}

/// A book of `total` numbers. Where memory is short once, it is made again.
fn book_of(alloc: Global, total: u32) -> Option<Book> {
    match Book::new(alloc, total) {
        Ok(book) => Some(book),
        Err(BookFault::Memory) => Book::new(alloc, total).ok(),
        Err(BookFault::BadTotal) => None,
    }
}

/// The result of inserting a block.
#[derive(Clone, Copy, PartialEq, Eq)]
enum Inserted {
    Taken,
    Refused(InsertFault),
    /// The block wasn't judged, or the book or the block that came back aren't as they were.
    Wrong,
}

/// The result of inserting a judged block. Where memory is short once, the block that comes back is inserted again.
fn insert_judged(alloc: Global, book: &mut Book, judged: Judged) -> Inserted {
    let number = judged.block().number;
    let before = book.so_far();
    let (again, why) = match book.insert(alloc, judged) {
        Ok(()) => return Inserted::Taken,
        Err(refused) => refused,
    };
    if book.so_far() != before || again.block().number != number {
        return Inserted::Wrong;
    }
    if why != InsertFault::Memory {
        return Inserted::Refused(why);
    }
    match book.insert(alloc, again) {
        Ok(()) => Inserted::Taken,
        Err((_, why)) => Inserted::Refused(why),
    }
}

/// The result of judging and inserting a block.
fn insert(alloc: Global, book: &mut Book, block: Block) -> Inserted {
    match judged(alloc, block) {
        Some(judged) => insert_judged(alloc, book, judged),
        None => Inserted::Wrong,
    }
}

/// Whether the book takes a block.
fn takes(alloc: Global, book: &mut Book, block: Option<Block>) -> bool {
    match block {
        Some(block) => insert(alloc, book, block) == Inserted::Taken,
        None => false,
    }
}

/// Whether the book refuses a block for this reason.
fn refuses(alloc: Global, book: &mut Book, block: Option<Block>, why: InsertFault) -> bool {
    match block {
        Some(block) => insert(alloc, book, block) == Inserted::Refused(why),
        None => false,
    }
}

/// The result of closing a book. Where memory is short once, the verdict so far is as before, and the book is closed
/// again.
fn closed(alloc: Global, book: Book) -> Result<Whole, CloseFault>
    ensures { IfOk result (λ whole. first_number whole.span ≡ 0) }
{
    let before = book.so_far();
    match book.close(alloc) {
        Ok(whole) => Ok(whole),
        Err((again, CloseFault::Memory)) => {
            if again.so_far() != before {
                return Err(CloseFault::Memory);
            }
            match again.close(alloc) {
                Ok(whole) => Ok(whole),
                Err((_, why)) => Err(why),
            }
        }
        Err((_, why)) => Err(why),
    }
}

/// Whether a book whose verdict so far is conforming isn't closed, with the fault `why`.
fn stays_open(alloc: Global, book: Book, why: CloseFault) -> bool {
    let conforms = book.so_far() == Some(Verdict::Conforming);
    match closed(alloc, book) {
        Ok(_) => false,
        Err(found) => conforms && found == why,
    }
}

/// The block again, with another number.
fn numbered(number: u32, block: Block) -> Block {
    Block {
        number,
        opening: block.opening,
        steps: block.steps,
    }
}

/// The block again, but in its last step DS0 falls, and nothing else changes.
fn strobe_last(alloc: Global, block: Block) -> Option<Block> {
    let Block {
        number,
        opening,
        steps,
    } = block;
    let mut steps = steps.into_inner();
    let time = steps.pop()?.time;
    steps.push(step_of(alloc, &opening, time, "DS0=0")?).ok()?;
    Some(Block {
        number,
        opening,
        steps: Steps::new(steps),
    })
}

/// The block again, with a first step at another time.
fn starting_at(time: u64, block: Block) -> Option<Block> {
    let Block {
        number,
        opening,
        steps,
    } = block;
    let mut steps = steps.into_inner();
    steps.first_mut()?.time = time;
    Some(Block {
        number,
        opening,
        steps: Steps::new(steps),
    })
}

/// The listing of a span of a whole recording. Where memory is short once, it is made again.
fn listing_of(alloc: Global, span: &Span) -> Option<Listing>
    requires { first_number span.now ≡ 0 }
{
    match span.listing(alloc) {
        Ok(listing) => Some(listing),
        Err(_) => span.listing(alloc).ok(),
    }
}

/// The listing of the read, from its text. Where memory is short once, it is read again.
fn listing_of_read(alloc: Global) -> Option<Listing> {
    match read_listing(alloc, GRANTED_READ_LISTING.as_bytes()) {
        Ok(listing) => Some(listing),
        Err(_) => read_listing(alloc, GRANTED_READ_LISTING.as_bytes()).ok(),
    }
}

/// Whether the listing of a span is that of the read.
fn lists_read(alloc: Global, span: &Span) -> bool
    requires { first_number span.now ≡ 0 }
{
    match (listing_of(alloc, span), listing_of_read(alloc)) {
        (Some(listing), Some(wanted)) => listing.rows() == wanted.rows(),
        _ => false,
    }
}

/// Whether the book, whose verdict so far is conforming, closes to the worked read: its span ends at the number `last`,
/// and its listing is that of the read.
fn closes_to_read(alloc: Global, book: Book, last: u32) -> bool {
    let conforms = book.so_far() == Some(Verdict::Conforming);
    match closed(alloc, book) {
        Ok(whole) => {
            conforms
                && (whole.span.last(), whole.span.steps()) == (last, 14)
                && whole.capture.steps().len() == 14
                && lists_read(alloc, &whole.span)
        }
        Err(_) => false,
    }
}

/// Whether the book takes each block, and has no verdict before block 0, which comes last.
fn takes_backwards(alloc: Global, book: &mut Book, blocks: Option<Vec<Block>>) -> bool {
    let Some(blocks) = blocks else {
        return false;
    };
    for block in blocks.into_iter().rev() {
        if book.so_far().is_some() || !takes(alloc, book, Some(block)) {
            return false;
        }
    }
    true
}

/// A read cut into single steps, inserted from the last one on, conforms once block 0 is in.
#[test]
fn backwards(rt: HostRuntime) {
    let alloc = rt.alloc();
    let Some(mut book) = book_of(alloc, 14) else {
        panic!(rt; "no book")
    };
    assert!(rt; takes_backwards(alloc, &mut book, single_steps(alloc)));
    assert!(rt; closes_to_read(alloc, book, 13));
}

/// The orders of three blocks.
static ORDERS: [(usize, usize, usize); 6] = [
    (0, 1, 2),
    (0, 2, 1),
    (1, 0, 2),
    (1, 2, 0),
    (2, 0, 1),
    (2, 1, 0),
];

/// Whether three blocks make the read in this order.
fn makes_read(alloc: Global, order: (usize, usize, usize)) -> bool {
    let Some(mut book) = book_of(alloc, 3) else {
        return false;
    };
    takes(alloc, &mut book, block_of_read(alloc, order.0))
        && takes(alloc, &mut book, block_of_read(alloc, order.1))
        && takes(alloc, &mut book, block_of_read(alloc, order.2))
        && closes_to_read(alloc, book, 2)
}

#[test]
fn six_orders(rt: HostRuntime) {
    for order in ORDERS.iter() {
        assert!(rt; makes_read(rt.alloc(), *order));
    }
}

/// Without block 1, the verdict so far is of block 0 alone, and block 1 is missing.
#[test]
fn missing(rt: HostRuntime) {
    let alloc = rt.alloc();
    let Some(mut book) = book_of(alloc, 3) else {
        panic!(rt; "no book")
    };
    assert!(rt; takes(alloc, &mut book, block_of_read(alloc, 0)));
    assert!(rt; takes(alloc, &mut book, block_of_read(alloc, 2)));
    assert!(rt; stays_open(alloc, book, CloseFault::Missing(1)));
}

/// Whether the book takes block 2 and a block 1 that ends otherwise, and has no verdict before block 0, which it takes
/// last. Block 1 as it was is refused.
fn takes_other_lines(alloc: Global, book: &mut Book) -> bool {
    let Some(middle) = block_of_read(alloc, 1) else {
        return false;
    };
    takes(alloc, book, block_of_read(alloc, 2))
        && book.so_far().is_none()
        && takes(alloc, book, strobe_last(alloc, middle))
        && book.so_far().is_none()
        && refuses(alloc, book, block_of_read(alloc, 1), InsertFault::Doubled)
        && takes(alloc, book, block_of_read(alloc, 0))
}

/// Block 2 doesn't open with what another block 1 leaves.
#[test]
fn torn_by_lines(rt: HostRuntime) {
    let alloc = rt.alloc();
    let Some(mut book) = book_of(alloc, 3) else {
        panic!(rt; "no book")
    };
    assert!(rt; takes_other_lines(alloc, &mut book));
    assert!(rt; stays_open(alloc, book, CloseFault::Torn(2)));
}

/// Whether the book takes block 1 of the read as its block 2, but with a first step at the time of the last one of
/// block 0; an empty block 1; and block 0.
fn takes_early_and_empty(alloc: Global, book: &mut Book) -> bool {
    let Some(middle) = block_of_read(alloc, 1) else {
        return false;
    };
    let empty = Block {
        number: 1,
        opening: middle.opening,
        steps: Steps::new(Vec::new(alloc)),
    };
    let early = starting_at(40, numbered(2, middle));
    takes(alloc, book, early)
        && takes(alloc, book, Some(empty))
        && takes(alloc, book, block_of_read(alloc, 0))
}

/// Blocks 1 and 2 join, since block 1 is empty; block 2 doesn't come later than block 0.
#[test]
fn torn_across_an_empty_block(rt: HostRuntime) {
    let alloc = rt.alloc();
    let Some(mut book) = book_of(alloc, 3) else {
        panic!(rt; "no book")
    };
    assert!(rt; takes_early_and_empty(alloc, &mut book));
    assert!(rt; stays_open(alloc, book, CloseFault::Torn(2)));
}

/// Whether no book of `total` numbers is made, as these are too few or too many.
fn is_bad_total(alloc: Global, total: u32) -> bool {
    match Book::new(alloc, total) {
        Ok(_) => false,
        Err(fault) => fault == BookFault::BadTotal,
    }
}

/// Whether an empty book isn't closed, as block 0 is missing.
fn lacks_all(alloc: Global, book: Book) -> bool {
    match closed(alloc, book) {
        Ok(_) => false,
        Err(why) => why == CloseFault::Missing(0),
    }
}

/// Totals out of range, and a number that isn't below the total.
#[test]
fn ranges(rt: HostRuntime) {
    let alloc = rt.alloc();
    assert!(rt; is_bad_total(alloc, 0) && is_bad_total(alloc, 4097));
    let (Some(mut book), Some(block)) = (book_of(alloc, 3), block_of_read(alloc, 2)) else {
        panic!(rt; "no book")
    };
    let stranger = Some(numbered(3, block));
    assert!(rt; refuses(alloc, &mut book, stranger, InsertFault::Stranger));
    assert!(rt; lacks_all(alloc, book));
}

/// The blocks of the read by fives. Where memory is refused once, they are made again.
fn blocks_by_fives(alloc: Global) -> Option<Vec<Block>> {
    match read_by_fives(alloc) {
        Some(blocks) => Some(blocks),
        None => read_by_fives(alloc),
    }
}

/// Whether the book takes each block, and its verdict after each is conforming.
fn takes_forwards(alloc: Global, book: &mut Book) -> bool {
    let Some(blocks) = blocks_by_fives(alloc) else {
        return false;
    };
    for block in blocks {
        if !takes(alloc, book, Some(block)) || book.so_far() != Some(Verdict::Conforming) {
            return false;
        }
    }
    true
}

/// `tests/memory/run` refuses each of its allocations in turn. Blocks in order are joined as further ones are inserted,
/// and backwards as the book is closed.
#[test]
fn each_growth_fails_once(rt: HostRuntime) {
    let alloc = rt.alloc();
    let (Some(mut forwards), Some(mut backwards)) = (book_of(alloc, 3), book_of(alloc, 3)) else {
        panic!(rt; "no books")
    };
    assert!(rt; takes_forwards(alloc, &mut forwards));
    assert!(rt; closes_to_read(alloc, forwards, 2));
    assert!(rt; takes_backwards(alloc, &mut backwards, blocks_by_fives(alloc)));
    assert!(rt; closes_to_read(alloc, backwards, 2));
}

/// How many blocks arrive in each order.
const MANY: usize = 4096;

/// An order in which blocks arrive.
#[derive(Clone, Copy)]
enum Order {
    Ascending,
    Descending,
    EvenThenOdd,
    Shuffled,
}

impl Order {
    /// The number that comes at a place, 0 to 4,095.
    fn number(self, place: usize) -> usize {
        let place = place % MANY;
        match self {
            Order::Ascending => place,
            Order::Descending => MANY - 1 - place,
            Order::EvenThenOdd if place < 2048 => place * 2,
            Order::EvenThenOdd => (place - 2048) * 2 + 1,
            Order::Shuffled => place * 1237 % MANY,
        }
    }
}

/// A recording of 4,096 steps: the bus becomes idle, an address line changes in turn, and at last an answer falls with
/// no transfer underway.
fn long_recording(alloc: Global) -> Option<Capture> {
    let opening = Lines::new(3)?;
    let mut steps = Vec::new(alloc);
    push_steps(alloc, &mut steps, &opening, "high_but_A24_to_A31")?;
    for place in 1..4095u64 {
        let text = if place % 2 == 1 { "A05=0" } else { "A05=1" };
        push_steps(alloc, &mut steps, &opening, text)?;
    }
    push_steps(alloc, &mut steps, &opening, "DTACK=0")?;
    Capture::new(opening, steps).ok()
}

/// The single steps of the long recording, each of which can be taken once.
fn many_blocks(alloc: Global) -> Option<Vec<Option<Block>>> {
    let recording = long_recording(alloc)?;
    let mut blocks = Vec::new(alloc);
    for block in recording.cut(alloc, 1).ok()? {
        blocks.push(Some(block)).ok()?;
    }
    Some(blocks)
}

/// Whether the book takes each block, in an order.
fn takes_all(alloc: Global, book: &mut Book, order: Order) -> bool {
    let Some(mut blocks) = many_blocks(alloc) else {
        return false;
    };
    for place in 0..MANY {
        let block = match blocks.get_mut(order.number(place)) {
            Some(block) => block.take(),
            None => None,
        };
        if !takes(alloc, book, block) {
            return false;
        }
    }
    blocks.len() == MANY
}

/// Whether the book closes to the long recording, with its break.
fn closes_to_many(alloc: Global, book: Book) -> bool {
    let broken = Verdict::Broken(Break {
        instant: 4096,
        time: 40950,
        rule: Rule::H4,
        line: Line::DTACK,
    });
    let is_broken = book.so_far() == Some(broken);
    match closed(alloc, book) {
        Ok(whole) => {
            is_broken && whole.capture.steps().len() == MANY && whole.span.steps() == 4096
        }
        Err(_) => false,
    }
}

/// Whether the single steps of the long recording, which arrive in an order, make it again, with its break.
fn makes_many(alloc: Global, order: Order) -> bool {
    match book_of(alloc, 4096) {
        Some(mut book) => takes_all(alloc, &mut book, order) && closes_to_many(alloc, book),
        None => false,
    }
}

#[test]
fn ascending(rt: HostRuntime) {
    assert!(rt; makes_many(rt.alloc(), Order::Ascending));
}

#[test]
fn descending(rt: HostRuntime) {
    assert!(rt; makes_many(rt.alloc(), Order::Descending));
}

#[test]
fn even_then_odd(rt: HostRuntime) {
    assert!(rt; makes_many(rt.alloc(), Order::EvenThenOdd));
}

#[test]
fn shuffled(rt: HostRuntime) {
    assert!(rt; makes_many(rt.alloc(), Order::Shuffled));
}
