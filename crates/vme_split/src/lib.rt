//! What a listing implies for the edges of its recording: they split into exactly what is listed.
//!
//! A listing is made row by row, by definitions in `vme_listing`. This crate says what its rows
//! mean in terms of the bus alone: each judged fall and rise of AS and of BBSY, each instant at
//! which the data strobes leave high or are both back, and each fall of an answer line belongs to
//! one row, and each row to its edges. [`listings_split`] states this for every recording and every
//! verdict. Where the recording conforms, all of its judged edges are split; where it is broken or
//! unreadable, those before the break.
//!
//! # Parts
//!
//! A recording is judged in stretches: the first begins as the bus is idle, a reset ends one, and
//! the next begins as the bus is idle again. These statements hold for each stretch. Each is a
//! field of `SplitsStretch` in `specs/Split.antt`:
//!
//! - `cycles`: the cycles start at the falls of AS and end at its rises, one for each, in turn.
//! - `tenures`: the tenures start at the falls of BBSY and end at its rises, one for each, in turn;
//!   one more comes first, where BBSY is low as the stretch begins.
//! - `transfers`: a transfer starts where both strobes were high and one isn't, and closes where
//!   both are high again; in turn.
//! - `answers`: the answers by DTACK are the falls of DTACK, one for each, and those by BERR the
//!   falls of BERR.
//! - `keeps.tenures_of_slots`: a tenure is of a level from 0 to 3, and of one of the slots.
//! - `keeps.open_at_start`: the row of a tenure says `open` just if the tenure was under way as the
//!   stretch began.
//! - `keeps.grants`: a tenure takes a grant: as it starts, or just before, its level's nets are low
//!   up to its slot.
//! - `keeps.cycles_in_tenures`: a cycle starts in a tenure.
//! - `keeps.answers_in_cycles`: an answer comes in its transfer, and in the cycle that the row
//!   names.
//! - `keeps.cycles_of_classes`: a cycle has the transfers that its class allows.
//! - `keeps.acknowledges`: an interrupt acknowledge is a cycle that starts with IACK low; others
//!   start with it high.
//! - `keeps.codes_of_classes`: the class of another cycle is that of its modifier code.
//! - `keeps.modifiers`: the modifier is what AM0 to AM5 show as the cycle starts: high for 1, low
//!   for 0, each known.
//! - `keeps.addresses`: the address is what the address lines that are meaningful with the code
//!   show in the same way, and the level of an acknowledge is what A01 to A03 show.
//! - `keeps.directions`: a write starts with WRITE low, a read with it high.
//! - `keeps.written_data`: the data of a write, where the row has them, are what its data lines
//!   show at the instant before its answer, or at its answer where it starts there.
//! - `keeps.strobe_awaits`: AS doesn't rise from the start of a transfer to its answer.
//! - `keeps.nothing_else`: a stretch has no other rows.
//!
//! "In turn" means that each ends later than it starts, that the next starts later than that end,
//! and that only the last may lack an end.
//!
//! # What is proved
//!
//! - [`listings_split`] and [`older_listings_split`]: the statements above, for every recording and
//!   its listing in each version.
//! - [`instants_are_exact`]: the lists of instants in these statements have each instant at which a
//!   property holds, once and in order. So they exclude a fall without a row, a row without a fall,
//!   and a row that is listed twice.
//! - [`split_is_unique`]: rows that split the same edges have the same tenures, cycles, transfers
//!   and answers, each answer of the same transfer and in the same cycle. Of a cycle they have the
//!   same kind, class, modifier and address, or level; of a transfer the same direction, and the
//!   same data where both have data.
//!
//! # What isn't said
//!
//! The order of rows of different kinds, which the definitions of `vme_listing` fix; and that each
//! answered write has its data from version 2 on, which `listings_are_well_placed` of vme_listing
//! says. docs/PROTOCOL.md shows three sentences that one would say of a listing and that are false.
#![tactic(auto)]

ghost use Rattle.std.specs.Prelude.{◌≡◌, ◌<◌, ◌≤◌, ◌↔◌, ℕ, Bool, true, List, Contains};
ghost use Rattle.vme_trace.specs.Instants.{those};
ghost use Rattle.vme_trace.specs.Trace.{Trace};
ghost use Rattle.vme_trace.specs.Verdict.{verdict};
ghost use Rattle.vme_listing.specs.Recorded.{recorded_rows, rows_in};
ghost use Rattle.vme_listing.specs.declared.row.Row.{Row};
ghost use Rattle.vme_listing.specs.declared.row.Version.{Version};
ghost use Rattle.vme_split.specs.Split.{Ascends, HaveSameTraffic, Splits, SplitsStretch};

/// The judged edges of every recording, well formed or not, split into exactly what its listing has: all of them
/// where it conforms, and those before the break where it doesn't. Where the verdict is that the bus is never idle, no
/// instant is idle, so nothing was judged.
pub fn listings_split()
    ensures { (t : Trace) → Splits t (verdict t) (recorded_rows t) }
{}

/// The listing in each version splits the judged edges, too: its rows are the same, in version 1 without data.
pub fn older_listings_split()
    ensures { (version : Version) (t : Trace) → Splits t (verdict t) (rows_in version (recorded_rows t)) }
{}

/// Rows that split the same edges have the same tenures, cycles and transfers, and the same answers, each of the same
/// transfer in the same cycle. Of each cycle they have the same kind, class, modifier and address, or level. Of each
/// transfer they have the same direction and, where both have data, the same data.
pub fn split_is_unique()
    ensures { (t : Trace) (first end : ℕ) (rows others : List Row)
        → SplitsStretch t first end rows → SplitsStretch t first end others → HaveSameTraffic rows others }
{}

/// `those p first end`, by which the laws above list instants, has each instant of the range at which `p` holds, once
/// and in order.
pub fn instants_are_exact()
    ensures each { (p : ℕ → Bool) (first end i : ℕ)
        → Contains (those p first end) i ↔ ((first ≤ i) × (i < end) × (p i ≡ true)) }
    ensures once { (p : ℕ → Bool) (first end : ℕ) → Ascends first (those p first end) }
{}
