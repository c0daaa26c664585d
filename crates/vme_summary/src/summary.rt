//! The summary of steps by all monitors, for all entering memories (states of their automata).

ghost use Rattle.std.specs.Prelude.{◌≡◌};
ghost use Rattle.vme_monitor.specs.WholeTables.{table_steps};
ghost use Rattle.vme_summary.specs.SameSteps.{SameSteps};

use vme_chains::acknowledge::AcknowledgeMemory;
use vme_chains::grant_memory::Arbitration;
use vme_dtb::holding::Holding;
use vme_dtb::memory::HandshakeMemory;
use vme_monitor::known::Stateless;
use vme_monitor::link::Link;
use vme_monitor::over_stretches::StretchPhase;
use vme_monitor::table::Table;

/// The summary of steps by all monitors, for all entering memories: a table for each monitor.
#[derive(Drop)]
pub(crate) struct MonitorSummaries {
    pub(crate) known: Table<StretchPhase<Stateless>>,
    pub(crate) handshake: Table<StretchPhase<HandshakeMemory>>,
    pub(crate) stability: Table<StretchPhase<Holding>>,
    pub(crate) grant: Table<StretchPhase<Arbitration>>,
    pub(crate) acknowledge: Table<StretchPhase<AcknowledgeMemory>>,
    ghost same: { SameSteps (table_steps known) (table_steps handshake) (table_steps stability) (table_steps grant)
        (table_steps acknowledge) },
}

/// Room to take over a summary: a vector of links for each table.
#[derive(Drop)]
pub(crate) struct Room {
    pub(crate) known: Vec<Link>,
    pub(crate) handshake: Vec<Link>,
    pub(crate) stability: Vec<Link>,
    pub(crate) grant: Vec<Link>,
    pub(crate) acknowledge: Vec<Link>,
}
