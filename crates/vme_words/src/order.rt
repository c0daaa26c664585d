//! The parsed command line: an order, i.e. a subcommand with its arguments.

ghost use Rattle.std.specs.Prelude.{◌≤◌, IfSome};
ghost use Rattle.std.proofs.Props.{props};
ghost use Rattle.vme_words.specs.declared.limits.TheConstants.{MOST_SLOTS, MOST_STEPS, MOST_WORKERS};

/// A subcommand of the program, without its arguments.
#[derive(Clone, Copy, Debug, PartialEq, Eq)]
pub enum Task {
    /// Judge a recording, and write the verdict.
    Check,
    /// Judge a recording, and write its listing.
    List,
    /// Compare a listing with that of a recording.
    Confirm,
    /// Report each break of the recordings, i.e. each violation of a rule, and what they cover.
    Audit,
    /// Say what the rules require.
    Rules,
    /// Say what the refusals of inputs mean.
    Faults,
    /// Write the variables of a dump.
    Variables,
    /// Write a binding for a dump.
    Bind,
    /// Judge a recording, and say why and where.
    Explain,
    /// Write a dump again, annotated with the listing of its recording.
    Annotate,
    /// Judge one file of a recording, and write the result, its part.
    Part,
    /// Write one part of several.
    Join,
    /// Report the verdict of a whole recording from its parts, or write its listing.
    Tell,
}

/// A parsed command line: a subcommand with its arguments.
#[derive(Debug, Drop)]
pub enum Order {
    /// Judge a recording, and write the verdict.
    Check(CheckOrder),
    /// Judge a recording, and write its listing.
    List(ListOrder),
    /// Compare a listing with that of a recording.
    Confirm(ConfirmOrder),
    /// Report each break of the recordings, and what they cover.
    Audit(AuditOrder),
    /// Say what the rules require.
    Rules(RulesOrder),
    /// Say what the refusals of inputs mean.
    Faults(FaultsOrder),
    /// Write the variables of a dump.
    Variables(VariablesOrder),
    /// Write a binding for a dump.
    Bind(BindOrder),
    /// Judge a recording, and say why and where.
    Explain(ExplainOrder),
    /// Write a dump again, annotated with the listing of its recording.
    Annotate(AnnotateOrder),
    /// Judge one file of a recording, and write its part.
    Part(PartOrder),
    /// Write one part of several.
    Join(JoinOrder),
    /// Report the verdict of a whole recording from its parts, or write its listing.
    Tell(TellOrder),
}

/// The files of a recording, by their names.
#[derive(Debug, Drop)]
pub struct RecordingFiles {
    /// The file of the binding, which binds the lines of the backplane to variables of the dump or to fixed levels.
    pub binding: String,
    /// The value change dump.
    pub dump: String,
}

/// How a recording is judged.
#[derive(Debug, Drop)]
pub struct JudgeOptions {
    /// How many steps a block has, 1 to 65,536.
    pub block: u32,
    /// How many workers read and judge the dump, 1 to 64.
    pub workers: u32,
    /// How far apart probes may show one moment of the bus, in time units of the dump.
    pub skew: u64,
    ghost block_in_range: { (1 ≤ block) × (block ≤ MOST_STEPS) },
    ghost workers_in_range: { (1 ≤ workers) × (workers ≤ MOST_WORKERS) },
}

/// The arguments of `check`.
#[derive(Debug, Drop)]
pub struct CheckOrder {
    /// How the recording is judged.
    pub options: JudgeOptions,
    /// The files of the recording.
    pub recording: RecordingFiles,
}

/// The arguments of `list`.
#[derive(Debug, Drop)]
pub struct ListOrder {
    /// How the recording is judged.
    pub options: JudgeOptions,
    /// Whether the rows have the times of their instants.
    pub has_times: bool,
    /// The files of the recording.
    pub recording: RecordingFiles,
}

/// The arguments of `confirm`.
#[derive(Debug, Drop)]
pub struct ConfirmOrder {
    /// How far apart probes may show one moment of the bus, in time units of the dump.
    pub skew: u64,
    /// The files of the recording.
    pub recording: RecordingFiles,
    /// The file of the listing.
    pub listing: String,
}

/// The arguments of `audit`.
#[derive(Debug, Drop)]
pub struct AuditOrder {
    /// How many transfers have to be answered for a recording to count as covered.
    pub transfers: u64,
    /// The breaks that are allowed, each as it is written: a rule, or a rule and a line.
    pub allowed: Vec<String>,
    /// After how many breaks that aren't allowed the reading of a dump stops, from 1 on, if `--stop` is given.
    pub stop: Option<u64>,
    /// How far apart probes may show one moment of the bus, in time units of a dump.
    pub skew: u64,
    /// How many workers read and judge a dump, 1 to 64.
    pub workers: u32,
    /// Whether the counts are left out.
    pub is_quiet: bool,
    /// The JUnit file of test cases to write, if one is named.
    pub junit: Option<String>,
    /// The file of the binding.
    pub binding: String,
    /// The value change dumps, by their names.
    pub dumps: Vec<String>,
    ghost stop_in_range: { IfSome stop (λ n. 1 ≤ n) } by { Prim.hlevel props },
    ghost workers_in_range: { (1 ≤ workers) × (workers ≤ MOST_WORKERS) },
}

/// The arguments of `rules`.
#[derive(Debug, Drop)]
pub struct RulesOrder {
    /// The rule, if one is named.
    pub rule: Option<String>,
}

/// The arguments of `faults`.
#[derive(Debug, Drop)]
pub struct FaultsOrder {
    /// The kind of refusal, if one is named.
    pub kind: Option<String>,
}

/// The arguments of `variables`.
#[derive(Debug, Drop)]
pub struct VariablesOrder {
    /// The value change dump.
    pub dump: String,
}

/// The arguments of `bind`.
#[derive(Debug, Drop)]
pub struct BindOrder {
    /// How many slots the backplane has, 1 to 21, if `--slots` is given.
    pub slots: Option<u8>,
    /// The scope whose lines are bound, as its names joined by dots, if one is named.
    pub scope: Option<String>,
    /// The value change dump.
    pub dump: String,
    ghost slots_in_range: { IfSome slots (λ n. (1 ≤ n) × (n ≤ MOST_SLOTS)) } by { Prim.hlevel props },
}

/// The arguments of `explain`.
#[derive(Debug, Drop)]
pub struct ExplainOrder {
    /// The file to write for the waveform viewer, if one is named.
    pub viewer: Option<String>,
    /// The file of the picture to write, if one is named.
    pub picture: Option<String>,
    /// How far apart probes may show one moment of the bus, in time units of the dump.
    pub skew: u64,
    /// The files of the recording.
    pub recording: RecordingFiles,
}

/// The arguments of `annotate`.
#[derive(Debug, Drop)]
pub struct AnnotateOrder {
    /// How far apart probes may show one moment of the bus, in time units of the dump.
    pub skew: u64,
    /// The files of the recording.
    pub recording: RecordingFiles,
}

/// The arguments of `part`.
#[derive(Debug, Drop)]
pub struct PartOrder {
    /// Which file of the recording the dump is.
    pub number: u32,
    /// Whether the marks that a listing is made of are kept: events of the bus, with their instants.
    pub listing: bool,
    /// The binding, and the dump that is a file of the recording.
    pub recording: RecordingFiles,
}

/// The arguments of `join`.
#[derive(Debug, Drop)]
pub struct JoinOrder {
    /// The files of the parts, by their names.
    pub parts: Vec<String>,
}

/// The arguments of `tell`.
#[derive(Debug, Drop)]
pub struct TellOrder {
    /// Whether the listing is written in place of the verdict.
    pub listing: bool,
    /// How many files the recording has, if `--files` is given.
    pub file_count: Option<u64>,
    /// The files of the parts, by their names.
    pub parts: Vec<String>,
}
