//! Workers that deliver the numbered blocks of a recording to one board, and the verdict on the
//! recording that the filed blocks make. A board is a table in which each number is claimed and
//! filed at most once.
//!
//! # Parts
//!
//! - `runner`: [`run`], a whole run, and its contract.
//! - `worker`: the work of one worker. `collector`: the calling thread also takes filed blocks into a
//!   book, i.e. a reorder buffer, which joins them by number. `threads`: the workers in parallel.
//! - `finish_run`: makes a report from the work of all workers. `answers`: puts the replies in the
//!   order of the deliveries.
//! - `answer`, `report`: the answer to a delivery, and the result of a run.
//! - `gate`: calls that each worker makes before and after it delivers.
//! - `cuts`: the blocks of a recording's cut ([`every_size_cuts`]).
//!
//! # What is proved
//!
//! For any order and repetition of the deliveries, and any number of workers:
//!
//! - Each delivery has the right answer (`answers`).
//! - The recording of a [`Report`] is the joined content of the deliveries answered Filed, one for
//!   each number (`recorded`). Its verdict is that of the recording by the definitions (`verdict`),
//!   whose judged edges split into exactly its listing (`split`).
//! - Each refusal is returned only for its reason (`refusals`), and `Stray` is never returned
//!   (`accounted`).
//! - If the deliveries are the blocks of a cut of a recording, each once or more, a report has that
//!   recording and its verdict. There is no report only for lack of memory or of a thread (`cut`).
//!
//! docs/EVERY_ORDER.md says it in plain words. The claims are defined in `specs/Claims`, based on
//! `specs/Answering`, and those about a cut in `specs/Cuts`.
//!
//! # What isn't proved
//!
//! That workers overlap; that memory suffices and threads can be started; which of two different
//! deliveries of one number is filed. [`run`] returns if the threads that it starts and the gate
//! do.
//!
//! # Limits
//!
//! There are 1 to 4,096 numbers, at most 65,536 deliveries, 1 to 64 workers, and at most 65,536
//! steps in a block. Each worker but the first takes a thread, with its stack.
//!
//! # In which order to read
//!
//! `runner` and `specs/Claims`, `worker`, `collector`, `threads`, `finish_run`, `answers`.
#![tactic(auto)]

mod answer;
mod answers;
mod collector;
mod cuts;
mod finish_run;
mod gate;
mod report;
mod runner;
mod threads;
mod worker;

pub use answer::{Answer, Answers};
pub use cuts::every_size_cuts;
pub use gate::{Gate, Open};
pub use report::{Report, RunFault};
pub use runner::run;
