//! How a call ends whose words, i.e. arguments, are no order.

ghost use Rattle.std.specs.Prelude.{◌≡◌, ◌≢◌, false, if◌then◌else◌, true};
ghost use Rattle.vme_words.specs.OrderFaults.{HasUsageKind, IsOfWords};

use clap::error::ErrorKind;
use std::alloc::Global;
use vme_words::{OrderFault, usage_fault};

/// Why the arguments can't be read: memory ran out, or one of them isn't text.
pub fn unread_words(alloc: Global, is_no_memory: bool) -> OrderFault
    ensures of_words { IsOfWords result }
    ensures memory { is_no_memory ≡ true → result ≡ OrderFault.Memory }
    ensures no_text { is_no_memory ≡ false → HasUsageKind ErrorKind.InvalidSubcommand result }
{
    if is_no_memory {
        OrderFault::Memory
    } else {
        usage_fault(alloc, "a word is no text")
    }
}

/// The exit status of a call whose words are no order, by the kind of clap's error and whether its text was written: 3
/// for invalid words; for the help or the version 0 if it was written, and else 5.
pub fn words_status(kind: ErrorKind, is_written: bool) -> u8
    ensures wrong { kind ≢ ErrorKind.DisplayHelp → kind ≢ ErrorKind.DisplayVersion → result ≡ 3 }
    ensures help { kind ≡ ErrorKind.DisplayHelp → result ≡ (if is_written then 0 else 5) }
    ensures version { kind ≡ ErrorKind.DisplayVersion → result ≡ (if is_written then 0 else 5) }
{
    match (kind, is_written) {
        (ErrorKind::DisplayHelp | ErrorKind::DisplayVersion, true) => 0,
        (ErrorKind::DisplayHelp | ErrorKind::DisplayVersion, false) => 5,
        _ => 3,
    }
}
