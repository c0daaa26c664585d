use std::alloc::{AllocError, Global};
use std::process::Abort;
use vme_words::words::order;
use vme_words::{AuditOrder, JudgeOptions, Order, OrderFault, RecordingFiles, Task, task_fault};

/// The words, i.e. the arguments, in a line, the program's name first.
fn words_of(alloc: Global, line: &str) -> Result<Vec<String>, AllocError> {
    let mut words = Vec::new(alloc);
    for word in line.split(' ') {
        words.push(String::from_str(alloc, word)?)?;
    }
    Ok(words)
}

/// The order that the arguments in a line give.
fn order_of(alloc: Global, line: &str) -> Result<Order, OrderFault> {
    match words_of(alloc, line) {
        Ok(words) => order(alloc, words.as_slice()),
        Err(_) => Err(OrderFault::Memory),
    }
}

/// The texts, each with a space after it.
fn joined(alloc: Global, texts: &[String]) -> Result<String, AllocError> {
    let mut all = String::new(alloc);
    for text in texts {
        all.push_str(text.as_str())?;
        all.push_str(" ")?;
    }
    Ok(all)
}

/// A word, or `-` where there is none.
fn word_of(word: &Option<String>) -> &str {
    match word {
        Some(word) => word.as_str(),
        None => "-",
    }
}

/// The files of a recording, in one line.
fn files_line(alloc: Global, files: &RecordingFiles) -> Result<String, AllocError> {
    format!(in alloc; "{} {}", files.binding.as_str(), files.dump.as_str())
}

/// The options of judging, in one line.
fn options_line(alloc: Global, options: &JudgeOptions) -> Result<String, AllocError> {
    format!(in alloc; "{} {} {}", options.block, options.workers, options.skew)
}

/// The order of an audit, in one line.
fn audit_line(alloc: Global, order: &AuditOrder) -> Result<String, AllocError> {
    let allowed = joined(alloc, order.allowed.as_slice())?;
    let dumps = joined(alloc, order.dumps.as_slice())?;
    format!(in alloc;
        "audit {} {:?} {} {} {} {} {} allow {} of {}",
        order.transfers,
        order.stop,
        order.skew,
        order.workers,
        order.is_quiet,
        word_of(&order.junit),
        order.binding.as_str(),
        allowed.as_str(),
        dumps.as_str()
    )
}

/// An order on the recording of a binding and a dump, in one line.
fn recording_line(alloc: Global, order: &Order) -> Result<String, AllocError> {
    match order {
        Order::Check(order) => {
            let options = options_line(alloc, &order.options)?;
            let files = files_line(alloc, &order.recording)?;
            format!(in alloc; "check {} {}", options.as_str(), files.as_str())
        }
        Order::List(order) => {
            let options = options_line(alloc, &order.options)?;
            let files = files_line(alloc, &order.recording)?;
            format!(in alloc;
                "list {} {} {}",
                options.as_str(),
                files.as_str(),
                order.has_times
            )
        }
        Order::Confirm(order) => {
            let files = files_line(alloc, &order.recording)?;
            let listing = order.listing.as_str();
            format!(in alloc; "confirm {} {} {}", order.skew, files.as_str(), listing)
        }
        Order::Explain(order) => {
            let files = files_line(alloc, &order.recording)?;
            let (viewer, picture) = (word_of(&order.viewer), word_of(&order.picture));
            format!(in alloc;
                "explain {viewer} {picture} {} {}",
                order.skew,
                files.as_str()
            )
        }
        Order::Annotate(order) => {
            let files = files_line(alloc, &order.recording)?;
            format!(in alloc; "annotate {} {}", order.skew, files.as_str())
        }
        Order::Part(order) => {
            let files = files_line(alloc, &order.recording)?;
            format!(in alloc;
                "part {} {} {}",
                order.number,
                order.listing,
                files.as_str()
            )
        }
        _ => Ok(String::new(alloc)),
    }
}

/// An order in one line.
fn line_of(alloc: Global, order: &Order) -> Result<String, AllocError> {
    match order {
        Order::Audit(order) => audit_line(alloc, order),
        Order::Rules(order) => format!(in alloc; "rules {}", word_of(&order.rule)),
        Order::Faults(order) => format!(in alloc; "faults {}", word_of(&order.kind)),
        Order::Variables(order) => format!(in alloc; "variables {}", order.dump.as_str()),
        Order::Bind(order) => {
            let scope = word_of(&order.scope);
            format!(in alloc; "bind {:?} {scope} {}", order.slots, order.dump.as_str())
        }
        Order::Join(order) => {
            let parts = joined(alloc, order.parts.as_slice())?;
            format!(in alloc; "join {}", parts.as_str())
        }
        Order::Tell(order) => {
            let parts = joined(alloc, order.parts.as_slice())?;
            format!(in alloc;
                "tell {} {:?} {}",
                order.listing,
                order.file_count,
                parts.as_str()
            )
        }
        _ => recording_line(alloc, order),
    }
}

/// Command lines, and the order of each in one line: its arguments, mostly in the order of the fields.
static ORDERS: [(&str, &str); 37] = [
    (
        "vmecheck check --block 5 --workers 3 B V",
        "check 5 3 0 B V",
    ),
    ("vmecheck check B V", "check 16384 4 0 B V"),
    ("vmecheck check --skew 3 B V", "check 16384 4 3 B V"),
    (
        "vmecheck list B --block=65536 V --workers=64",
        "list 65536 64 0 B V false",
    ),
    ("vmecheck list B V --skew=0", "list 16384 4 0 B V false"),
    ("vmecheck list --times B V", "list 16384 4 0 B V true"),
    ("vmecheck list B V --block 5 --times", "list 5 4 0 B V true"),
    ("vmecheck confirm B V L", "confirm 0 B V L"),
    (
        "vmecheck confirm --skew 18446744073709551615 B V L",
        "confirm 18446744073709551615 B V L",
    ),
    ("vmecheck rules", "rules -"),
    ("vmecheck rules H4", "rules H4"),
    ("vmecheck faults", "faults -"),
    ("vmecheck faults BadVar", "faults BadVar"),
    ("vmecheck variables V", "variables V"),
    ("vmecheck bind V", "bind None - V"),
    ("vmecheck bind V --slots 21", "bind Some(21) - V"),
    ("vmecheck bind --slots 1 V", "bind Some(1) - V"),
    ("vmecheck bind --scope top.bus V", "bind None top.bus V"),
    ("vmecheck bind V --scope=2 --slots=3", "bind Some(3) 2 V"),
    ("vmecheck bind --scope= V", "bind None  V"),
    ("vmecheck explain B V", "explain - - 0 B V"),
    ("vmecheck explain --gtkw=F B V", "explain F - 0 B V"),
    ("vmecheck explain --svg P B V", "explain - P 0 B V"),
    (
        "vmecheck explain --skew 007 --svg=P --gtkw F B V",
        "explain F P 7 B V",
    ),
    ("vmecheck annotate B V", "annotate 0 B V"),
    ("vmecheck annotate --skew 2 B V", "annotate 2 B V"),
    ("vmecheck part B V", "part 0 false B V"),
    ("vmecheck part --number 3 --listing B V", "part 3 true B V"),
    (
        "vmecheck part B --number=4294967295 V",
        "part 4294967295 false B V",
    ),
    ("vmecheck join P", "join P "),
    ("vmecheck join P Q P", "join P Q P "),
    ("vmecheck tell P", "tell false None P "),
    ("vmecheck tell --list P Q", "tell true None P Q "),
    ("vmecheck tell P --files 2 Q", "tell false Some(2) P Q "),
    (
        "vmecheck audit B V",
        "audit 1 None 0 4 false - B allow  of V ",
    ),
    (
        "vmecheck audit --allow H4 B V --quiet --stop 2 - --allow=C2=AS W --junit=F --workers 64",
        "audit 1 Some(2) 0 64 true F B allow H4 C2=AS  of V - W ",
    ),
    (
        "vmecheck audit --transfers 18446744073709551615 --skew=7 --stop=1 -- B --quiet",
        "audit 18446744073709551615 Some(1) 7 4 false - B allow  of --quiet ",
    ),
];

/// Whether the arguments in a line give this order.
fn is_ordered(alloc: Global, line: &str, wanted: &str) -> bool {
    match order_of(alloc, line) {
        Ok(order) => match line_of(alloc, &order) {
            Ok(text) => text.as_str() == wanted,
            Err(_) => false,
        },
        Err(_) => false,
    }
}

#[test]
fn orders(rt: HostRuntime) {
    for (line, wanted) in ORDERS.iter() {
        assert!(rt; is_ordered(rt.alloc(), line, wanted), "{line}");
    }
}

/// Lines that are no orders, and whether each asks for help or for the version.
static REFUSED: [(&str, bool); 67] = [
    ("vmecheck check --block 0 B V", false),
    ("vmecheck check --block 65537 B V", false),
    ("vmecheck check --workers 0 B V", false),
    ("vmecheck check --workers 65 B V", false),
    ("vmecheck check B", false),
    ("vmecheck check", false),
    ("vmecheck check B V W", false),
    ("vmecheck list B", false),
    ("vmecheck list --block 0 B V", false),
    ("vmecheck confirm", false),
    ("vmecheck confirm B V", false),
    ("vmecheck confirm B V L M", false),
    ("vmecheck confirm --block 5 B V L", false),
    ("vmecheck confirm B V L --workers=2", false),
    ("vmecheck B V", false),
    ("vmecheck check --blocks 5 B V", false),
    ("vmecheck rules H1 H2", false),
    ("vmecheck faults BadVar TooWide", false),
    ("vmecheck variables", false),
    ("vmecheck bind --slots 0 V", false),
    ("vmecheck bind --slots 22 V", false),
    ("vmecheck check --times B V", false),
    ("vmecheck annotate B", false),
    ("vmecheck explain B", false),
    ("vmecheck explain --gtkw B V", false),
    ("vmecheck explain --svg B V", false),
    ("vmecheck explain --svg F --svg G B V", false),
    ("vmecheck check --svg F B V", false),
    ("vmecheck audit", false),
    ("vmecheck audit B", false),
    ("vmecheck audit --stop 0 B V", false),
    ("vmecheck audit --stop 1 --stop 2 B V", false),
    ("vmecheck audit --quiet --quiet B V", false),
    ("vmecheck audit --block 5 B V", false),
    ("vmecheck audit --allow B V", false),
    ("vmecheck audit --transfers -1 B V", false),
    ("vmecheck part B", false),
    ("vmecheck part --number -1 B V", false),
    ("vmecheck part --files 2 B V", false),
    ("vmecheck join", false),
    ("vmecheck join --list P", false),
    ("vmecheck tell", false),
    ("vmecheck tell --files 0 P", false),
    ("vmecheck tell --number 1 P", false),
    ("vmecheck check --skew 18446744073709551616 B V", false),
    ("vmecheck check --skew ten B V", false),
    ("vmecheck check --skew= B V", false),
    ("vmecheck check --skew -1 B V", false),
    ("vmecheck check --skew=-1 B V", false),
    ("vmecheck check --skew 1.5 B V", false),
    ("vmecheck check --skew 1 --skew 2 B V", false),
    ("vmecheck check B V --skew", false),
    ("vmecheck bind --skew 1 V", false),
    ("vmecheck variables --skew 1 V", false),
    ("vmecheck bind V --scope", false),
    ("vmecheck bind --scope a --scope b V", false),
    ("vmecheck check --scope a B V", false),
    ("vmecheck variables --scope a V", false),
    ("vmecheck part --number 4294967296 B V", false),
    ("vmecheck help", true),
    ("vmecheck --version", true),
    ("vmecheck --help", true),
    ("vmecheck check -h", true),
    ("vmecheck list --help", true),
    ("vmecheck confirm -h", true),
    ("vmecheck audit --help", true),
    ("vmecheck tell --help", true),
];

/// Whether a line is no order, and the message about it goes to standard error, unless it asks for help.
fn is_refused(alloc: Global, line: &str, is_help: bool) -> bool {
    match order_of(alloc, line) {
        Err(OrderFault::Usage(error)) => error.use_stderr() != is_help,
        Err(OrderFault::Memory) | Ok(_) => false,
    }
}

#[test]
fn usage(rt: HostRuntime) {
    for (line, is_help) in REFUSED.iter() {
        assert!(rt; is_refused(rt.alloc(), line, *is_help), "{line}");
    }
}

/// Whether the message of a usage fault contains this text.
fn tells(alloc: Global, fault: OrderFault, wanted: &str) -> bool {
    match fault {
        OrderFault::Usage(error) => match format!(in alloc; "{error}") {
            Ok(text) => text.as_str().contains(wanted),
            Err(_) => false,
        },
        OrderFault::Memory => false,
    }
}

#[test]
fn a_wrong_rule_is_told_with_the_usage_of_rules(rt: HostRuntime) {
    let fault = task_fault(rt.alloc(), Task::Rules, "there is no such rule");
    assert!(rt; tells(rt.alloc(), fault, "Usage: vmecheck rules [RULE]"));
}
