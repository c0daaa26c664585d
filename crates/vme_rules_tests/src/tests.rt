use std::alloc::{AllocError, Global};
use vme_rules::{Guide, rules_text};
use vme_text::Text;
use vme_trace::{RULE_COUNT, Rule};

/// The guide of rule B3 as text, as docs/PROTOCOL.md has it.
const OF_B3: &str = "B3: AS falls and BBSY isn't Low near
  line: AS
  section: chapter 2, Data Transfer Bus
  usually: a master that drives AS before it has the bus, or after it has released BBSY; BBSY wasn't recorded and is \
bound to 1
";

/// Whether `text` was made.
pub(crate) fn is_text(made: Result<Text, AllocError>, text: &[u8]) -> bool {
    match made {
        Ok(made) => made.as_bytes() == text,
        Err(_) => false,
    }
}

#[test]
fn a_rule_is_told(rt: HostRuntime) {
    assert!(rt; is_text(rules_text(rt.alloc(), Some(Rule::B3)), OF_B3.as_bytes()));
}

/// How many lines a text has.
fn count_lines(text: &[u8]) -> usize {
    let mut count: usize = 0;
    for byte in text {
        if *byte == b'\n' {
            count = count.saturating_add(1);
        }
    }
    count
}

/// How many lines the text of all rules has, if it begins with the first rule.
fn count_all_lines(alloc: Global) -> Option<usize> {
    match rules_text(alloc, None) {
        Ok(text) => {
            if text
                .as_bytes()
                .starts_with(b"U1: a control line is Unknown")
            {
                Some(count_lines(text.as_bytes()))
            } else {
                None
            }
        }
        Err(_) => None,
    }
}

#[test]
fn all_rules_are_told_in_their_order(rt: HostRuntime) {
    assert!(rt; count_all_lines(rt.alloc()) == Some(4 * RULE_COUNT));
    assert!(rt; Guide::of(Rule::H4).line.as_bytes() == b"the answer line that falls".as_slice());
}
