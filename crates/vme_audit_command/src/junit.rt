//! The results of an audit as a JUnit file: one test suite, with one test case for each dump.

use std::alloc::{AllocError, Global};
use vme_audit::Outcome;
use vme_audit_lines::{BreakCategory, break_line, count_lines, outcome_line, refusal_text};
use vme_auditor::{AuditBreak, AuditFindings, BreakCounts};
use vme_stream::Refusal;
use vme_text::Text;

/// The greatest number of breaks of a kind that a test case names.
const MOST_NAMED: u32 = 100;

/// Appends a text in UTF-8 as the value of an attribute, escaped as XML requires. `?` replaces what XML can't have.
fn push_quoted(text: &mut Text, value: &[u8]) -> Result<(), AllocError> {
    text.push(b"\"")?;
    let mut at = 0;
    while at < value.len() {
        let byte = value[at];
        // XML excludes U+FFFE and U+FFFF, the two characters after U+FFFD that have three bytes.
        if value[at..].starts_with(b"\xEF\xBF\xBE") || value[at..].starts_with(b"\xEF\xBF\xBF") {
            text.push(b"?")?;
            at += 3;
            continue;
        }
        match byte {
            b'&' => text.push(b"&amp;")?,
            b'<' => text.push(b"&lt;")?,
            b'>' => text.push(b"&gt;")?,
            b'"' => text.push(b"&quot;")?,
            b'\t' => text.push(b"&#9;")?,
            b'\n' => text.push(b"&#10;")?,
            b'\r' => text.push(b"&#13;")?,
            0..b' ' => text.push(b"?")?,
            _ => text.push(&[byte])?,
        }
        at += 1;
    }
    text.push(b"\"")
}

/// A line without its line feed.
fn without_line_feed(line: &[u8]) -> &[u8] {
    match line.split_last() {
        Some((b'\n', rest)) => rest,
        _ => line,
    }
}

/// Appends an element of this name that has only a message.
fn push_message(text: &mut Text, element: &[u8], line: &[u8]) -> Result<(), AllocError> {
    text.push(b"<")?;
    text.push(element)?;
    text.push(b" message=")?;
    push_quoted(text, without_line_feed(line))?;
    text.push(b"/>")
}

/// The results of a dump.
#[derive(Debug, Drop)]
pub(crate) struct TestCase {
    /// Whether a JUnit file is wanted.
    is_wanted: bool,
    /// The breaks that aren't allowed, or else why the recording isn't covered, as elements.
    failures: Text,
    /// How many breaks these name, at most `MOST_NAMED`.
    failed: u32,
    /// The allowed breaks, and the counts, in lines.
    lines: Text,
    /// How many breaks these name, at most `MOST_NAMED`.
    allowed: u32,
}

impl TestCase {
    /// The test case of a dump before anything is audited. If no file is wanted, nothing is kept.
    pub fn new(alloc: Global, is_wanted: bool) -> TestCase {
        TestCase {
            is_wanted,
            failures: Text::new(alloc),
            failed: 0,
            lines: Text::new(alloc),
            allowed: 0,
        }
    }

    /// Adds a break. It fails if memory runs out, and then nothing is said of the test case.
    pub fn take(
        &mut self,
        alloc: Global,
        category: BreakCategory,
        found: &AuditBreak,
    ) -> Result<(), AllocError> {
        if !self.is_wanted {
            return Ok(());
        }
        match category {
            BreakCategory::Allowed => {
                if self.allowed < MOST_NAMED {
                    self.allowed += 1;
                    let line = break_line(alloc, b"", category, found)?;
                    self.lines.push(line.as_bytes())?;
                }
            }
            BreakCategory::Broken | BreakCategory::Unreadable => {
                if self.failed < MOST_NAMED {
                    self.failed += 1;
                    let line = break_line(alloc, b"", category, found)?;
                    push_message(&mut self.failures, b"failure", line.as_bytes())?;
                }
            }
        }
        Ok(())
    }

    /// Adds the counts and the outcome of the dump's audit. It fails if memory runs out, and then nothing is said of
    /// the test case.
    pub fn end(
        &mut self,
        alloc: Global,
        counts: BreakCounts,
        findings: &AuditFindings,
        outcome: &Outcome,
    ) -> Result<(), AllocError> {
        if !self.is_wanted {
            return Ok(());
        }
        let lines = count_lines(alloc, b"", counts, findings)?;
        self.lines.push(lines.as_bytes())?;
        if let Outcome::NotCovered { .. } = outcome {
            let line = outcome_line(alloc, b"", outcome)?;
            push_message(&mut self.failures, b"failure", line.as_bytes())?;
        }
        Ok(())
    }
}

/// The test cases of the dumps that were audited.
#[derive(Debug, Drop)]
pub struct TestSuite {
    /// Whether a JUnit file is wanted.
    is_wanted: bool,
    /// The test cases, as elements.
    cases: Text,
}

impl TestSuite {
    /// The suite before the first dump. If no file is wanted, nothing is kept.
    pub fn new(alloc: Global, is_wanted: bool) -> TestSuite {
        TestSuite {
            is_wanted,
            cases: Text::new(alloc),
        }
    }

    /// An empty test case for the next dump.
    pub(crate) fn case(&self, alloc: Global) -> TestCase {
        TestCase::new(alloc, self.is_wanted)
    }

    /// Adds the test case of the dump of this name, with its refusal if there is one.
    pub(crate) fn take(
        &mut self,
        alloc: Global,
        name: &[u8],
        case: &TestCase,
        refusal: Option<&Refusal>,
    ) -> Result<(), AllocError> {
        if !self.is_wanted {
            return Ok(());
        }
        let text = &mut self.cases;
        text.push(b"<testcase name=")?;
        push_quoted(text, name)?;
        text.push(b">")?;
        text.push(case.failures.as_bytes())?;
        if let Some(refusal) = refusal {
            let line = refusal_text(alloc, refusal)?;
            push_message(text, b"error", line.as_bytes())?;
        }
        if !case.lines.as_bytes().is_empty() {
            text.push(b"<system-out>")?;
            text.push(case.lines.as_bytes())?;
            text.push(b"</system-out>")?;
        }
        text.push(b"</testcase>\n")
    }
}

/// The JUnit file of a suite. It fails if memory runs out.
pub fn junit_file(alloc: Global, suite: &TestSuite) -> Result<Text, AllocError> {
    let mut text = Text::new(alloc);
    text.push(b"<?xml version=\"1.0\" encoding=\"UTF-8\"?>\n<testsuite name=\"vmecheck\">\n")?;
    text.push(suite.cases.as_bytes())?;
    text.push(b"</testsuite>\n")?;
    Ok(text)
}
