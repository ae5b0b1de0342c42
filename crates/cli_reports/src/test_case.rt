//! The XML of JUnit: a test case for each log.

use crate::xml_text::push_text;
use cli_options::sentence;
use explain_lines::name_of;
use hsms_log::Why;
use std::alloc::AllocError;

/// The number of test cases that are written, of failures among them, and of errors.
#[derive(Clone, Copy)]
pub struct CaseCounts {
    pub tests: u64,
    pub failures: u64,
    pub errors: u64,
}

impl CaseCounts {
    /// Appends what precedes the test cases.
    pub fn push_start(self, xml: &mut String) -> Result<(), AllocError> {
        let CaseCounts {
            tests,
            failures,
            errors,
        } = self;
        xml.push_str("<?xml version=\"1.0\" encoding=\"UTF-8\"?>\n<testsuites>\n")?;
        write!(
            xml,
            "<testsuite name=\"hsms audit\" tests=\"{tests}\" failures=\"{failures}\" errors=\"{errors}\">\n"
        )
    }
}

/// What follows the test cases.
pub const END: &str = "</testsuite>\n</testsuites>\n";

/// Appends the test case of a log that passes.
pub fn push_pass(xml: &mut String, name: &str) -> Result<(), AllocError> {
    push_name(xml, name)?;
    xml.push_str("\"/>\n")
}

// The maximum number of characters of an explanation.
const LONGEST: usize = 16_384;

/// Appends the test case of a log that fails: the line, the rule, its text, and how the failure is explained. Of a long
/// explanation the first 16,384 characters are appended, and `..` in a line of its own.
pub fn push_failure(
    xml: &mut String,
    name: &str,
    line: u64,
    why: Why,
    explained: &str,
) -> Result<(), AllocError> {
    push_name(xml, name)?;
    let rule = name_of(why);
    write!(xml, "\"><failure type=\"{rule}\" message=\"line {line}: ")?;
    push_text(xml, reason(why))?;
    xml.push_str("\">\n")?;
    match explained.char_indices().nth(LONGEST) {
        Some((end, _)) => {
            push_text(xml, explained.get(..end).unwrap_or(explained))?;
            xml.push_str("\n..\n")?;
        }
        None => push_text(xml, explained)?,
    }
    xml.push_str("</failure></testcase>\n")
}

/// Appends the test case of a file that cannot be opened.
pub fn push_unopened(xml: &mut String, name: &str) -> Result<(), AllocError> {
    push_name(xml, name)?;
    xml.push_str("\"><error type=\"Open\" message=\"the file cannot be opened\"/></testcase>\n")
}

// Appends the start of a test case, up to its name.
fn push_name(xml: &mut String, name: &str) -> Result<(), AllocError> {
    xml.push_str("<testcase classname=\"hsms.audit\" name=\"")?;
    push_text(xml, name)
}

fn reason(why: Why) -> &'static str {
    match why {
        Why::Unreadable => "this line is unreadable",
        Why::Broken(rule) => sentence(rule),
    }
}
