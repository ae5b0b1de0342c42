//! The lines of the facts of a pair of connections.

ghost use Rattle.std.specs.Prelude.{◌≡◌, ◌++◌, OnOk, string_bytes};
ghost use Rattle.cli_compare.specs.FactLines.{fact_line, fact_lines, order_line, order_words};

use hsms_compare::LineContradiction;
use hsms_compare_repair::Fact;
use std::alloc::AllocError;

/// Appends the lines of the facts of the frames from one end to the other.
pub fn push_facts(
    text: &mut String,
    sender: &str,
    receiver: &str,
    facts: &[Fact],
) -> Result<(), AllocError>
    ensures { OnOk result (string_bytes text.new ≡ string_bytes text.old ++ fact_lines sender.now receiver.now facts.now) }
{
    for fact in facts {
        push_fact(text, sender, receiver, fact)?;
    }
    Ok(())
}

/// Appends the line of a fact.
fn push_fact(text: &mut String, sender: &str, receiver: &str, fact: &Fact) -> Result<(), AllocError>
    ensures { OnOk result (string_bytes text.new ≡ string_bytes text.old ++ fact_line sender.now receiver.now fact.now) }
{
    match *fact {
        Fact::Skipped {
            sender: k,
            receiver: i,
        } => write!(text, "skipped {sender} line={k} {receiver} line={i}\n"),
        Fact::Swapped {
            sender: k,
            receiver: i,
        } => write!(text, "swapped {sender} line={k} {receiver} line={i}\n"),
        Fact::Differs {
            sender: k,
            receiver: i,
        } => write!(text, "differs {sender} line={k} {receiver} line={i}\n"),
        Fact::Again { receiver: i } => write!(text, "again {receiver} line={i}\n"),
        Fact::Unsent { receiver: i } => write!(text, "unsent {receiver} line={i}\n"),
        Fact::Later {
            receiver: i,
            received,
        } => write!(text, "later {receiver} line={i} received={received}\n"),
        Fact::Unfound { receiver: i } => write!(text, "unfound {receiver} line={i}\n"),
    }
}

/// Appends the line of an order, if the contradiction is one.
pub fn push_order(
    text: &mut String,
    contradiction: &Option<LineContradiction>,
) -> Result<(), AllocError>
    ensures { OnOk result (string_bytes text.new ≡ string_bytes text.old ++ order_line contradiction.now) }
{
    match *contradiction {
        None => Ok(()),
        Some(LineContradiction::Differs { .. }) => Ok(()),
        Some(LineContradiction::Unsent { .. }) => Ok(()),
        Some(
            LineContradiction::Order {
                host,
                host_from,
                equipment,
                equipment_from,
            },
        ) => {
            push_end(text, "order ", "host", host, host_from, " ")?;
            push_end(text, "", "equipment", equipment, equipment_from, "\n")
        }
    }
}

/// Appends an end's line of an order, and the other end's line that sends what it receives, between two texts.
#[tactic(auto, unfolding(crate::specs::FactLines::order_words))]
fn push_end(
    text: &mut String,
    before: &str,
    end: &str,
    line: u64,
    from: u64,
    after: &str,
) -> Result<(), AllocError>
    ensures { OnOk result (string_bytes text.new
        ≡ string_bytes text.old ++ order_words before.now end.now line from after.now) }
{
    write!(text, "{before}{end} line={line} from={from}{after}")
}
