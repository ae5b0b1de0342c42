//! Laws of the failure kinds. A law is a function that does nothing: its contract is what is proved.

ghost use Rattle.explain_lines.specs.FailureKind.{FramesAreApart, SortsAreApart};

/// Failures of the same kind break the same rule, by the same event, and their frames have the same number.
pub fn sorts_are_apart()
    ensures { SortsAreApart }
{}

/// Frames with the same number have the same session ID and kind; data frames also have the same stream, W bit and
/// function.
pub fn frames_are_apart()
    ensures { FramesAreApart }
{}
