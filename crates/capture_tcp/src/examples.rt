//! Small captures, and what the definitions state of them.

ghost use Rattle.capture_tcp.specs.InnerExamples.{Asked, EarlyReply, FinWithin, GapAtEnd, HalfOpen, LostMessage, LostReply, OtherCopy, OverUnreported, Refused, RefusedOnce, ResetBetween, SeparateCrossed, UpLate};

/// In six captures, the definitions give the loss and what shows it, the causal order, or the conflicting
/// retransmission.
pub fn small_captures()
    ensures lost { LostReply }
    ensures early { EarlyReply }
    ensures asked { Asked }
    ensures other { OtherCopy }
    ensures gap { GapAtEnd }
    ensures message { LostMessage }
{}

/// In eight captures, the definitions give the events of a log. There are none if the connection was never established,
/// also if a reset ended it. They include when it was established, also if it was refused before, and when it was
/// closed. They have no message that crosses a Separate.
pub fn small_logs()
    ensures refused { Refused }
    ensures once { RefusedOnce }
    ensures half_open { HalfOpen }
    ensures separate { SeparateCrossed }
    ensures reset { ResetBetween }
    ensures initial_state { OverUnreported }
    ensures late { UpLate }
    ensures fin { FinWithin }
{}
