//! Laws of the definitions, independent of the code.

ghost use Rattle.capture_tcp.specs.ReaderState.{LogIsEmitted};
ghost use Rattle.capture_tcp.specs.Entries.{PrefixIsEmitted, MessagesAreKept, NothingEmittedAfterALoss};
ghost use Rattle.capture_tcp.specs.KnownStreams.{TurnsGoOn};
ghost use Rattle.capture_tcp.specs.Laws.{AbsorbGivesTheEnd, AllIsShown, AnySegmentsGiveTheSame, DownComesLast, EndContinues, EndIsEnd, FrontOfCapture, LossIsSure, MessagesHaveSizes, NearestIsFound, NearestIsNear, NothingAfterALoss, OneEnd, OnlyFirstIsUp, QueueReleases, QueueStays, QueueTakes, SettledIsSure, StreamsAreKept, EmittedAtPackets, UpComesFirst};
ghost use Rattle.capture_tcp.specs.ReaderInvariant.{ClosedWhereDown, DownIsAll, DownIsClosed, EndingIsSure, EmittedAtOnce, EmittedIsFinal};
ghost use Rattle.capture_tcp.specs.Timestamps.{TimesNeverGoBack};

/// Spans that wait in the order of their offsets give the end of the contiguous bytes.
pub fn waiting_gives_the_end()
    ensures end { AbsorbGivesTheEnd }
    ensures only { OneEnd }
{}

/// The end in the definition is the end of what is buffered, and a queue of what waits finds it.
pub fn the_end_continues()
    ensures end { EndIsEnd }
    ensures queue { EndContinues }
{}

/// The out-of-order packets are a queue in the order of offsets. A packet that is in order releases the queue's front.
/// One that is out of order is inserted into it. The other direction's queue stays as it was.
pub fn queue_delivers_in_order()
    ensures frees { QueueReleases }
    ensures takes { QueueTakes }
    ensures stays { QueueStays }
{}

/// The deliveries that [`DeliveryQueue`](crate::DeliveryQueue) returns segment by segment are those of all segments.
#[tactic(auto, using(crate::proofs::EmitterSteps::turns_go_on))]
pub fn segments_determine_turns()
    ensures { TurnsGoOn }
{}

/// The events that [`Connection`](crate::Connection) emits delivery by delivery are those of the definition.
#[tactic(auto, using(crate::proofs::EmittedEvents::emits_all))]
pub fn turns_emit_the_log()
    ensures { LogIsEmitted }
{}

/// A connection emits nothing, or first that it was established, and that once.
pub fn up_comes_first()
    ensures first { UpComesFirst }
    ensures only { OnlyFirstIsUp }
{}

/// After a connection emits that it was closed, it emits nothing more.
pub fn down_comes_last()
    ensures { DownComesLast }
{}

/// Delivery by delivery, a connection that emits anything has ended exactly if it emits that it was closed. All its
/// events were emitted then, whatever follows, and whatever is lost after that.
pub fn one_that_went_down_is_over()
    ensures over { ClosedWhereDown }
    ensures whole { DownIsClosed }
    ensures all { DownIsAll }
{}

/// The events that a [`Connection`](crate::Connection) has emitted, wherever its capture is cut, are a prefix of the
/// events of these segments and any more.
#[tactic(auto, using(crate::proofs::Connecting::emitted_settled))]
pub fn emitted_is_final()
    ensures { EmittedIsFinal }
{}

/// Once a [`Connection`](crate::Connection) reports its ending during a capture, that is its ending, whatever follows.
pub fn a_known_ending_is_sure()
    ensures { EndingIsSure }
{}

/// Nothing is delayed: all events that the definition gives for the segments so far were emitted at the last of them at
/// the latest. A [`Connection`](crate::Connection) has ended at the segment after which its ending is known, whatever
/// follows.
#[tactic(auto, using(crate::proofs::Connecting::emitted_at_once))]
pub fn settled_is_emitted()
    ensures { EmittedAtOnce }
{}

/// The times of successive events never decrease: each is the latest capture time of the packets up to the event's own.
#[tactic(auto, using(crate::proofs::Later::times_never_go_back))]
pub fn times_never_go_back()
    ensures { TimesNeverGoBack }
{}

/// Each log entry is emitted at one of the connection's packets.
#[tactic(auto, using(crate::proofs::LastingFacts::emitted_at_packets))]
pub fn entries_are_emitted_at_packets()
    ensures { EmittedAtPackets }
{}

/// The messages of a direction are a prefix of its stream: none is skipped, none is invented.
pub fn streams_are_kept()
    ensures { StreamsAreKept }
{}

/// The emitted messages of each end are the first ones that the packets show of it, in their order. This also holds if
/// a Separate or the end of the connection skips some.
#[tactic(auto, using(crate::proofs::EmittedMessages::messages_kept))]
pub fn emitted_messages_are_shown()
    ensures { MessagesAreKept }
{}

/// If nothing of a connection is lost, no retransmission conflicts, and no packet resets it, each complete message of a
/// stream is shown. So a direction's messages do not depend on how the cells are cut into packets, repeated or
/// reordered. This holds for messages whose own cells give their size, as those of HSMS do.
pub fn any_segments_give_the_same()
    ensures all { AllIsShown }
    ensures same { AnySegmentsGiveTheSame }
{}

/// Nothing is shown at or after the first loss or the first conflicting retransmission.
pub fn nothing_after_a_loss()
    ensures { NothingAfterALoss }
{}

/// Nothing is emitted at or after the first loss or the first conflicting retransmission: neither a message, nor that
/// the connection was established or closed.
pub fn nothing_emitted_after_a_loss()
    ensures { NothingEmittedAfterALoss }
{}

/// The next 4,096 packets show whether a packet is the loss. What follows them does not change this.
pub fn a_loss_is_sure()
    ensures settled { SettledIsSure }
    ensures lost { LossIsSure }
{}

/// A capture that is cut anywhere, and whose packets are numbered in order, shows a prefix of what the complete one
/// shows. This holds for messages whose own cells give their size, as those of HSMS do.
pub fn front_of_capture()
    ensures front { FrontOfCapture }
    ensures sizes { MessagesHaveSizes }
{}

/// A capture that is cut anywhere, and whose packets are numbered in order, emits a prefix of what the complete one
/// emits.
#[tactic(auto, using(crate::proofs::EmittedPrefixes::front_reported))]
pub fn prefix_is_emitted()
    ensures { PrefixIsEmitted }
{}

/// The offset that is returned for a sequence number has this number and is near the known offset. Each such offset is
/// returned.
pub fn nearest_is_near()
    ensures near { NearestIsNear }
    ensures found { NearestIsFound }
{}
