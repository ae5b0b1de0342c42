//! Laws of two logs of one conversation. Each is the contract of a function with an empty body.

ghost use Rattle.hsms_compare.specs.Laws.{NothingIsMadeUp, AgreeIsChannelsAndOrder, CausesComeFirst, OneAgreement, AgreeBothWays, OneOutcome, FinalOutcomeStays};
ghost use Rattle.hsms_compare.specs.ByteStreams.{StreamedLogsAgree};

/// Ensures that what an endpoint received is a prefix of what the other endpoint sent.
pub fn nothing_is_made_up()
    ensures { NothingIsMadeUp }
{}

/// Ensures that two logs agree if and only if both directions are prefixes and one order of all entries has each
/// receipt after its sending.
pub fn agree_is_channels_and_order()
    ensures { AgreeIsChannelsAndOrder }
{}

/// Ensures that no frame is received before it is sent.
pub fn causes_come_first()
    ensures { CausesComeFirst }
{}

/// Ensures that the longest prefixes that agree are unique, and that either log may be taken as the host's.
pub fn one_agreement()
    ensures one { OneAgreement }
    ensures both_ways { AgreeBothWays }
{}

/// Ensures that two endpoints log one conversation if they receive each other's bytes over two streams, in chunks of
/// any size. The order of their turns does not matter, nor where it stops.
pub fn streamed_logs_agree()
    ensures { StreamedLogsAgree }
{}

/// Ensures that a request has one outcome, and that a final outcome does not change, whatever follows in both logs.
pub fn outcomes()
    ensures one { OneOutcome }
    ensures stays { FinalOutcomeStays }
{}
