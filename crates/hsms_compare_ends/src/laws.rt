//! The law of two endpoints. It is the contract of a function with an empty body.

ghost use Rattle.hsms_compare_ends.specs.OwnEnds.{OwnEndsAgree};

/// Ensures that the logs of two endpoints agree. They process any inputs in any order, and each receives the bytes
/// that the other one sent, in chunks of any size, up to any byte.
pub fn own_ends_agree()
    ensures { OwnEndsAgree }
{}
