//! Laws of the definitions that count primaries. A law is a function that does nothing: its contract is what is
//! proved.

ghost use Rattle.explain_statistics.specs.ReplyStats.{FatesAddUp};

/// Each closed primary was answered, aborted, expired or rejected, and exactly one of these.
pub fn fates_add_up()
    ensures { FatesAddUp }
{}
