//! Sessions of a host whose last entry breaks a rule.

pub const BROKEN: &str = "# a time that goes back
selected
4 down
= Some(Backwards), 0 waiting
# a second up
selected
5 up
= Some(NotUp), 0 waiting
# an entry after Separate.req
selected
6 > ffff0000000900000002
6 > ffff0000000500000003
= Some(Ended), 0 waiting
# T6 unlogged
selected
5 > ffff0000000500000002
6006 down
= Some(LinkOverdue), 0 waiting
# an expiry of nothing
selected
5 t3 00000009
= Some(NotDue), 0 waiting
# another PType
selected
5 < 00008101010000000002
= Some(PType), 0 waiting
# another SType
selected
5 < ffff0000000300000002
= Some(SType), 0 waiting
# a control message with text
selected
5 < ffff000000050000000200
= Some(ControlText), 0 waiting
# another device
selected
5 < 00018101000000000002
= Some(Session), 0 waiting
# Select.req of the passive end
selected
5 < ffff0000000100000002
= Some(Direction), 0 waiting
# stream 9 of the host
selected
5 > 00000901000000000002
= Some(Direction), 0 waiting
# a reply with the W bit
selected
5 < 00008102000000000002
= Some(WBit), 0 waiting
# a text that is no item
selected
5 < 0000010100000000000240
= Some(Text), 0 waiting
# a reply to nothing
selected
5 < 00000102000000000002
= Some(NoTransaction), 0 waiting
# a second selection
selected
5 > ffff0000000100000002
5 < ffff0000000200000002
= Some(SelectStatus), 0 waiting
";
