//! The form of messages, in sessions of a host that connects.

pub const FORMS: &str = "# Select.req with text
selected
5 > ffff000000010000000200
= Some(ControlText), 0 waiting
# Select.rsp with text
selected
5 > ffff0000000100000002
6 < ffff000000020000000200
= Some(ControlText), 0 waiting
# Linktest.rsp with text
selected
5 > ffff0000000500000003
6 < ffff000000060000000300
= Some(ControlText), 0 waiting
# Reject.req with text
selected
5 < ffff050300070000000300
= Some(ControlText), 0 waiting
# Separate.req with text
selected
5 < ffff000000090000000300
= Some(ControlText), 0 waiting
# Select.req with session ID 0
selected
5 > 00000000000100000002
= Some(Session), 0 waiting
# Select.rsp with session ID 0
selected
5 > ffff0000000100000002
6 < 00000000000200000002
= Some(Session), 0 waiting
# Linktest.req with session ID 0
selected
5 > 00000000000500000002
= Some(Session), 0 waiting
# Linktest.rsp with session ID 0
selected
5 > ffff0000000500000003
6 < 00000000000600000003
= Some(Session), 0 waiting
# Separate.req with session ID 0
selected
5 > 00000000000900000002
= Some(Session), 0 waiting
# a primary with session ID FFFF
selected
5 > ffff8101000000000002
= Some(Session), 0 waiting
# a reply with session ID FFFF
selected
5 > 00008101000000000002
6 < ffff0102000000000002
= Some(Session), 1 waiting
# Reject.req with another reason
selected
5 > 00008101000000000002
6 < 0000ff00000700000002
6 < 00000102000000000002
= Some(NoTransaction), 0 waiting
# Select.rsp of the active end
selected
5 > ffff0000000200000002
= Some(Direction), 0 waiting
# Deselect.req
selected
5 > ffff0000000300000002
= Some(SType), 0 waiting
# Deselect.rsp
selected
5 < ffff0000000400000002
= Some(SType), 0 waiting
# SType 8
selected
5 < ffff0000000800000002
= Some(SType), 0 waiting
# SType 10
selected
5 < ffff0000000a00000002
= Some(SType), 0 waiting
# bytes that carry nothing
selected
5 > ffff1234000500000003
6 < ffff5678000600000003
7 < ffff9abc000900000003
= None, 0 waiting
# a data message's function 0 without a request
selected
5 < 00000100000000000002
= Some(NoTransaction), 0 waiting
# stream 0
selected
5 > 00008001000000000002
6 < 00000002000000000002
= None, 0 waiting
# a reply of stream 9
selected
5 < 00000902000000000002
= Some(NoTransaction), 0 waiting
# stream 9 of the equipment
selected
5 < 00000901000000000002
= None, 0 waiting
";
