//! Sessions of a host whose last entry is a discarded frame. It needs a cause: a rule that it would break as an
//! accepted frame.

pub const DISCARDS: &str = "# a cause by PType alone
selected
5 ! 00008101010000000002
= None, 0 waiting
# a cause by SType alone
selected
5 ! ffff0000000300000002
= None, 0 waiting
# a cause by a control message's text alone
selected
5 ! ffff000000050000000200
= None, 0 waiting
# a cause by the device alone
selected
5 ! 00018101000000000002
= None, 0 waiting
# a cause by the session ID of a control message alone
selected
5 ! 00000000000500000002
= None, 0 waiting
# a cause by the direction alone
selected
5 ! ffff0000000100000002
= None, 0 waiting
# a cause by the W bit alone
selected
5 > 00008101000000000002
5 ! 00008102000000000002
= None, 1 waiting
# a cause by the text alone
selected
5 > 00008101000000000002
5 ! 0000010200000000000240
= None, 1 waiting
# a cause by system bytes in use alone
selected
5 < 00008101000000000007
5 ! 00008101000000000007
= None, 0 waiting
# a cause by a reply to nothing alone
selected
5 ! 00000102000000000002
= None, 0 waiting
# a cause by Linktest.rsp to nothing alone
selected
5 ! ffff0000000600000002
= None, 0 waiting
# a cause by a second selection alone
selected
5 > ffff0000000100000002
5 ! ffff0000000200000002
= None, 0 waiting
# what a second selection leaves open
selected
5 > ffff0000000100000002
5 ! ffff0000000200000002
6006 down
= Some(LinkOverdue), 0 waiting
# a refused second selection has no cause
selected
5 > ffff0000000100000002
5 ! ffff0001000200000002
= Some(NoCause), 0 waiting
# a reply has no cause
selected
5 > 00008101000000000002
5 ! 00000102000000000002
= Some(NoCause), 1 waiting
# an abort has no cause
selected
5 > 00008101000000000002
5 ! 00000100000000000002
= Some(NoCause), 1 waiting
# a primary with W has no cause
selected
5 > 00008101000000000002
5 ! 00008101000000000002
= Some(NoCause), 1 waiting
# a primary without W has no cause
selected
5 < 00008101000000000007
5 ! 00000101000000000007
= Some(NoCause), 0 waiting
# Linktest.rsp has no cause
selected
5 > ffff0000000500000003
5 ! ffff0000000600000003
= Some(NoCause), 0 waiting
# a Reject has no cause
selected
5 ! 12340004000700000002
= Some(NoCause), 0 waiting
# Separate.req has no cause
selected
5 ! ffff0000000900000002
= Some(NoCause), 0 waiting
# stream 9 of the equipment has no cause
selected
5 ! 00000901000000000002
= Some(NoCause), 0 waiting
# no cause is asked for after Separate.req
selected
5 > ffff0000000900000002
5 ! ffff0000000500000002
= None, 0 waiting
# no cause is asked for after a cut
selected
5 cut length
5 ! ffff0000000500000002
= None, 0 waiting
# a discarded Separate.req ends nothing
connected
3 ! 00000000000900000002
3 < ffff0000000200000001
= None, 0 waiting
";
