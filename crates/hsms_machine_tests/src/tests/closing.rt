//! Which message answers which, and which system bytes are free, in sessions of a host.

pub const CLOSING: &str = "# another stream
selected
5 > 00008101000000000002
6 < 00000202000000000002
= Some(NoTransaction), 1 waiting
# the abort of another stream
selected
5 > 00008101000000000002
6 < 00000200000000000002
= Some(NoTransaction), 1 waiting
# other system bytes
selected
5 > 00008101000000000002
6 < 00000102000000000003
= Some(NoTransaction), 1 waiting
# the same direction
selected
5 > 00008101000000000002
6 > 00000102000000000002
= Some(NoTransaction), 1 waiting
# a function further on
selected
5 > 00008101000000000002
6 < 00000104000000000002
= Some(NoTransaction), 1 waiting
# function 254 to 253
selected
6 > 000081fd000000000002
7 < 000001fe000000000002
= None, 0 waiting
# a reply to a primary without W
selected
6 > 00000101000000000002
7 < 00000102000000000002
= Some(NoTransaction), 0 waiting
# a data reply to a Linktest.req
selected
5 > ffff0000000500000003
6 < 00000102000000000003
= Some(NoTransaction), 0 waiting
# Select.rsp to a Linktest.req
selected
5 > ffff0000000500000003
6 < ffff0000000200000003
= Some(NoTransaction), 0 waiting
# Linktest.rsp to data
selected
5 > 00008101000000000002
6 < ffff0000000600000002
= Some(NoTransaction), 1 waiting
# a second selection with status 1
selected
5 > ffff0000000100000002
6 < ffff0001000200000002
= None, 0 waiting
# a Reject of a Linktest.req
selected
5 > ffff0000000500000003
6 < ffff0503000700000003
99999 down
= None, 0 waiting
# a Reject of nothing
selected
6 < ffff0503000700000003
6 > 77770503000700000003
= None, 0 waiting
# a Reject of the same direction
selected
5 > 00008101000000000002
6 > 00000004000700000002
= None, 1 waiting
# a discarded Reject ends nothing
selected
5 > 00008101000000000002
6 ! 0000000400070000000200
7 < 00000102000000000002
= None, 0 waiting
# a number of data for a Linktest.req
selected
5 > 00008101000000000002
6 > ffff0000000500000002
= Some(SystemInUse), 1 waiting
# a number of a Linktest.req for data
selected
5 > ffff0000000500000003
6 > 00008101000000000003
= Some(SystemInUse), 0 waiting
# a number in use, without W
selected
5 > 00008101000000000002
6 > 00000101000000000002
= None, 1 waiting
# a number in use, for Separate.req
selected
5 > 00008101000000000002
6 > ffff0000000900000002
= None, 1 waiting
# a number that is free again
selected
5 > 00008101000000000002
6 < 00000102000000000002
6 > 00008101000000000002
= None, 1 waiting
";
