//! Sessions of a host: replies and expiries, and what may follow them.

pub const SESSIONS: &str = "# a reply at T3
selected
1000 > 00008101000000000002
46000 < 000001020000000000020102410141410142
= None, 0 waiting
# a reply after T3
selected
1000 > 00008101000000000002
46001 < 000001020000000000020102410141410142
= Some(T3Overdue), 1 waiting
# a reply after its expiry
selected
1000 > 00008101000000000002
46000 t3 00000002
46500 < 00000102000000000002
= Some(NoTransaction), 0 waiting
# a discarded reply after its expiry
selected
1000 > 00008101000000000002
46000 t3 00000002
46500 ! 00000102000000000002
= None, 0 waiting
# one of two expiries
selected
1000 > 00008101000000000002
1000 > 00008101000000000003
46001 t3 00000002
46001 > ffff0000000500000004
= Some(T3Overdue), 1 waiting
# two of two expiries
selected
1000 > 00008101000000000002
1000 > 00008101000000000003
46001 t3 00000002
46001 t3 00000003
46001 > ffff0000000500000004
= None, 0 waiting
# function 255 answered by 0
selected
6 > 000081ff000000000002
7 < 00000100000000000002
= None, 0 waiting
# function 255 answered by 2
selected
6 > 000081ff000000000002
7 < 00000102000000000002
= Some(NoTransaction), 1 waiting
# one number in both directions
selected
6 > 00008101000000000002
6 < 00008101000000000002
= None, 1 waiting
# one number twice in one direction
selected
6 > 00008101000000000002
6 > 00008101000000000002
= Some(SystemInUse), 1 waiting
# data before selection
connected
3 < 00008101000000000002
= Some(NotSelected), 0 waiting
# discarded data before selection
connected
3 ! 00008101000000000002
= None, 0 waiting
# a discard without a cause
selected
5 ! ffff0000000500000002
= Some(NoCause), 0 waiting
# the greatest time
18446744073709551615 up
18446744073709551615 > ffff0000000100000001
= None, 0 waiting
# a discarded reply closes nothing
selected
1000 > 00008101000000000002
2000 ! 00008102000000000002
46500 down
= Some(T3Overdue), 1 waiting
# T6 logged
selected
5 > ffff0000000500000002
6006 cut t6
6006 down
= None, 0 waiting
# T3 logged too early
selected
1000 > 00008101000000000002
45999 t3 00000002
= Some(NotDue), 1 waiting
# T7 unlogged
0 up
10001 down
= Some(LinkOverdue), 0 waiting
# T7 logged
0 up
10000 cut t7
99999 down
= None, 0 waiting
# T7 logged too early
0 up
9999 cut t7
= Some(NotDue), 0 waiting
# a reply after a Reject
selected
6 > 00008101000000000002
7 < 12340004000700000002
8 < 00000102000000000002
= Some(NoTransaction), 0 waiting
# data after a refused selection
connected
3 < ffff0002000200000001
4 < 00008101000000000002
= Some(NotSelected), 0 waiting
";
