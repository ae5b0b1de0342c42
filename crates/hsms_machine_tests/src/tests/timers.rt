//! Timers of a host: T3, T6 and T7 to the millisecond.

pub const TIMERS: &str = "# a Linktest.req at T6
selected
5 > ffff0000000500000003
6005 down
= None, 0 waiting
# a Linktest.req past T6
selected
5 > ffff0000000500000003
6006 < ffff0000000600000003
= Some(LinkOverdue), 0 waiting
# its answer at T6
selected
5 > ffff0000000500000003
6005 < ffff0000000600000003
99999 down
= None, 0 waiting
# T6 logged at once
selected
5 > ffff0000000500000003
6005 cut t6
= None, 0 waiting
# T6 logged too early
selected
5 > ffff0000000500000003
6004 cut t6
= Some(NotDue), 0 waiting
# T6 of data
selected
5 > 00008101000000000002
6006 cut t6
= Some(NotDue), 1 waiting
# T6 of what the peer asked
selected
5 < ffff0000000500000003
6006 cut t6
= Some(NotDue), 0 waiting
# T6 of Select.req
connected
6001 down
= Some(LinkOverdue), 0 waiting
# T6 of Select.req at once
connected
6000 cut t6
= None, 0 waiting
# an expiry while T6 is overdue
selected
5 > 00008101000000000002
5 > ffff0000000500000003
45006 t3 00000002
45006 cut t6
= None, 0 waiting
# T7 while selected
selected
10005 cut t7
= Some(NotDue), 0 waiting
# T7 at its end
0 up
10000 down
= None, 0 waiting
# T7 after a refused selection
0 up
9 < ffff0000000500000001
10001 cut t8
= Some(LinkOverdue), 0 waiting
# T7 counts from up
7 up
10006 cut t7
= Some(NotDue), 0 waiting
# T7 logged late
0 up
10001 cut t7
= None, 0 waiting
# T7 logged while T6 is overdue
connected
10001 cut t7
= None, 0 waiting
# T6 logged while T7 is overdue
connected
10001 cut t6
= None, 0 waiting
# an expiry of nothing while T7 is overdue
0 up
10001 t3 00000002
= Some(NotDue), 0 waiting
# a wrong length while T6 is overdue
selected
5 > ffff0000000500000003
6006 cut length
= Some(LinkOverdue), 0 waiting
# a wrong length while T7 is overdue
0 up
10001 cut length
= Some(LinkOverdue), 0 waiting
# T8 at any time
selected
5 cut t8
99999 down
= None, 0 waiting
# a primary without W waits for nothing
selected
5 > 00000101000000000002
99999 down
= None, 0 waiting
# what the peer asked isn't overdue
selected
5 < 00008101000000000007
99999 down
= None, 0 waiting
# an expiry of what the peer asked
selected
5 < 00008101000000000007
99999 t3 00000007
= Some(NotDue), 0 waiting
# an expiry of a Linktest.req
selected
5 > ffff0000000500000003
5000 t3 00000003
= Some(NotDue), 0 waiting
# an expiry of another primary
selected
5 > 00008101000000000002
45005 t3 00000003
= Some(NotDue), 1 waiting
# nothing is overdue after a cut
selected
5 > 00008101000000000002
5 > ffff0000000500000003
6 cut t8
99999 down
= None, 1 waiting
# nothing is overdue after Separate.req
selected
5 > 00008101000000000002
5 > ffff0000000500000003
6 < ffff0000000900000002
99999 ! ffff0000000500000003
= None, 1 waiting
";
