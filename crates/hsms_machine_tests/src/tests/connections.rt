//! Logs of several connections.

/// A connection that is closed while a primary waits for its reply.
pub const FIRST: &str = "0 up
0 > ffff0000000100000001
5 < ffff0000000200000001
10 > 00008101000000000002
20 down
";

/// Sessions in the version of one connection.
pub const ALONE: &str = "# a second connection in version 1
first
90000 up
= Some(NotUp), 1 waiting
";

/// Sessions in the version of several connections.
pub const CONNECTIONS: &str = "# the first connection
first
= None, 1 waiting
# the second comes up
first
90000 up
= None, 0 waiting
# the second is used with the numbers of the first
first
90000 up
90000 > ffff0000000100000001
90001 < ffff0000000200000001
90002 > 00008101000000000002
90003 < 00000102000000000002
90004 down
= None, 0 waiting
# no down before the second
selected
10 > 00008101000000000002
90000 up
= Some(NotUp), 1 waiting
# a cut before the second
selected
10 cut length
11 up
= Some(NotUp), 0 waiting
# time goes back
first
19 up
= Some(Backwards), 1 waiting
# a second down
first
21 down
= Some(NotUp), 1 waiting
# the selection of the first
first
90000 up
90000 < 00000102000000000002
= Some(NotSelected), 0 waiting
# a reply to the first
first
90000 up
90000 > ffff0000000100000001
90001 < ffff0000000200000001
90001 < 00000102000000000002
= Some(NoTransaction), 0 waiting
# T7 of the second
first
90000 up
100001 down
= Some(LinkOverdue), 0 waiting
";
