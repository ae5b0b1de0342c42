//! Sessions of a host that listens, and of equipment that connects.

pub const LISTENS: &str = "# a host that listens is asked
0 up
1 < ffff0000000100000002
1 > ffff0000000200000002
1 < 00000901000000000003
1 > 00008101000000000003
= None, 1 waiting
# a host that listens asks
0 up
1 > ffff0000000100000002
= Some(Direction), 0 waiting
# a host that listens gets a response
0 up
1 < ffff0000000200000002
= Some(Direction), 0 waiting
# a host that listens sends stream 9
0 up
1 > 00000901000000000002
= Some(Direction), 0 waiting
";

pub const CONNECTS: &str = "# equipment that connects asks
0 up
1 > ffff0000000100000002
1 < ffff0000000200000002
1 > 00000901000000000003
1 < 00008101000000000003
= None, 0 waiting
# equipment that connects is asked
0 up
1 < ffff0000000100000002
= Some(Direction), 0 waiting
# equipment that connects sends a response
0 up
1 > ffff0000000200000002
= Some(Direction), 0 waiting
# equipment that connects takes stream 9
0 up
1 < 00000901000000000002
= Some(Direction), 0 waiting
";
