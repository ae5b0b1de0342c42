//! What the readers of a tracker return, and a frame of the maximum size.

/// With 245 bytes in its item a frame has 257 bytes, and 256 are allowed.
pub const SIZES: &str = "# the greatest size is sent
selected
5 > 00000101000000000002 zeros 244
= None, 0 waiting
# one octet more is sent
selected
5 > 00000101000000000002 zeros 245
= Some(TooLong), 0 waiting
# the greatest size is taken
selected
5 < 00000101000000000002 zeros 244
= None, 0 waiting
# one octet more is taken
selected
5 < 00000101000000000002 zeros 245
= Some(TooLong), 0 waiting
# the greatest size is no cause
selected
5 ! 00000101000000000002 zeros 244
= Some(NoCause), 0 waiting
# one octet more is a cause
selected
5 ! 00000101000000000002 zeros 245
= None, 0 waiting
";

/// What the readers return after each entry.
pub const READ: &str = "# the readers
told Before, 0 waiting, 0 open, due None
0 up
told NotSelected, 0 waiting, 0 open, due Some(10000)
0 > ffff0000000100000001
told NotSelected, 0 waiting, 1 open, due Some(6000)
5 < ffff0000000200000001
told Selected, 0 waiting, 0 open, due None
1000 > 00008101000000000002
told Selected, 1 waiting, 1 open, due Some(46000)
2000 > ffff0000000500000003
told Selected, 1 waiting, 2 open, due Some(8000)
3000 > ffff0000000900000004
told Over, 1 waiting, 2 open, due None
3000 down
told Gone, 1 waiting, 2 open, due None
";

pub const LATE: &str = "# T7 ends at the greatest time
told Before, 0 waiting, 0 open, due None
18446744073709541615 up
told NotSelected, 0 waiting, 0 open, due Some(18446744073709551615)
# T7 ends one past it
told Before, 0 waiting, 0 open, due None
18446744073709541616 up
told NotSelected, 0 waiting, 0 open, due None
18446744073709541616 > ffff0000000100000001
told NotSelected, 0 waiting, 1 open, due Some(18446744073709547616)
# T7 ends before a Linktest.req does by T6
told Before, 0 waiting, 0 open, due None
7 up
told NotSelected, 0 waiting, 0 open, due Some(10007)
5000 > ffff0000000500000001
told NotSelected, 0 waiting, 1 open, due Some(10007)
";

/// Two primaries of equipment that listens expire. Then follows what it may not send or accept.
pub const LISTENING: &str = "# two primaries expire
0 up
10 < ffff0000000100000001
10 > ffff0000000200000001
1000 > 000081010000fffffffe
1000 > 000081010000ffffffff
data Some((1000, Header { session: 0, byte2: 129, byte3: 1, ptype: 0, stype: 0, system: 4294967294 }))
control None
46001 t3 fffffffe
46001 t3 ffffffff
46001 > 00000909000000000000210a000081010000fffffffe
told Selected, 0 waiting, 0 open, due None
46001 > ffff0000000100000002
= Some(Direction), 0 waiting
46001 < ffff0000000200000002
= Some(Direction), 0 waiting
46001 < 00000901000000000002
= Some(Direction), 0 waiting
46001 > 00008901000000000002
= Some(WBit), 0 waiting
";

pub const IN_USE: &str = "# two sent primaries, one that is taken, and a linktest
selected
data None
1000 > 000081010000fffffffe
1000 > 000081010000ffffffff
1000 < 00008101000000000007
data Some((1000, Header { session: 0, byte2: 129, byte3: 1, ptype: 0, stype: 0, system: 4294967294 }))
control None
used ffffffff
free 00000007
1001 > ffff0000000500000003
control Some((1001, Header { session: 65535, byte2: 0, byte3: 0, ptype: 0, stype: 5, system: 3 }))
used 00000003
";
