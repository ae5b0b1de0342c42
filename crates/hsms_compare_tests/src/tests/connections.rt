//! Logs of several connections.

pub const CONNECTIONS: &str = "# connections are paired in order
host 0 up
host 0 > ffff0000000100000001
host 6001 cut t6
host 6001 down
host 20000 up
host 20000 > ffff0000000100000002
host 20004 < ffff0000000200000002
host 21000 > 00008101000000000003
host 21030 < 00000102000000000003010241014d410131
host 80000 > ffff0000000900000004
host 80000 down
host 90000 up
host 90000 > ffff0000000100000005
host 90004 < ffff0000000200000005
host 91000 > 00008101000000000006
host 91030 < 00000102000000000006010241014d410131
host 99000 > ffff0000000900000007
host 99000 down
host 110000 up
host 110000 > ffff0000000100000008
host 110003 < ffff0000000200000008
equipment 720001 up
equipment 720002 < ffff0000000100000002
equipment 720002 > ffff0000000200000002
equipment 721002 < 00008101000000000003
equipment 721027 > 00000102000000000003010241014d410131
equipment 780002 < ffff0000000900000004
equipment 780002 down
equipment 781000 up
equipment 781500 down
equipment 790001 up
equipment 790002 < ffff0000000100000005
equipment 790002 > ffff0000000200000005
equipment 791002 < 00008101000000000006
equipment 791027 > 00000102000000000006010241014d410131
equipment 799002 < ffff0000000900000007
equipment 799002 down
first Some(LogContradiction { host: 0, equipment: 0, contradiction: Differs(Equipment, 1, 1) })
# one log has a connection more
host 20000 up
host 20000 > ffff0000000100000002
host 20004 < ffff0000000200000002
host 21000 > 00008101000000000003
host 21030 < 00000102000000000003010241014d410131
host 80000 > ffff0000000900000004
host 80000 down
host 90000 up
host 90000 > ffff0000000100000005
host 90004 < ffff0000000200000005
host 91000 > 00008101000000000006
host 91030 < 00000102000000000006010241014d410131
host 99000 > ffff0000000900000007
host 99000 down
host 110000 up
host 110000 > ffff0000000100000008
host 110003 < ffff0000000200000008
equipment 720001 up
equipment 720002 < ffff0000000100000002
equipment 720002 > ffff0000000200000002
equipment 721002 < 00008101000000000003
equipment 721027 > 00000102000000000003010241014d410131
equipment 780002 < ffff0000000900000004
equipment 780002 down
equipment 790001 up
equipment 790002 < ffff0000000100000005
equipment 790002 > ffff0000000200000005
equipment 791002 < 00008101000000000006
equipment 791027 > 00000102000000000006010241014d410131
equipment 799002 < ffff0000000900000007
equipment 799002 down
first None
# the second connections differ
host 0 up
host 0 > 00000a03000000000001
host 0 down
host 0 up
host 0 > 00000a03000000000001
host 0 down
equipment 0 up
equipment 0 < 00000a03000000000001
equipment 0 down
equipment 0 up
equipment 0 < 00000a03000000000002
equipment 0 down
first Some(LogContradiction { host: 3, equipment: 3, contradiction: Differs(Equipment, 1, 1) })
# a connection that is not the last one is not open
host 0 up
host 0 cut t7
host 0 up
host 0 > 00000a03000000000001
host 0 down
equipment 0 up
equipment 0 < 00000a03000000000001
equipment 0 down
equipment 0 up
equipment 0 < 00000a03000000000001
equipment 0 down
first Some(LogContradiction { host: 0, equipment: 0, contradiction: Unsent(Equipment, 1) })
# the last connection is open
host 0 up
host 0 > 00000a03000000000001
host 0 down
host 0 up
equipment 0 up
equipment 0 < 00000a03000000000001
equipment 0 down
equipment 0 up
equipment 0 < 00000a03000000000001
equipment 0 down
first None
host 0 down
first Some(LogContradiction { host: 3, equipment: 3, contradiction: Unsent(Equipment, 1) })
# one log has no entries
equipment 0 up
equipment 0 < 00000a03000000000001
equipment 0 down
first None
";
