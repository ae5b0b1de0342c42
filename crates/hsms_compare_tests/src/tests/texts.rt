//! Texts of two logs, and the expected comparison.

pub const TEXTS: &str = "# equipment receives what the host sent
host hsms-log 1 host active 0 45000 6000 10000 5000 1048576 32
host 0 up
host 0 > ffff0000000100000001
host 4 < ffff0000000200000001
host 60000 > ffff0000000900000003
host 60000 down
equipment hsms-log 1 equipment passive 0 45000 6000 10000 5000 1048576 32
equipment 700001 up
equipment 700002 < ffff0000000100000001
equipment 700002 > ffff0000000200000001
equipment 760002 < ffff0000000900000003
equipment 760002 down
compared None
# equipment's log does not show a reply that the host received
host hsms-log 1 host active 0 45000 6000 10000 5000 1048576 32
host 0 up
host 0 > ffff0000000100000001
host 4 < ffff0000000200000001
host 1000 > 000082290000000000020100
host 46000 t3 00000002
host 46020 ! 0000022a000000000002210100
host 60000 > ffff0000000900000004
host 60000 down
equipment hsms-log 1 equipment passive 0 45000 6000 10000 5000 1048576 32
equipment 700001 up
equipment 700002 < ffff0000000100000001
equipment 700002 > ffff0000000200000001
equipment 701002 < 000082290000000000020100
equipment 760002 < ffff0000000900000004
equipment 760002 down
compared Some(Unsent { receiver: Host, received: 7 })
# each log has the message that it received before the one that it sent
host hsms-log 1 host active 0 45000 6000 10000 5000 1048576 32
host 0 up
host 0 > ffff0000000100000001
host 4 < ffff0000000200000001
host 1001 < 00000102000000000002010241014d410131
host 1001 > 00008101000000000002
host 60000 > ffff0000000900000003
host 60000 down
equipment hsms-log 1 equipment passive 0 45000 6000 10000 5000 1048576 32
equipment 700001 up
equipment 700002 < ffff0000000100000001
equipment 700002 > ffff0000000200000001
equipment 701002 < 00008101000000000002
equipment 701002 > 00000102000000000002010241014d410131
equipment 760002 < ffff0000000900000003
equipment 760002 down
compared Some(Order { host: 5, host_from: 6, equipment: 5, equipment_from: 6 })
# the same header has another text
host hsms-log 1 host active 0 45000 6000 10000 5000 1048576 32
host 0 up
host 0 > ffff0000000100000001
host 4 < ffff0000000200000001
host 1000 > 0000822900000000000241055354415254
equipment hsms-log 1 equipment passive 0 45000 6000 10000 5000 1048576 32
equipment 700001 up
equipment 700002 < ffff0000000100000001
equipment 700002 > ffff0000000200000001
equipment 701002 < 00008229000000000002410453544f50
compared Some(Differs { receiver: Equipment, sent: 5, received: 5 })
# the host's log is a copy of an open connection
host hsms-log 1 host active 0 45000 6000 10000 5000 1048576 32
host 0 up
host 0 > ffff0000000100000001
equipment hsms-log 1 equipment passive 0 45000 6000 10000 5000 1048576 32
equipment 700001 up
equipment 700002 < ffff0000000100000001
equipment 700002 > ffff0000000200000001
equipment 701002 < 00008101000000000002
compared None
";
