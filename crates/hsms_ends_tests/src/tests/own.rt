//! Own messages and timers.

pub const OWN: &str = "# a host connects and separates
hsms-log 1 host active 0 45000 6000 10000 5000 1048576 32
from 1
start 0
0 up
0 > ffff0000000100000001
send S1F1 W .
refused NotSelected
tick 5
comes ffff0000000200000001
5 < ffff0000000200000001
send S1F2 .
refused NotPrimary
send S9F1 .
refused Nine
separate
5 > ffff0000000900000002
5 down
send S1F1 W .
refused NotUp
# a host loses the connection
hsms-log 1 host active 0 45000 6000 10000 5000 1048576 32
from 1
start 0
0 up
0 > ffff0000000100000001
tick 5
comes ffff0000000200000001
5 < ffff0000000200000001
lost
5 down
lost
refused NotUp
# two primaries of equipment expire
hsms-log 1 equipment passive 0 45000 6000 10000 5000 1048576 32
from 4294967294
start 0
0 up
tick 10
comes ffff0000000100000001
10 < ffff0000000100000001
10 > ffff0000000200000001
tick 1000
send S1F1 W .
1000 > 000081010000fffffffe
send S1F1 W .
1000 > 000081010000ffffffff
tick 46001
46001 t3 fffffffe
46001 t3 ffffffff
46001 > 00000909000000000000210a000081010000fffffffe
46001 > 00000909000000000001210a000081010000ffffffff
# a Linktest.req expires too
hsms-log 1 equipment passive 0 45000 6000 10000 5000 1048576 32
from 4294967294
start 0
0 up
tick 10
comes ffff0000000100000001
10 < ffff0000000100000001
10 > ffff0000000200000001
tick 1000
send S1F1 W .
1000 > 000081010000fffffffe
send S1F1 W .
1000 > 000081010000ffffffff
linktest
1000 > ffff0000000500000000
tick 46001
46001 t3 fffffffe
46001 t3 ffffffff
46001 cut t6
46001 down
# one of two primaries of equipment expires
hsms-log 1 equipment passive 0 45000 6000 10000 5000 1048576 32
from 1
start 0
0 up
comes ffff0000000100000001
0 < ffff0000000100000001
0 > ffff0000000200000001
send S1F1 W .
0 > 00008101000000000001
tick 1
send S1F1 W .
1 > 00008101000000000002
tick 45000
tick 45001
45001 t3 00000001
45001 > 00000909000000000003210a00008101000000000001
# primaries of a host expire
hsms-log 1 host active 0 45000 6000 10000 5000 1048576 32
from 1
start 0
0 up
0 > ffff0000000100000001
comes ffff0000000200000001
0 < ffff0000000200000001
send S1F1 W .
0 > 00008101000000000002
tick 45000
tick 45001
45001 t3 00000002
comes 00000102000000000002
45001 ! 00000102000000000002
# half a message
hsms-log 1 host active 0 45000 6000 10000 5000 1048576 32
from 1
start 0
0 up
0 > ffff0000000100000001
tick 10
octets 0000
tick 5010
tick 5011
5011 cut t8
5011 down
pending 0000
# no Select.rsp
hsms-log 1 host active 0 45000 6000 10000 5000 1048576 32
from 1
start 0
0 up
0 > ffff0000000100000001
tick 6000
tick 6001
6001 cut t6
6001 down
# no Select.req
hsms-log 1 equipment passive 0 45000 6000 10000 5000 1048576 32
from 1
start 0
0 up
tick 10000
tick 10001
10001 cut t7
10001 down
";
