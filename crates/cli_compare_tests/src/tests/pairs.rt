//! Pairs of logs, and the expected output.

pub const PAIRS: &str = "# nothing is wrong
host hsms-log 1 host active 0 45000 6000 10000 5000 1048576 32
host 0 up
host 0 > ffff0000000100000001
host 4 < ffff0000000200000001
host 1000 > 00008101000000000002
host 1030 < 00000102000000000002010241014d410131
host 2004 < 0000860b0000000000010100
host 2006 > 0000060c000000000001210100
host 9000 > ffff0000000500000003
host 9002 < ffff0000000600000003
host 12000 > ffff0000000900000004
host 12000 down
equipment hsms-log 1 equipment passive 0 45000 6000 10000 5000 1048576 32
equipment 700001 up
equipment 700002 < ffff0000000100000001
equipment 700002 > ffff0000000200000001
equipment 701002 < 00008101000000000002
equipment 701027 > 00000102000000000002010241014d410131
equipment 702001 > 0000860b0000000000010100
equipment 702009 < 0000060c000000000001210100
equipment 709001 < ffff0000000500000003
equipment 709001 > ffff0000000600000003
equipment 712002 < ffff0000000900000004
equipment 712002 down
wants connection host line=2 sent=5 received=4 equipment line=2 sent=4 received=5
wants host: pass entries=11 sent=5 taken=4 discarded=0 expired=0 waiting=0
wants equipment: pass entries=11 sent=4 taken=5 discarded=0 expired=0 waiting=0
wants agree connections=1
result Ok(true)
# each log lacks a message
host hsms-log 1 host active 0 45000 6000 10000 5000 1048576 32
host 0 up
host 0 > ffff0000000100000001
host 4 < ffff0000000200000001
host 1000 > 000082290000000000020100
host 46000 t3 00000002
host 50000 > 000081030000000000030100
host 50500 > 00008101000000000004
host 50530 < 00000102000000000004010241014d410131
host 95000 t3 00000003
host 96000 > ffff0000000900000005
host 96000 down
equipment hsms-log 1 equipment passive 0 45000 6000 10000 5000 1048576 32
equipment 700001 up
equipment 700002 < ffff0000000100000001
equipment 700002 > ffff0000000200000001
equipment 701002 < 000082290000000000020100
equipment 701902 > 0000022a000000000002210100
equipment 750502 < 00008101000000000004
equipment 750527 > 00000102000000000004010241014d410131
equipment 796002 < ffff0000000900000005
equipment 796002 down
wants connection host line=2 sent=5 received=2 equipment line=2 sent=3 received=4
wants skipped host line=7 equipment line=7
wants skipped equipment line=6 host line=9
wants host: pass entries=11 sent=5 taken=2 discarded=0 expired=2 waiting=0
wants equipment: pass entries=9 sent=3 taken=4 discarded=0 expired=0 waiting=0
wants disagree connections=1 skipped=2
result Ok(false)
# two messages are swapped, and one is there twice
host hsms-log 1 host active 0 45000 6000 10000 5000 1048576 32
host 0 up
host 0 > ffff0000000100000001
host 4 < ffff0000000200000001
host 1000 > 00000a0300000000000241034d5f31
host 1001 > 00000a0300000000000341034d5f32
host 2000 > 00000a0300000000000441034d5f33
host 60000 > ffff0000000900000005
host 60000 down
equipment hsms-log 1 equipment passive 0 45000 6000 10000 5000 1048576 32
equipment 700001 up
equipment 700002 < ffff0000000100000001
equipment 700002 > ffff0000000200000001
equipment 701002 < 00000a0300000000000341034d5f32
equipment 701002 < 00000a0300000000000241034d5f31
equipment 702002 < 00000a0300000000000441034d5f33
equipment 702002 < 00000a0300000000000441034d5f33
equipment 760002 < ffff0000000900000005
equipment 760002 down
wants connection host line=2 sent=5 received=1 equipment line=2 sent=1 received=6
wants swapped host line=5 equipment line=6
wants again equipment line=8
wants host: pass entries=8 sent=5 taken=1 discarded=0 expired=0 waiting=0
wants equipment: pass entries=9 sent=1 taken=6 discarded=0 expired=0 waiting=0
wants disagree connections=1 swapped=1 again=1
result Ok(false)
# the same header has another text
host hsms-log 1 host active 0 45000 6000 10000 5000 1048576 32
host 0 up
host 0 > ffff0000000100000001
host 4 < ffff0000000200000001
host 1000 > 0000822900000000000241055354415254
host 1012 < 0000022a000000000002210100
host 60000 > ffff0000000900000003
host 60000 down
equipment hsms-log 1 equipment passive 0 45000 6000 10000 5000 1048576 32
equipment 700001 up
equipment 700002 < ffff0000000100000001
equipment 700002 > ffff0000000200000001
equipment 701002 < 00008229000000000002410453544f50
equipment 701010 > 0000022a000000000002210100
equipment 760002 < ffff0000000900000003
equipment 760002 down
wants connection host line=2 sent=3 received=2 equipment line=2 sent=2 received=3
wants differs host line=5 equipment line=5
wants host: pass entries=7 sent=3 taken=2 discarded=0 expired=0 waiting=0
wants equipment: pass entries=7 sent=2 taken=3 discarded=0 expired=0 waiting=0
wants disagree connections=1 differs=1
result Ok(false)
# equipment's log does not show a reply that the host received
host hsms-log 1 host active 0 45000 6000 10000 5000 1048576 32
host 0 up
host 0 > ffff0000000100000001
host 4 < ffff0000000200000001
host 1000 > 000082290000000000020100
host 2000 > 00008101000000000003
host 2030 < 00000102000000000003010241014d410131
host 46000 t3 00000002
host 46020 ! 0000022a000000000002210100
host 60000 > ffff0000000900000004
host 60000 down
equipment hsms-log 1 equipment passive 0 45000 6000 10000 5000 1048576 32
equipment 700001 up
equipment 700002 < ffff0000000100000001
equipment 700002 > ffff0000000200000001
equipment 701002 < 000082290000000000020100
equipment 702002 < 00008101000000000003
equipment 702027 > 00000102000000000003010241014d410131
equipment 760002 < ffff0000000900000004
equipment 760002 down
wants connection host line=2 sent=4 received=3 equipment line=2 sent=2 received=4
wants unsent host line=9
wants host: pass entries=10 sent=4 taken=2 discarded=1 expired=1 waiting=0
wants equipment: pass entries=8 sent=2 taken=4 discarded=0 expired=0 waiting=0
wants disagree connections=1 unsent=1
result Ok(false)
# each log has the message that it received before the one that it sent
host hsms-log 1 host active 0 45000 6000 10000 5000 1048576 32
host 0 up
host 0 > ffff0000000100000001
host 4 < ffff0000000200000001
host 1001 < 00000102000000000002010241014d410131
host 1001 > 00008101000000000002
host 60000 > ffff0000000900000003
host 60000 down
equipment hsms-log 1 equipment passive 0 45000 6000 10000 5000 1048576 32
equipment 700001 up
equipment 700002 < ffff0000000100000001
equipment 700002 > ffff0000000200000001
equipment 701002 < 00008101000000000002
equipment 701002 > 00000102000000000002010241014d410131
equipment 760002 < ffff0000000900000003
equipment 760002 down
wants connection host line=2 sent=3 received=2 equipment line=2 sent=2 received=3
wants order host line=5 from=6 equipment line=5 from=6
wants host: fail line=5 rule=NoTransaction
wants equipment: pass entries=7 sent=2 taken=3 discarded=0 expired=0 waiting=0
wants disagree connections=1 order=1
result Ok(false)
# the host's log is a copy of an open connection
host hsms-log 1 host active 0 45000 6000 10000 5000 1048576 32
host 0 up
host 0 > ffff0000000100000001
host 4 < ffff0000000200000001
equipment hsms-log 1 equipment passive 0 45000 6000 10000 5000 1048576 32
equipment 0 up
equipment 2 < ffff0000000100000001
equipment 2 > ffff0000000200000001
equipment 1000 < 00008101000000000002
wants connection host line=2 sent=1 received=1 equipment line=2 sent=1 received=2
wants later equipment line=5 received=1
wants host: pass entries=3 sent=1 taken=1 discarded=0 expired=0 waiting=0
wants equipment: pass entries=4 sent=1 taken=2 discarded=0 expired=0 waiting=0
wants agree connections=1
result Ok(true)
# an answer is late between both logs
host hsms-log 1 host active 0 45000 6000 10000 5000 1048576 32
host 0 up
host 0 > ffff0000000100000001
host 4 < ffff0000000200000001
host 1000 > 000082290000000000020100
host 46000 t3 00000002
host 46012 ! 0000022a000000000002210100
host 50000 > 00008101000000000003
host 50010 < 00000102000000000003010241014d410131
host 60000 > ffff0000000900000004
host 60000 down
equipment hsms-log 1 equipment passive 0 45000 6000 10000 5000 1048576 32
equipment 700001 up
equipment 700002 < ffff0000000100000001
equipment 700002 > ffff0000000200000001
equipment 701003 < 000082290000000000020100
equipment 701015 > 0000022a000000000002210100
equipment 750002 < 00008101000000000003
equipment 750007 > 00000102000000000003010241014d410131
equipment 760002 < ffff0000000900000004
equipment 760002 down
wants connection host line=2 sent=4 received=3 equipment line=2 sent=3 received=4
wants expired host line=5 S2F41 W 00000002 cause=between received=5 answered=6 took=12 reply=7 after=45012 between=45000
wants host: pass entries=10 sent=4 taken=2 discarded=1 expired=1 waiting=0
wants equipment: pass entries=9 sent=3 taken=4 discarded=0 expired=0 waiting=0
wants agree connections=1 failed=1
result Ok(true)
# one answer is late by the other clock, and one by both
host hsms-log 1 host active 0 45000 6000 10000 5000 1048576 32
host 0 up
host 0 > ffff0000000100000001
host 4 < ffff0000000200000001
host 1000 > 000082290000000000020100
host 1500 > 000081030000000000030100
host 46000 t3 00000002
host 46500 t3 00000003
host 47009 ! 0000022a000000000002210100
host 51500 ! 000001040000000000030100
host 60000 > ffff0000000900000004
host 60000 down
equipment hsms-log 1 equipment passive 0 45000 6000 10000 5000 1048576 32
equipment 700001 up
equipment 700002 < ffff0000000100000001
equipment 700002 > ffff0000000200000001
equipment 701003 < 000082290000000000020100
equipment 721503 < 000081030000000000030100
equipment 747006 > 0000022a000000000002210100
equipment 751499 > 000001040000000000030100
equipment 760002 < ffff0000000900000004
equipment 760002 down
wants connection host line=2 sent=4 received=3 equipment line=2 sent=3 received=4
wants expired host line=5 S2F41 W 00000002 cause=answered-late received=5 answered=7 took=46003 reply=9 after=46009 between=6
wants expired host line=6 S1F3 W 00000003 cause=peer received=6 answered=8 took=29996 reply=10 after=50000 between=20004
wants host: pass entries=11 sent=4 taken=1 discarded=2 expired=2 waiting=0
wants equipment: pass entries=9 sent=3 taken=4 discarded=0 expired=0 waiting=0
wants agree connections=1 failed=2
result Ok(true)
# a request is discarded, and an answer is
host hsms-log 1 host active 0 45000 6000 10000 5000 1048576 32
host 0 up
host 0 > ffff0000000100000001
host 4 < ffff0000000200000001
host 1000 > 000082290000000000020101010101010100
host 1009 < 00000907000000000001210a00008229000000000002
host 2000 > 00008101000000000003
host 2030 ! 00000102000000000003010241014d4101
host 46000 t3 00000002
host 47000 t3 00000003
host 60000 > ffff0000000900000004
host 60000 down
equipment hsms-log 1 equipment passive 0 45000 6000 10000 5000 1048576 2
equipment 700001 up
equipment 700002 < ffff0000000100000001
equipment 700002 > ffff0000000200000001
equipment 701002 ! 000082290000000000020101010101010100
equipment 701002 > 00000907000000000001210a00008229000000000002
equipment 702002 < 00008101000000000003
equipment 702027 > 00000102000000000003010241014d4101
equipment 760002 < ffff0000000900000004
equipment 760002 down
wants connection host line=2 sent=4 received=3 equipment line=2 sent=3 received=4
wants expired host line=5 S2F41 W 00000002 cause=discarded discarded=5
wants expired host line=7 S1F1 W 00000003 cause=in-time received=7 answered=8 took=25 reply=8 after=30 between=5
wants host: pass entries=11 sent=4 taken=2 discarded=1 expired=2 waiting=0
wants equipment: fail line=8 rule=Text
wants agree connections=1 failed=2
result Ok(false)
# a request is not answered, and one is rejected
host hsms-log 1 host active 0 45000 6000 10000 5000 1048576 32
host 0 up
host 0 > ffff0000000100000001
host 4 < ffff0000000200000001
host 1000 > 000082290000000000020100
host 1012 ! 0000022a000000000001210100
host 2000 > 000087030000000000030100
host 2009 < 00000004000700000003
host 46000 t3 00000002
host 60000 > ffff0000000900000004
host 60000 down
equipment hsms-log 1 equipment passive 0 45000 6000 10000 5000 1048576 32
equipment 700001 up
equipment 700002 < ffff0000000100000001
equipment 700002 > ffff0000000200000001
equipment 701002 < 000082290000000000020100
equipment 701010 > 0000022a000000000001210100
equipment 702002 < 000087030000000000030100
equipment 702007 > 00000004000700000003
equipment 760002 < ffff0000000900000004
equipment 760002 down
wants connection host line=2 sent=4 received=3 equipment line=2 sent=3 received=4
wants expired host line=5 S2F41 W 00000002 cause=unanswered received=5
wants rejected host line=7 S7F3 W 00000003 cause=rejected received=7 rejected=8
wants host: pass entries=10 sent=4 taken=2 discarded=1 expired=1 waiting=0
wants equipment: fail line=6 rule=NoTransaction
wants agree connections=1 failed=2
result Ok(false)
# a reply and a request are lost
host hsms-log 1 host active 0 45000 6000 10000 5000 1048576 32
host 0 up
host 0 > ffff0000000100000001
host 4 < ffff0000000200000001
host 1000 > 00008101000000000002
host 1500 > 000081030000000000030100
host 9000 down
equipment hsms-log 1 equipment passive 0 45000 6000 10000 5000 1048576 32
equipment 700001 up
equipment 700002 < ffff0000000100000001
equipment 700002 > ffff0000000200000001
equipment 701002 < 00008101000000000002
equipment 701027 > 00000102000000000002010241014d410131
equipment 701030 down
wants connection host line=2 sent=3 received=1 equipment line=2 sent=2 received=2
wants ended host line=5 S1F1 W 00000002 cause=reply-missing received=5 answered=6 took=25
wants ended host line=6 S1F3 W 00000003 cause=request-missing
wants host: pass entries=6 sent=3 taken=1 discarded=0 expired=0 waiting=2
wants equipment: pass entries=6 sent=2 taken=2 discarded=0 expired=0 waiting=0
wants agree connections=1 failed=2
result Ok(true)
# the other end ends the session
host hsms-log 1 host active 0 45000 6000 10000 5000 1048576 32
host 0 up
host 0 > ffff0000000100000001
host 4 < ffff0000000200000001
host 1000 > 000082290000000000020100
host 9000 < ffff0000000900000001
host 9000 down
equipment hsms-log 1 equipment passive 0 45000 6000 10000 5000 1048576 32
equipment 700001 up
equipment 700002 < ffff0000000100000001
equipment 700002 > ffff0000000200000001
equipment 701002 < 000082290000000000020100
equipment 708998 > ffff0000000900000001
equipment 708998 down
wants connection host line=2 sent=2 received=2 equipment line=2 sent=2 received=2
wants ended host line=5 S2F41 W 00000002 cause=ended received=5 ended=6
wants host: pass entries=6 sent=2 taken=2 discarded=0 expired=0 waiting=1
wants equipment: pass entries=6 sent=2 taken=2 discarded=0 expired=0 waiting=0
wants agree connections=1 failed=1
result Ok(true)
# a log has no connection
host hsms-log 1 host active 0 45000 6000 10000 5000 1048576 32
equipment hsms-log 1 equipment passive 0 45000 6000 10000 5000 1048576 32
equipment 0 up
equipment 2 < ffff0000000100000001
equipment 2 > ffff0000000200000001
wants host: pass entries=0 sent=0 taken=0 discarded=0 expired=0 waiting=0
wants equipment: pass entries=3 sent=1 taken=1 discarded=0 expired=0 waiting=0
wants undecided connections=0
result Err(Undecided)
# a contradiction of logs of several connections may be one of two connections
host hsms-log 2 host active 0 45000 6000 10000 5000 1048576 32
host 0 up
host 0 > ffff0000000100000001
host 4 < ffff0000000200000001
host 1000 > 00008101000000000002
host 2000 down
equipment hsms-log 2 equipment passive 0 45000 6000 10000 5000 1048576 32
equipment 0 up
equipment 2 < ffff0000000100000001
equipment 2 > ffff0000000200000001
equipment 1000 < 00008101000000000009
wants host: pass entries=5 sent=2 taken=1 discarded=0 expired=0 waiting=1
wants equipment: pass entries=4 sent=1 taken=2 discarded=0 expired=0 waiting=0
wants undecided connections=0
result Err(Undecided)
# another connection follows in a log
host hsms-log 2 host active 0 45000 6000 10000 5000 1048576 32
host 0 up
host 0 > ffff0000000100000001
host 4 < ffff0000000200000001
host 1000 down
host 2000 up
equipment hsms-log 2 equipment passive 0 45000 6000 10000 5000 1048576 32
equipment 0 up
equipment 2 < ffff0000000100000001
equipment 2 > ffff0000000200000001
equipment 1001 down
wants connection host line=2 sent=1 received=1 equipment line=2 sent=1 received=1
wants host: pass entries=5 sent=1 taken=1 discarded=0 expired=0 waiting=0
wants equipment: pass entries=4 sent=1 taken=1 discarded=0 expired=0 waiting=0
wants undecided connections=1
result Err(Undecided)
# a log fails, and the pair is undecided
host hsms-log 1 host active 0 45000 6000 10000 5000 1048576 32
host 0 down
equipment hsms-log 1 equipment passive 0 45000 6000 10000 5000 1048576 32
equipment 0 up
equipment 2 < ffff0000000100000001
equipment 2 > ffff0000000200000001
wants host: fail line=2 rule=NotUp
wants equipment: pass entries=3 sent=1 taken=1 discarded=0 expired=0 waiting=0
wants undecided connections=0
result Ok(false)
# the first line of a log has no settings
host hsms-log 3 host active
equipment hsms-log 1 equipment passive 0 45000 6000 10000 5000 1048576 32
equipment 0 up
equipment 2 < ffff0000000100000001
equipment 2 > ffff0000000200000001
first Err(Logs(FirstLineOfFirst))
# the first line of the second log has no settings
host hsms-log 1 host active 0 45000 6000 10000 5000 1048576 32
host 0 up
host 0 > ffff0000000100000001
host 4 < ffff0000000200000001
equipment 0 up
first Err(Logs(FirstLineOfSecond))
# both logs are of the host
host hsms-log 1 host active 0 45000 6000 10000 5000 1048576 32
host 0 up
host 0 > ffff0000000100000001
host 4 < ffff0000000200000001
equipment hsms-log 1 host active 5 45000 6000 10000 5000 1048576 32
equipment 0 up
equipment 0 > ffff0000000100000001
equipment 4 < ffff0000000200000001
result Err(Logs(SameRole))
# both logs are of the active end
host hsms-log 1 host active 0 45000 6000 10000 5000 1048576 32
host 0 up
host 0 > ffff0000000100000001
host 4 < ffff0000000200000001
equipment hsms-log 1 equipment active 5 45000 6000 10000 5000 1048576 32
result Err(Logs(SameLink))
# the device IDs differ
host hsms-log 1 host active 0 45000 6000 10000 5000 1048576 32
host 0 up
host 0 > ffff0000000100000001
host 4 < ffff0000000200000001
equipment hsms-log 1 equipment passive 5 45000 6000 10000 5000 1048576 32
equipment 0 up
equipment 2 < ffff0000000100000001
equipment 2 > ffff0000000200000001
result Err(Logs(Device))
";
