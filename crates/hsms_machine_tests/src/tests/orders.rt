//! Sessions of a host whose last entry breaks several rules: the result is the first one.

pub const ORDERS: &str = "# Backwards before NotUp
selected
4 up
= Some(Backwards), 0 waiting
# Backwards before Ended
selected
6 > ffff0000000900000002
5 > ffff0000000900000003
= Some(Backwards), 0 waiting
# Backwards before PType
selected
4 < 00008101010000000002
= Some(Backwards), 0 waiting
# NotUp before Ended
selected
6 > ffff0000000900000002
6 down
6 > ffff0000000900000003
= Some(NotUp), 0 waiting
# NotUp before PType
0 < 00008101010000000002
= Some(NotUp), 0 waiting
# NotUp before NotDue
0 t3 00000002
= Some(NotUp), 0 waiting
# NotUp before T3Overdue
selected
5 > 00008101000000000002
45006 up
= Some(NotUp), 1 waiting
# Ended before NotDue
selected
6 > ffff0000000900000002
6 t3 00000002
= Some(Ended), 0 waiting
# a cut after Separate.req
selected
6 > ffff0000000900000002
6 cut length
= Some(Ended), 0 waiting
# a cut by T8 after a cut
selected
6 cut length
6 cut t8
= Some(Ended), 0 waiting
# a cut by T7 after Separate.req
connected
6 > ffff0000000900000002
10000 cut t7
= Some(Ended), 0 waiting
# Linktest.req after Separate.req was taken
selected
6 < ffff0000000900000002
6 < ffff0000000500000003
= Some(Ended), 0 waiting
# Ended before PType
selected
6 > ffff0000000900000002
6 < 00008101010000000002
= Some(Ended), 0 waiting
# T3Overdue before LinkOverdue
selected
5 > 00008101000000000002
5 > ffff0000000500000003
45006 down
= Some(T3Overdue), 1 waiting
# T3Overdue before NotDue
selected
5 > 00008101000000000002
45006 cut t7
= Some(T3Overdue), 1 waiting
# T3Overdue before PType
selected
5 > 00008101000000000002
45006 < 00008101010000000002
= Some(T3Overdue), 1 waiting
# T3Overdue before NoCause
selected
5 > 00008101000000000002
45006 ! ffff0000000500000002
= Some(T3Overdue), 1 waiting
# T3Overdue before a cut by T6
selected
5 > 00008101000000000002
5 > ffff0000000500000003
45006 cut t6
= Some(T3Overdue), 1 waiting
# LinkOverdue before PType
selected
5 > ffff0000000500000003
6006 < 00008101010000000002
= Some(LinkOverdue), 0 waiting
# LinkOverdue before NoCause
selected
5 > ffff0000000500000003
6006 ! ffff0000000500000002
= Some(LinkOverdue), 0 waiting
# LinkOverdue before a cut by T8
selected
5 > ffff0000000500000003
6006 cut t8
= Some(LinkOverdue), 0 waiting
# PType before another SType
selected
5 < ffff0000010300000002
= Some(PType), 0 waiting
# PType before the text of a control message
selected
5 < ffff000001050000000200
= Some(PType), 0 waiting
# PType before Session
selected
5 < 00018101010000000002
= Some(PType), 0 waiting
# SType before Session and a text
selected
5 < 0001810100030000000200
= Some(SType), 0 waiting
# ControlText before Session
selected
5 < 0000000000050000000200
= Some(ControlText), 0 waiting
# ControlText before Direction
selected
5 < ffff000000010000000200
= Some(ControlText), 0 waiting
# Session before Direction
selected
5 < 00000000000100000002
= Some(Session), 0 waiting
# Session of data before Direction
selected
5 > 00010901000000000002
= Some(Session), 0 waiting
# Session before NotSelected
connected
3 < 00018101000000000002
= Some(Session), 0 waiting
# Session before WBit
selected
5 < 00018102000000000002
= Some(Session), 0 waiting
# Direction before NotSelected
connected
3 > 00000901000000000002
= Some(Direction), 0 waiting
# Direction before WBit
selected
5 > 00008901000000000002
= Some(Direction), 0 waiting
# NotSelected before WBit
connected
3 < 00008102000000000002
= Some(NotSelected), 0 waiting
# NotSelected before Text
connected
3 < 0000010100000000000240
= Some(NotSelected), 0 waiting
# NotSelected before NoTransaction
connected
3 < 00000102000000000002
= Some(NotSelected), 0 waiting
# WBit before Text
selected
5 < 0000810200000000000240
= Some(WBit), 0 waiting
# WBit of stream 9
selected
5 < 00008901000000000002
= Some(WBit), 0 waiting
# Text before SystemInUse
selected
5 < 00008101000000000007
5 < 0000810100000000000740
= Some(Text), 0 waiting
# Text before NoTransaction
selected
5 < 0000010200000000000240
= Some(Text), 0 waiting
# NoTransaction before SelectStatus
selected
5 < ffff0000000200000002
= Some(NoTransaction), 0 waiting
";
