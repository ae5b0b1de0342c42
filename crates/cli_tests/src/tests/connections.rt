//! Logs of two connections, and their verdict lines.

/// The words of rows, and the lines that each represents. The first connection ends while a primary waits for its
/// reply.
const PARTS: &str = "# one
hsms-log 1 host active 0 45000 6000 10000 5000 1048576 32
# several
hsms-log 2 host active 0 45000 6000 10000 5000 1048576 32
# other
hsms-log 3 host active 0 45000 6000 10000 5000 1048576 32
# first
0 up
0 > ffff0000000100000001
5 < ffff0000000200000001
10 > 00008101000000000002
# down
20 down
# up
90000 up
# early
19 up
# select
90000 > ffff0000000100000001
90001 < ffff0000000200000001
# unselected
90000 < 00000102000000000002
90001 < ffff0000000200000001
# question
90002 > 00008101000000000002
# unasked
90001 < 00000102000000000002
# answer
90003 < 00000102000000000002
90004 down
";

/// Returns the lines that a word represents.
pub fn part_of(word: &str) -> &'static str {
    for part in PARTS.split("# ") {
        if let Some((name, lines)) = part.split_once('\n')
            && name == word
        {
            return lines;
        }
    }
    "no such word\n"
}

/// The words of a log, the result of its audit, and its verdict line.
pub const ROWS: &str =
    "several first down up select question answer = Ok(true) pass entries=11 sent=4 taken=3 discarded=0 expired=0 waiting=0
one first down up select question answer = Ok(false) fail line=7 rule=NotUp
other first down up select question answer = Ok(false) fail line=1 unreadable
several first up select question answer = Ok(false) fail line=6 rule=NotUp
several first down early select question answer = Ok(false) fail line=7 rule=Backwards
several first down up unselected question answer = Ok(false) fail line=8 rule=NotSelected
several first down up select unasked answer = Ok(false) fail line=10 rule=NoTransaction
several first down = Ok(true) pass entries=5 sent=2 taken=1 discarded=0 expired=0 waiting=1
several first down up = Ok(true) pass entries=6 sent=2 taken=1 discarded=0 expired=0 waiting=0
";
