//! Logs and their verdicts.

use hsms_log::{Summary, Verdict, Why};
use hsms_machine::Rule;

pub const FIRST: &str = "hsms-log 1 host active 0 45000 6000 10000 5000 1048576 32\n";

pub const ENTRIES: &str = "0 up\n0 > ffff0000000100000001\n5 < ffff0000000200000001\n";

pub const SELECTED: &str =
    "hsms-log 1 host active 0 45000 6000 10000 5000 1048576 32\n0 up\n0 > ffff0000000100000001\n5 < ffff0000000200000001\n";

pub const REPLY: &str =
    "1000 > 00008101000000000002\n46000 < 000001020000000000020102410141410142\n";

pub const WRITTEN: &[&str] = &[
    "0 up",
    "18446744073709551615 > 000081010000fffffffe",
    "5 < 000001020000000000020102410141410142",
    "46500 ! ffff0000000500000002",
    "46000 t3 0000000a",
    "1 cut t6",
    "1 cut t7",
    "1 cut t8",
    "10 cut length",
    "20 down",
    "0 > ffff0000000100000001",
    "5 < ffff0000000200000001",
    "1000 > 00008101000000000002",
    "46000 t3 00000002",
    "46500 < 00000102000000000002",
    "46500 ! 00000102000000000002",
    "46001 > ffff0000000500000004",
    "6 > 000081ff000000000002",
    "7 < 00000100000000000002",
    "3 ! 00008101000000000002",
    "18446744073709551615 up",
];

/// Lines that are neither an entry nor a comment.
pub const NO_LINES: &[&str] = &[
    "18446744073709551616 up",
    " ",
    " # comment",
    "up",
    " 0 up",
    "0 up ",
    "0  up",
    "0\tup",
    "0 Up",
    "00 up",
    "-0 up",
    "+0 up",
    "0x0 up",
    "0 up up",
    "0 >",
    "0 > ",
    "0 >ffff0000000100000001",
    "0 > ffff00000001000000",
    "0 > ffff000000010000000",
    "0 > ffff000000010000000g",
    "0 > ffff00000001000000010",
    "0 > ffff0000 000100000001",
    "0 ? ffff0000000100000001",
    "0 t3",
    "0 t3 2",
    "0 t3 0000002",
    "0 t3 000000002",
    "0 t3 0000000g",
    "0 T3 00000002",
    "0 cut",
    "0 cut t3",
    "0 cut t5",
    "0 cut T6",
    "0 cut lengths",
    "0 downs",
];

pub const FIRST_LINES: &[&str] = &[
    "hsms-log 1 host active 0 45000 6000 10000 5000 1048576 32",
    "hsms-log 1 host passive 1 1 1 1 1 256 1",
    "hsms-log 1 equipment active 32767 3600000 3600000 3600000 3600000 33554432 100",
    "hsms-log 1 equipment passive 10 20 30 40 50 260 9",
    "hsms-log 2 host active 0 45000 6000 10000 5000 1048576 32",
    "hsms-log 2 equipment passive 32767 3600000 3600000 3600000 3600000 33554432 100",
];

#[derive(Clone, Copy)]
pub struct Case {
    pub name: &'static str,
    pub after: &'static str,
    pub lines: &'static str,
    pub verdict: Verdict,
}

pub const CASES: &[Case] = &[
    Case {
        name: "a reply at T3",
        after: SELECTED,
        lines: "1000 > 00008101000000000002\n46000 < 000001020000000000020102410141410142\n",
        verdict: Verdict::Pass(Summary {
            entries: 5,
            sent: 2,
            taken: 2,
            discarded: 0,
            expired: 0,
            waiting: 0,
        }),
    },
    Case {
        name: "lines that CR LF ends",
        after: "",
        lines: "hsms-log 1 host active 0 45000 6000 10000 5000 1048576 32\r\n0 up\r\n0 > ffff0000000100000001\r\n5 < ffff0000000200000001\r\n1000 > 00008101000000000002\r\n46000 < 000001020000000000020102410141410142\r\n",
        verdict: Verdict::Pass(Summary {
            entries: 5,
            sent: 2,
            taken: 2,
            discarded: 0,
            expired: 0,
            waiting: 0,
        }),
    },
    Case {
        name: "a last line that nothing ends",
        after: SELECTED,
        lines: "1000 > 00008101000000000002\n46000 < 000001020000000000020102410141410142",
        verdict: Verdict::Pass(Summary {
            entries: 5,
            sent: 2,
            taken: 2,
            discarded: 0,
            expired: 0,
            waiting: 0,
        }),
    },
    Case {
        name: "a last line that CR ends",
        after: SELECTED,
        lines: "1000 > 00008101000000000002\n46000 < 000001020000000000020102410141410142\r",
        verdict: Verdict::Pass(Summary {
            entries: 5,
            sent: 2,
            taken: 2,
            discarded: 0,
            expired: 0,
            waiting: 0,
        }),
    },
    Case {
        name: "a reply after T3",
        after: SELECTED,
        lines: "1000 > 00008101000000000002\n46001 < 000001020000000000020102410141410142\n",
        verdict: Verdict::Fail {
            line: 6,
            why: Why::Broken(Rule::T3Overdue),
        },
    },
    Case {
        name: "a reply after its expiry",
        after: SELECTED,
        lines: "1000 > 00008101000000000002\n46000 t3 00000002\n46500 < 00000102000000000002\n",
        verdict: Verdict::Fail {
            line: 7,
            why: Why::Broken(Rule::NoTransaction),
        },
    },
    Case {
        name: "a discarded reply after its expiry",
        after: SELECTED,
        lines: "1000 > 00008101000000000002\n46000 t3 00000002\n46500 ! 00000102000000000002\n",
        verdict: Verdict::Pass(Summary {
            entries: 6,
            sent: 2,
            taken: 1,
            discarded: 1,
            expired: 1,
            waiting: 0,
        }),
    },
    Case {
        name: "one of two expiries",
        after: SELECTED,
        lines: "1000 > 00008101000000000002\n1000 > 00008101000000000003\n46001 t3 00000002\n46001 > ffff0000000500000004\n",
        verdict: Verdict::Fail {
            line: 8,
            why: Why::Broken(Rule::T3Overdue),
        },
    },
    Case {
        name: "both expiries",
        after: SELECTED,
        lines: "1000 > 00008101000000000002\n1000 > 00008101000000000003\n46001 t3 00000002\n46001 t3 00000003\n46001 > ffff0000000500000004\n",
        verdict: Verdict::Pass(Summary {
            entries: 8,
            sent: 4,
            taken: 1,
            discarded: 0,
            expired: 2,
            waiting: 0,
        }),
    },
    Case {
        name: "an abort of function 255",
        after: SELECTED,
        lines: "6 > 000081ff000000000002\n7 < 00000100000000000002\n",
        verdict: Verdict::Pass(Summary {
            entries: 5,
            sent: 2,
            taken: 2,
            discarded: 0,
            expired: 0,
            waiting: 0,
        }),
    },
    Case {
        name: "an answer to another function",
        after: SELECTED,
        lines: "6 > 000081ff000000000002\n7 < 00000102000000000002\n",
        verdict: Verdict::Fail {
            line: 6,
            why: Why::Broken(Rule::NoTransaction),
        },
    },
    Case {
        name: "both ends with the same system bytes",
        after: SELECTED,
        lines: "6 > 00008101000000000002\n6 < 00008101000000000002\n",
        verdict: Verdict::Pass(Summary {
            entries: 5,
            sent: 2,
            taken: 2,
            discarded: 0,
            expired: 0,
            waiting: 1,
        }),
    },
    Case {
        name: "system bytes that are in use",
        after: SELECTED,
        lines: "6 > 00008101000000000002\n6 > 00008101000000000002\n",
        verdict: Verdict::Fail {
            line: 6,
            why: Why::Broken(Rule::SystemInUse),
        },
    },
    Case {
        name: "data before the session is selected",
        after: FIRST,
        lines: "0 up\n0 > ffff0000000100000001\n3 < 00008101000000000002\n",
        verdict: Verdict::Fail {
            line: 4,
            why: Why::Broken(Rule::NotSelected),
        },
    },
    Case {
        name: "discarded data before the session is selected",
        after: FIRST,
        lines: "0 up\n0 > ffff0000000100000001\n3 ! 00008101000000000002\n",
        verdict: Verdict::Pass(Summary {
            entries: 3,
            sent: 1,
            taken: 0,
            discarded: 1,
            expired: 0,
            waiting: 0,
        }),
    },
    Case {
        name: "no entries",
        after: FIRST,
        lines: "",
        verdict: Verdict::Pass(Summary {
            entries: 0,
            sent: 0,
            taken: 0,
            discarded: 0,
            expired: 0,
            waiting: 0,
        }),
    },
    Case {
        name: "no octets",
        after: "",
        lines: "",
        verdict: Verdict::Fail {
            line: 1,
            why: Why::Unreadable,
        },
    },
    Case {
        name: "a frame discarded without a cause",
        after: SELECTED,
        lines: "5 ! ffff0000000500000002\n",
        verdict: Verdict::Fail {
            line: 5,
            why: Why::Broken(Rule::NoCause),
        },
    },
    Case {
        name: "the greatest time",
        after: FIRST,
        lines: "18446744073709551615 up\n18446744073709551615 > ffff0000000100000001\n",
        verdict: Verdict::Pass(Summary {
            entries: 2,
            sent: 1,
            taken: 0,
            discarded: 0,
            expired: 0,
            waiting: 0,
        }),
    },
    Case {
        name: "a time past the greatest",
        after: FIRST,
        lines: "18446744073709551616 up\n",
        verdict: Verdict::Fail {
            line: 2,
            why: Why::Unreadable,
        },
    },
    Case {
        name: "digits of either case",
        after: FIRST,
        lines: "0 up\n0 > FFFF0000000100000001\n",
        verdict: Verdict::Pass(Summary {
            entries: 2,
            sent: 1,
            taken: 0,
            discarded: 0,
            expired: 0,
            waiting: 0,
        }),
    },
    Case {
        name: "capital digits of an expiry",
        after: SELECTED,
        lines: "1000 > 0000810100000000000a\n46000 t3 0000000A\n46001 down\n",
        verdict: Verdict::Pass(Summary {
            entries: 6,
            sent: 2,
            taken: 1,
            discarded: 0,
            expired: 1,
            waiting: 0,
        }),
    },
    Case {
        name: "a zero before a number",
        after: FIRST,
        lines: "00 up\n",
        verdict: Verdict::Fail {
            line: 2,
            why: Why::Unreadable,
        },
    },
    Case {
        name: "lines that carry nothing",
        after: FIRST,
        lines: "# x\n\n0 up\n",
        verdict: Verdict::Pass(Summary {
            entries: 1,
            sent: 0,
            taken: 0,
            discarded: 0,
            expired: 0,
            waiting: 0,
        }),
    },
    Case {
        name: "a line that fails behind lines that carry nothing",
        after: FIRST,
        lines: "# x\n\n0 up\n#\n0 up\n",
        verdict: Verdict::Fail {
            line: 6,
            why: Why::Broken(Rule::NotUp),
        },
    },
    Case {
        name: "an unreadable line before one that breaks a rule",
        after: FIRST,
        lines: "0 up\nx\n0 up\n",
        verdict: Verdict::Fail {
            line: 3,
            why: Why::Unreadable,
        },
    },
    Case {
        name: "a line that breaks a rule before an unreadable one",
        after: FIRST,
        lines: "0 up\n0 up\nx\n",
        verdict: Verdict::Fail {
            line: 3,
            why: Why::Broken(Rule::NotUp),
        },
    },
    Case {
        name: "a cut is no expiry of a primary",
        after: SELECTED,
        lines: "1000 > 00008101000000000002\n1000 > ffff0000000500000003\n7001 cut t6\n7001 down\n",
        verdict: Verdict::Pass(Summary {
            entries: 7,
            sent: 3,
            taken: 1,
            discarded: 0,
            expired: 0,
            waiting: 1,
        }),
    },
];
