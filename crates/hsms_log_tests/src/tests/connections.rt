//! Logs of several connections, and their verdicts.

use hsms_log::{Summary, Verdict, Why};
use hsms_machine::Rule;

const SEVERAL: &str = "hsms-log 2 host active 0 45000 6000 10000 5000 1048576 32\n";

const ONE: &str = "hsms-log 1 host active 0 45000 6000 10000 5000 1048576 32\n";

const SELECTED: &str =
    "0 up\n0 > ffff0000000100000001\n5 < ffff0000000200000001\n10 > 00008101000000000002\n";

const DOWN: &str = "20 down\n";

const UP: &str = "90000 up\n";

const SELECTS: &str = "90000 > ffff0000000100000001\n90001 < ffff0000000200000001\n";

const DATA: &str = "90002 > 00008101000000000002\n90003 < 00000102000000000002\n";

const END: &str = "90004 down\n";

#[derive(Clone, Copy)]
pub struct Text {
    pub name: &'static str,
    pub parts: &'static [&'static str],
    pub verdict: Verdict,
}

const UNREADABLE: Verdict = Verdict::Fail {
    line: 1,
    why: Why::Unreadable,
};

pub const TEXTS: &[Text] = &[
    Text {
        name: "two connections",
        parts: &[SEVERAL, SELECTED, DOWN, UP, SELECTS, DATA, END],
        verdict: Verdict::Pass(Summary {
            entries: 11,
            sent: 4,
            taken: 3,
            discarded: 0,
            expired: 0,
            waiting: 0,
        }),
    },
    Text {
        name: "two connections in version 1",
        parts: &[ONE, SELECTED, DOWN, UP, SELECTS, DATA, END],
        verdict: Verdict::Fail {
            line: 7,
            why: Why::Broken(Rule::NotUp),
        },
    },
    Text {
        name: "no such version",
        parts: &[
            "hsms-log 3 host active 0 45000 6000 10000 5000 1048576 32\n",
            SELECTED,
            DOWN,
        ],
        verdict: UNREADABLE,
    },
    Text {
        name: "version 0",
        parts: &["hsms-log 0 host active 0 45000 6000 10000 5000 1048576 32\n"],
        verdict: UNREADABLE,
    },
    Text {
        name: "a version with a zero before it",
        parts: &["hsms-log 01 host active 0 45000 6000 10000 5000 1048576 32\n"],
        verdict: UNREADABLE,
    },
    Text {
        name: "a version with a point",
        parts: &["hsms-log 2.0 host active 0 45000 6000 10000 5000 1048576 32\n"],
        verdict: UNREADABLE,
    },
    Text {
        name: "no version",
        parts: &["hsms-log host active 0 45000 6000 10000 5000 1048576 32\n"],
        verdict: UNREADABLE,
    },
    Text {
        name: "up without down",
        parts: &[SEVERAL, SELECTED, UP, SELECTS, DATA, END],
        verdict: Verdict::Fail {
            line: 6,
            why: Why::Broken(Rule::NotUp),
        },
    },
    Text {
        name: "up before down",
        parts: &[SEVERAL, SELECTED, DOWN, "19 up\n", SELECTS, DATA, END],
        verdict: Verdict::Fail {
            line: 7,
            why: Why::Broken(Rule::Backwards),
        },
    },
    Text {
        name: "selected on another connection",
        parts: &[
            SEVERAL,
            SELECTED,
            DOWN,
            UP,
            "90000 < 00000102000000000002\n",
        ],
        verdict: Verdict::Fail {
            line: 8,
            why: Why::Broken(Rule::NotSelected),
        },
    },
    Text {
        name: "opened on another connection",
        parts: &[
            SEVERAL,
            SELECTED,
            DOWN,
            UP,
            SELECTS,
            "90001 < 00000102000000000002\n",
        ],
        verdict: Verdict::Fail {
            line: 10,
            why: Why::Broken(Rule::NoTransaction),
        },
    },
    Text {
        name: "ends with down",
        parts: &[SEVERAL, SELECTED, DOWN],
        verdict: Verdict::Pass(Summary {
            entries: 5,
            sent: 2,
            taken: 1,
            discarded: 0,
            expired: 0,
            waiting: 1,
        }),
    },
    Text {
        name: "ends with up",
        parts: &[SEVERAL, SELECTED, DOWN, UP],
        verdict: Verdict::Pass(Summary {
            entries: 6,
            sent: 2,
            taken: 1,
            discarded: 0,
            expired: 0,
            waiting: 0,
        }),
    },
    Text {
        name: "a comment between down and up",
        parts: &[SEVERAL, SELECTED, DOWN, "# nothing\n\n", UP],
        verdict: Verdict::Pass(Summary {
            entries: 6,
            sent: 2,
            taken: 1,
            discarded: 0,
            expired: 0,
            waiting: 0,
        }),
    },
    Text {
        name: "one connection in version 1",
        parts: &[ONE, SELECTED, DOWN],
        verdict: Verdict::Pass(Summary {
            entries: 5,
            sent: 2,
            taken: 1,
            discarded: 0,
            expired: 0,
            waiting: 1,
        }),
    },
];
