//! Which error a call with several errors returns: the first one of the list.

use super::{
    Abort, AllocError, Desk, End, EndFault, Entry, Global, HostDesk, Input, Message, Role, Side,
    Stop, assert_fault, end_of, settings, submit, submit_ok,
};
use secs_item::Item;

/// A message with a text of this many bytes in this many lists, and its first error.
struct FaultCase {
    stream: u8,
    function: u8,
    wait: bool,
    lists: usize,
    octets: usize,
    fault: EndFault,
}

/// The connection is not up.
const NOT_UP: &[FaultCase] = &[
    FaultCase {
        stream: 9,
        function: 2,
        wait: true,
        lists: 33,
        octets: 245,
        fault: EndFault::NotUp,
    },
    FaultCase {
        stream: 1,
        function: 1,
        wait: true,
        lists: 0,
        octets: 0,
        fault: EndFault::NotUp,
    },
    FaultCase {
        stream: 1,
        function: 1,
        wait: true,
        lists: 33,
        octets: 0,
        fault: EndFault::NotUp,
    },
];

/// The session is not selected, and 64 transactions are open.
const NOT_SELECTED: &[FaultCase] = &[
    FaultCase {
        stream: 9,
        function: 2,
        wait: true,
        lists: 33,
        octets: 245,
        fault: EndFault::NotSelected,
    },
    FaultCase {
        stream: 1,
        function: 2,
        wait: false,
        lists: 0,
        octets: 0,
        fault: EndFault::NotSelected,
    },
    FaultCase {
        stream: 9,
        function: 1,
        wait: false,
        lists: 0,
        octets: 0,
        fault: EndFault::NotSelected,
    },
    FaultCase {
        stream: 1,
        function: 1,
        wait: true,
        lists: 0,
        octets: 0,
        fault: EndFault::NotSelected,
    },
    FaultCase {
        stream: 1,
        function: 1,
        wait: false,
        lists: 33,
        octets: 0,
        fault: EndFault::NotSelected,
    },
    FaultCase {
        stream: 1,
        function: 1,
        wait: false,
        lists: 0,
        octets: 245,
        fault: EndFault::NotSelected,
    },
];

/// The session is selected, and 64 transactions are open.
const SELECTED: &[FaultCase] = &[
    FaultCase {
        stream: 9,
        function: 2,
        wait: true,
        lists: 33,
        octets: 245,
        fault: EndFault::NotPrimary,
    },
    FaultCase {
        stream: 1,
        function: 0,
        wait: true,
        lists: 0,
        octets: 0,
        fault: EndFault::NotPrimary,
    },
    FaultCase {
        stream: 1,
        function: 254,
        wait: false,
        lists: 33,
        octets: 0,
        fault: EndFault::NotPrimary,
    },
    FaultCase {
        stream: 9,
        function: 1,
        wait: true,
        lists: 33,
        octets: 245,
        fault: EndFault::Nine,
    },
    FaultCase {
        stream: 9,
        function: 255,
        wait: true,
        lists: 0,
        octets: 0,
        fault: EndFault::Nine,
    },
    FaultCase {
        stream: 1,
        function: 1,
        wait: true,
        lists: 33,
        octets: 245,
        fault: EndFault::Full,
    },
    FaultCase {
        stream: 1,
        function: 1,
        wait: true,
        lists: 33,
        octets: 0,
        fault: EndFault::Full,
    },
    FaultCase {
        stream: 1,
        function: 1,
        wait: true,
        lists: 0,
        octets: 245,
        fault: EndFault::Full,
    },
    FaultCase {
        stream: 1,
        function: 1,
        wait: false,
        lists: 33,
        octets: 245,
        fault: EndFault::TooDeep,
    },
    FaultCase {
        stream: 1,
        function: 1,
        wait: false,
        lists: 33,
        octets: 0,
        fault: EndFault::TooDeep,
    },
    FaultCase {
        stream: 1,
        function: 1,
        wait: false,
        lists: 0,
        octets: 245,
        fault: EndFault::TooLong,
    },
];

fn item_of(alloc: Global, lists: usize, octets: usize) -> Result<Item, AllocError> {
    let mut item = Item::Binary(vec![in alloc; 0u8; octets]?);
    for _ in 0..lists {
        item = Item::List(vec![in alloc; item]?);
    }
    Ok(item)
}

fn input_of(alloc: Global, fault_case: &FaultCase) -> Result<Input, AllocError> {
    let item = item_of(alloc, fault_case.lists, fault_case.octets)?;
    Ok(Input::Send(Message::new(
        fault_case.stream.min(127),
        fault_case.function,
        fault_case.wait,
        Some(item),
    )))
}

/// Returns the error of a call. A failed allocation is passed on.
fn fault_of(answer: Result<Vec<Entry>, EndFault>) -> Result<Option<EndFault>, EndFault> {
    match answer {
        Ok(_) => Ok(None),
        Err(EndFault::Memory) => Err(EndFault::Memory),
        Err(fault) => Ok(Some(fault)),
    }
}

/// Checks that an input has this error.
fn assert_outcome<D: Desk>(
    rt: &impl Abort,
    end: &mut End<D>,
    input: &Input,
    want: EndFault,
) -> Result<(), Stop> {
    let fault = fault_of(submit(end, input))?;
    assert_fault(rt, fault, Some(want), "the first fault");
    Ok(())
}

fn check_fault_case<D: Desk>(
    rt: &impl Abort,
    alloc: Global,
    end: &mut End<D>,
    fault_case: &FaultCase,
) -> Result<(), Stop> {
    let input = input_of(alloc, fault_case)?;
    assert_outcome(rt, end, &input, fault_case.fault)
}

/// Checks that the messages have these errors, and that a Linktest.req has this one.
fn check_all<D: Desk>(
    rt: &impl Abort,
    alloc: Global,
    end: &mut End<D>,
    messages: &[FaultCase],
    linktest: EndFault,
) -> Result<(), Stop> {
    for fault_case in messages {
        check_fault_case(rt, alloc, end, fault_case)?;
    }
    assert_outcome(rt, end, &Input::Linktest, linktest)
}

/// Opens 64 transactions of a host: a Select.req and 63 Linktest.req.
fn open_all<D: Desk>(alloc: Global, end: &mut End<D>) -> Result<(), Stop> {
    submit_ok(alloc, end, "start 0")?;
    for _ in 0..63 {
        submit_ok(alloc, end, "linktest")?;
    }
    Ok(())
}

/// Answers its Select.req, and opens a primary instead.
fn select<D: Desk>(alloc: Global, end: &mut End<D>) -> Result<(), Stop> {
    submit_ok(alloc, end, "comes ffff0000000200000001")?;
    submit_ok(alloc, end, "send S1F1 W .")
}

fn check_host<D: Desk>(rt: &impl Abort, alloc: Global, end: &mut End<D>) -> Result<(), Stop> {
    check_all(rt, alloc, end, NOT_UP, EndFault::NotUp)?;
    open_all(alloc, end)?;
    check_all(rt, alloc, end, NOT_SELECTED, EndFault::Full)?;
    select(alloc, end)?;
    check_all(rt, alloc, end, SELECTED, EndFault::Full)?;
    submit_ok(alloc, end, "lost")?;
    check_all(rt, alloc, end, NOT_UP, EndFault::NotUp)
}

#[test]
fn returns_first_fault(rt: HostRuntime) -> Result<(), Stop> {
    let alloc = rt.alloc();
    let given = settings(Role::Host, Side::Active, 256).ok_or(Stop::Line)?;
    let mut end = end_of(alloc, given, HostDesk, 1);
    check_host(&rt, alloc, &mut end)
}
