use super::{assert_so, named};
use secs_item::Item;
use secs_text::{
    Block, Head, Message, Output, Receiver, TextFault, encode_texts, print, print_text, read,
    read_all,
};
use std::alloc::{AllocError, Global};
use std::process::Abort;

/// Returns the printed form of a text's message, or the text's error.
fn reading_of(alloc: Global, text: &[u8], depth: u8) -> Result<String, TextFault> {
    match read(alloc, text, depth.min(100)) {
        Ok(message) => print(alloc, &message),
        Err(TextFault::Memory) => Err(TextFault::Memory),
        Err(fault) => Ok(named(alloc, &fault)?),
    }
}

/// A text, its maximum depth, and its error or the printed form of its message. The last one begins 101 lists.
const READINGS: &[(&str, u8, &str)] = &[
    ("S1F1 W <U1 256> .", 32, "Number { at: 11 }"),
    ("S1F1 <B [2] 0x00> .", 32, "Count { at: 8 }"),
    ("S1F1", 32, "Syntax { at: 4 }"),
    ("S1F1  ", 32, "Syntax { at: 6 }"),
    ("S128F1 .", 32, "Number { at: 0 }"),
    ("S1F1 W . S1F2 .", 32, "Syntax { at: 9 }"),
    ("", 32, "Syntax { at: 0 }"),
    ("S01F1 .", 32, "Number { at: 0 }"),
    ("S1F .", 32, "Syntax { at: 0 }"),
    ("S1F1 <U1 \"a\"> .", 32, "Syntax { at: 9 }"),
    ("S1F1 <A \"a", 32, "Syntax { at: 10 }"),
    ("S1F1 <A \"a\tb\"> .", 32, "Syntax { at: 10 }"),
    ("S1F1 <I2 -0> .", 32, "Number { at: 9 }"),
    ("S1F1 <I1 -129> .", 32, "Number { at: 9 }"),
    ("S1F1 <F4 0x3F8000> .", 32, "Number { at: 9 }"),
    ("S1F1 <L 1> .", 32, "Syntax { at: 8 }"),
    ("S1F1 <L [01]> .", 32, "Number { at: 9 }"),
    ("S1F1 <L [2] <B [1]>> .", 32, "Count { at: 15 }"),
    ("S1F1 <U3> .", 32, "Syntax { at: 6 }"),
    (
        "S6F11 W <L <A \"AB\"> <U1 1 255>> .",
        32,
        "S6F11 W <L [2] <A [2] \"AB\"> <U1 [2] 1 255>> .",
    ),
    (
        "S1F1 <A \"a\" 0x0A \"\"> .",
        32,
        "S1F1 <A [2] \"a\" 0x0A> .",
    ),
    ("S1F1<A\"a\"0x0A\"\">.", 32, "S1F1 <A [2] \"a\" 0x0A> ."),
    ("S1F1 <U2> .", 32, "S1F1 <U2 [0]> ."),
    (
        "S1F1 <A \"A\" 0x0a 0x22 \"B\"> .",
        32,
        "S1F1 <A [4] \"A\" 0x0A 0x22 \"B\"> .",
    ),
    ("S1F1\r\n<A>\t.", 32, "S1F1 <A [0]> ."),
    ("S1F1 <BOOLEAN F T T> .", 32, "S1F1 <BOOLEAN [3] F T T> ."),
    (
        "S0F0 <L <B 0xff> <J 0xFF> <C2 0x00 0x41>> .",
        32,
        "S0F0 <L [3] <B [1] 0xFF> <J [1] 0xFF> <C2 [2] 0x00 0x41>> .",
    ),
    (
        "S1F1 <L <I1 -128> <I2 -1> <I4 2147483647> <I8 -9223372036854775808>> .",
        32,
        "S1F1 <L [4] <I1 [1] -128> <I2 [1] -1> <I4 [1] 2147483647> <I8 [1] -9223372036854775808>> .",
    ),
    (
        "S127F255 <L <U1 0> <U2 65535> <U4 4294967295> <U8 18446744073709551615>> .",
        32,
        "S127F255 <L [4] <U1 [1] 0> <U2 [1] 65535> <U4 [1] 4294967295> <U8 [1] 18446744073709551615>> .",
    ),
    (
        "S1F1 <L <F4 0x3f800000> <F8 0x400921FB54442D18>> .",
        32,
        "S1F1 <L [2] <F4 [1] 0x3F800000> <F8 [1] 0x400921FB54442D18>> .",
    ),
    ("S1F1 <L <L>> .", 1, "Deep { at: 8 }"),
    ("S1F1 <L .", 0, "Deep { at: 5 }"),
    (
        "S1F1 <L <L <L <L <L <L <L <L <L <L <L <L <L <L <L <L <L <L <L <L <L <L <L <L <L <L <L <L <L <L <L <L <L <L <L <L <L <L <L <L <L <L <L <L <L <L <L <L <L <L <L <L <L <L <L <L <L <L <L <L <L <L <L <L <L <L <L <L <L <L <L <L <L <L <L <L <L <L <L <L <L <L <L <L <L <L <L <L <L <L <L <L <L <L <L <L <L <L <L <L <L ",
        100,
        "Deep { at: 305 }",
    ),
];

fn check_readings(
    rt: &impl Abort,
    alloc: Global,
    readings: &[(&str, u8, &str)],
) -> Result<(), TextFault> {
    for (text, depth, want) in readings {
        let reading = reading_of(alloc, text.as_bytes(), *depth)?;
        assert_so(rt, reading.as_str() == *want, text);
    }
    Ok(())
}

#[test]
fn faults_and_printed(rt: HostRuntime) -> Result<(), TextFault> {
    check_readings(&rt, rt.alloc(), READINGS)
}

/// Returns the parts of a message and its printed form.
fn parts_of(alloc: Global, message: &Message) -> Result<String, TextFault> {
    let head = (message.stream(), message.function(), message.wait());
    let printed = print(alloc, message)?;
    Ok(named(alloc, &(head, message.item(), printed.as_str()))?)
}

fn check_parts(
    rt: &impl Abort,
    alloc: Global,
    message: &Message,
    want: &str,
) -> Result<(), TextFault> {
    let parts = parts_of(alloc, message)?;
    assert_so(rt, parts.as_str() == want, want);
    Ok(())
}

const MADE: &str = "((6, 11, true), Some(Ascii([65, 66])), \"S6F11 W <A [2] \\\"AB\\\"> .\")";

#[test]
fn made(rt: HostRuntime) -> Result<(), TextFault> {
    let octets = Vec::from_slice(rt.alloc(), b"AB")?;
    let message = Message::new(6, 11, true, Some(Item::Ascii(octets)));
    check_parts(&rt, rt.alloc(), &message, MADE)
}

const READ: &str = "((1, 1, false), Some(Ascii([97, 10])), \"S1F1 <A [2] \\\"a\\\" 0x0A> .\")";

#[test]
fn parts(rt: HostRuntime) -> Result<(), TextFault> {
    let message = read(rt.alloc(), b"S1F1 <A \"a\" 0x0A \"\"> .", 0)?;
    check_parts(&rt, rt.alloc(), &message, READ)
}

/// Returns the number of messages of a text, or its error.
fn count_of(alloc: Global, text: &[u8]) -> Result<Result<usize, TextFault>, TextFault> {
    match read_all(alloc, text, 32) {
        Ok(messages) => Ok(Ok(messages.len())),
        Err(TextFault::Memory) => Err(TextFault::Memory),
        Err(fault) => Ok(Err(fault)),
    }
}

const COUNTS: &[(&str, Result<usize, TextFault>)] = &[
    ("S1F1 W . S1F2 .", Ok(2)),
    ("", Ok(0)),
    (" \r\n", Ok(0)),
    ("S1F1 . S1F2", Err(TextFault::Syntax { at: 11 })),
];

fn check_counts(
    rt: &impl Abort,
    alloc: Global,
    counts: &[(&str, Result<usize, TextFault>)],
) -> Result<(), TextFault> {
    for (text, want) in counts {
        let count = count_of(alloc, text.as_bytes())?;
        assert_so(rt, count == *want, text);
    }
    Ok(())
}

#[test]
fn several(rt: HostRuntime) -> Result<(), TextFault> {
    check_counts(&rt, rt.alloc(), COUNTS)
}

/// The bytes that were passed to the output, as long as memory was available.
#[derive(Drop)]
struct Kept {
    octets: Vec<u8>,
    is_whole: bool,
}

impl Output for Kept {
    ghost Given = { λ _ _. ⊥ };

    fn give(&mut self, octets: &[u8]) {
        if self.octets.extend_from_slice(octets).is_err() {
            self.is_whole = false;
        }
    }
}

impl Kept {
    /// Returns the bytes, or an error if an allocation failed.
    fn whole(self) -> Result<Vec<u8>, AllocError> {
        let Kept { octets, is_whole } = self;
        if is_whole {
            Ok(octets)
        } else {
            Err(AllocError)
        }
    }
}

/// Returns the printed form of a message text, or the `Debug` text of its error. Returns `Memory` if an allocation
/// failed.
fn printed_text(alloc: Global, head: Head, text: &[u8], depth: u8) -> Result<Vec<u8>, TextFault> {
    let mut block = Block::new(alloc)?;
    let mut out = Kept {
        octets: Vec::new(alloc),
        is_whole: true,
    };
    let answer = print_text(&mut out, &mut block, head, text, depth.min(100));
    block.give_all(&mut out);
    match answer {
        Ok(()) => Ok(out.whole()?),
        Err(fault) => Ok(named(alloc, &fault)?.into_bytes()),
    }
}

fn check_encodings(
    rt: &impl Abort,
    alloc: Global,
    head: Head,
    texts: &[(&[u8], u8, &str)],
) -> Result<(), TextFault> {
    for (text, depth, want) in texts {
        let octets = printed_text(alloc, head, text, *depth)?;
        assert_so(rt, octets.as_slice() == want.as_bytes(), want);
    }
    Ok(())
}

const REPORT: Head = Head {
    stream: 6,
    function: 11,
    wait: true,
};

/// A message text, its maximum depth, and its printed form after the head of a report.
const SPELLED: &[(&[u8], u8, &str)] = &[
    (b"", 32, "S6F11 W ."),
    (
        b"\x01\x02\x41\x02AB\xa5\x02\x01\xff",
        32,
        "S6F11 W <L [2] <A [2] \"AB\"> <U1 [2] 1 255>> .",
    ),
    (
        b"\x41\x04A\n\"B",
        32,
        "S6F11 W <A [4] \"A\" 0x0A 0x22 \"B\"> .",
    ),
    (b"\x42\x00\x00", 32, "S6F11 W <A [0]> ."),
    (b"\x25\x03\x00\x01\x02", 32, "S6F11 W <BOOLEAN [3] F T T> ."),
    (
        b"\x01\x03\x21\x01\xff\x45\x01\xff\x49\x02\x00A",
        32,
        "S6F11 W <L [3] <B [1] 0xFF> <J [1] 0xFF> <C2 [2] 0x00 0x41>> .",
    ),
    (
        b"\x01\x04\x65\x01\x80\x69\x02\xff\xff\x71\x04\x7f\xff\xff\xff\x61\x08\x80\0\0\0\0\0\0\0",
        32,
        "S6F11 W <L [4] <I1 [1] -128> <I2 [1] -1> <I4 [1] 2147483647> <I8 [1] -9223372036854775808>> .",
    ),
    (
        b"\x01\x04\xa5\x01\x00\xa9\x02\xff\xff\xb1\x04\xff\xff\xff\xff\xa1\x08\xff\xff\xff\xff\xff\xff\xff\xff",
        32,
        "S6F11 W <L [4] <U1 [1] 0> <U2 [1] 65535> <U4 [1] 4294967295> <U8 [1] 18446744073709551615>> .",
    ),
    (
        b"\x01\x02\x91\x04\x3f\x80\x00\x00\x81\x08\x40\x09\x21\xfb\x54\x44\x2d\x18",
        32,
        "S6F11 W <L [2] <F4 [1] 0x3F800000> <F8 [1] 0x400921FB54442D18>> .",
    ),
    (
        b"\x01\x03\x01\x00\x01\x01\x01\x00\xa5\x01\x0a",
        32,
        "S6F11 W <L [3] <L [0]> <L [1] <L [0]>> <U1 [1] 10>> .",
    ),
    (b"\x41\x08WaferMap", 32, "S6F11 W <A [8] \"WaferMap\"> ."),
    (
        b"\x41\x13recipe 12345678\nabc",
        32,
        "S6F11 W <A [19] \"recipe 12345678\" 0x0A \"abc\"> .",
    ),
    (
        b"\x41\x10ABCDEFG\x00HIJKLMNO",
        32,
        "S6F11 W <A [16] \"ABCDEFG\" 0x00 \"HIJKLMNO\"> .",
    ),
    (
        b"\x41\x09\"ABCDEFGH",
        32,
        "S6F11 W <A [9] 0x22 \"ABCDEFGH\"> .",
    ),
    (
        b"\xb1\x28\x00\x00\x00\xff\x00\x00\x01\x00\x00\x00\x27\xdb\x00\x00\x63\xff\x00\x00\x64\x00\x00\x0f\x4a\x13\x00\x27\x0f\xff\x00\x27\x10\x00\x0f\x42\x3f\xff\x0f\x42\x40\x00",
        32,
        "S6F11 W <U4 [10] 255 256 10203 25599 25600 1002003 2559999 2560000 255999999 256000000> .",
    ),
    (
        b"\x71\x08\x00\x01\x86\xa7\xff\xfe\x79\x59",
        32,
        "S6F11 W <I4 [2] 100007 -100007> .",
    ),
];

const BARE: Head = Head {
    stream: 1,
    function: 1,
    wait: false,
};

/// Bytes that are not a message text at this depth, and their error.
const NO_TEXTS: &[(&[u8], u8, &str)] = &[
    (b"\x01\x01\x01\x00", 1, "Deep { at: 2 }"),
    (b"\xa5\x01\x00\x00", 32, "Trailing { at: 3 }"),
    (b"\x41\x02A", 32, "Truncated { at: 0 }"),
];

#[test]
fn from_octets(rt: HostRuntime) -> Result<(), TextFault> {
    check_encodings(&rt, rt.alloc(), REPORT, SPELLED)?;
    check_encodings(&rt, rt.alloc(), BARE, NO_TEXTS)
}

/// A receiver of messages that records the stream, the function, 1 if a reply is requested, and the text of each, or
/// `?` without one.
#[derive(Drop)]
struct Hearing {
    reception: Vec<u8>,
}

impl Receiver for Hearing {
    type Kept = ();

    ghost Given = { λ kept receiving given. Unit {0} };

    fn take(&mut self, head: Head, text: Option<&[u8]>) -> Result<(), AllocError> {
        let wait = u8::from(head.wait);
        self.reception
            .extend_from_slice(&[head.stream, head.function, wait])?;
        self.reception.extend_from_slice(text.unwrap_or(b"?"))?;
        Ok(())
    }
}

/// Returns the record of the messages of a text.
fn reception_of(alloc: Global, text: &[u8], depth: u8) -> Result<Vec<u8>, TextFault> {
    let mut receiving = Hearing {
        reception: Vec::new(alloc),
    };
    encode_texts(alloc, text, depth.min(100), &mut receiving)?;
    Ok(receiving.reception)
}

/// A text, and the record of its messages.
const HEARD: &[(&str, &[u8])] = &[
    (" \n", b""),
    ("S1F1 W . S2F3 .", b"\x01\x01\x01\x02\x03\x00"),
    (
        "S6F11 W <L [2] <A \"AB\"> <U1 1 255>> .",
        b"\x06\x0b\x01\x01\x02\x41\x02AB\xa5\x02\x01\xff",
    ),
    (
        "S0F0 <L <A \"A\" 0x0A \"\" 0x22> <B> <BOOLEAN F T>> .",
        b"\x00\x00\x00\x01\x03\x41\x03A\n\"\x21\x00\x25\x02\x00\x01",
    ),
    (
        "S0F0 <L <J 0xff> <C2 0x00 0x41> <I1 -128> <I2 -1>> .",
        b"\x00\x00\x00\x01\x04\x45\x01\xff\x49\x02\x00A\x65\x01\x80\x69\x02\xff\xff",
    ),
    (
        "S0F0 <L <I4 2147483647> <I8 -2> <U2 258> <U4 1>> .",
        b"\x00\x00\x00\x01\x04\x71\x04\x7f\xff\xff\xff\x61\x08\xff\xff\xff\xff\xff\xff\xff\xfe\xa9\x02\x01\x02\xb1\x04\0\0\0\x01",
    ),
    (
        "S0F0 <L <U8 1> <F4 0x3F800000> <F8 0x400921FB54442D18>> .",
        b"\x00\x00\x00\x01\x03\xa1\x08\0\0\0\0\0\0\0\x01\x91\x04\x3f\x80\x00\x00\x81\x08\x40\x09\x21\xfb\x54\x44\x2d\x18",
    ),
];

fn check_received(
    rt: &impl Abort,
    alloc: Global,
    texts: &[(&str, &[u8])],
) -> Result<(), TextFault> {
    for (text, want) in texts {
        let reception = reception_of(alloc, text.as_bytes(), 32)?;
        assert_so(rt, reception.as_slice() == *want, text);
    }
    Ok(())
}

#[test]
fn onto_octets(rt: HostRuntime) -> Result<(), TextFault> {
    check_received(&rt, rt.alloc(), HEARD)
}

/// Returns the notation of a message with these bytes between quotes.
fn long_text(alloc: Global, octets: &[u8]) -> Result<Vec<u8>, AllocError> {
    let mut text = Vec::from_slice(alloc, b"S1F1 <A \"")?;
    text.extend_from_slice(octets)?;
    text.extend_from_slice(b"\"> .")?;
    Ok(text)
}

/// Returns true if, after the head, an item has this header and `count` bytes.
fn is_long(reception: &[u8], header: &[u8], count: usize) -> bool {
    let item = reception.get(3..).unwrap_or(b"");
    match item.strip_prefix(header) {
        Some(octets) => octets.len() == count,
        None => false,
    }
}

/// Returns the record of a message with these bytes between quotes.
fn received_long(alloc: Global, octets: &[u8]) -> Result<Vec<u8>, TextFault> {
    let text = long_text(alloc, octets)?;
    reception_of(alloc, &text, 0)
}

/// Checks the header of an item with the given number of bytes between quotes.
fn check_long(
    rt: &impl Abort,
    alloc: Global,
    octets: &[u8],
    headers: &[(usize, &[u8])],
) -> Result<(), TextFault> {
    for (count, header) in headers {
        let octets = octets.get(..*count).unwrap_or(b"");
        let reception = received_long(alloc, octets)?;
        assert_so(rt, is_long(&reception, header, *count), "long");
    }
    Ok(())
}

const HEADERS: &[(usize, &[u8])] = &[
    (255, b"\x41\xff"),
    (256, b"\x42\x01\x00"),
    (65536, b"\x43\x01\x00\x00"),
];

#[test]
fn long_headers(rt: HostRuntime) -> Result<(), TextFault> {
    check_long(&rt, rt.alloc(), &[b'z'; 65536], HEADERS)
}
