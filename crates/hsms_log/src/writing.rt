//! Output of log text.

ghost use Rattle.std.specs.Prelude.{◌≡◌, ◌<◌, ◌++◌, [], ◌∷◌, length, decimal};
ghost use Rattle.std.specs.List.{flat_map};
ghost use Rattle.hex.specs.Hex.{encode_lower};
ghost use Rattle.hsms_frame.specs.CallCounts.{count_failure};
ghost use Rattle.hsms_log.specs.Writing.{Puts};
ghost use Rattle.hsms_log.specs.InnerWriting.{Writes, words_of, opening_of, numbers_of, spaced};
ghost use Rattle.hsms_log.specs.LineFormat.{EncodesSettings, EncodesEntry, entry_line, settings_line, event_text, message_octets, cause_word as cause_word_of};

use crate::fault::LogFault;
use crate::hexadecimal::{digits_of_few, digits_of_sixteen};
use crate::ranges::{entry_is_in_range, settings_are_in_range};
use hsms_frame::{Frame, Sink, give_all};
use hsms_machine::{Cause, Entry, Event, Role, Settings, Side};
use itoa::Buffer;

/// Writes the entry as a line, with LF. Hexadecimal digits are written in lower case.
pub fn write_entry<W: Sink>(sink: &mut W, entry: &Entry) -> Result<(), LogFault>
    ensures written { Puts result (W.state sink.old).written (W.state sink.new).written
        (entry_line entry.now ++ 10 ∷ []) }
    ensures encoded_bytes { EncodesEntry (entry_line entry.now) entry.now }
    ensures failures { (W.state sink.new).failures ≡ count_failure result (W.state sink.old).failures }
{
    entry_is_in_range(entry);
    put_number(sink, entry.time)?;
    put_event(sink, &entry.event)
}

/// Writes a space, the event and the end of the line.
fn put_event<W: Sink>(sink: &mut W, event: &Event) -> Result<(), LogFault>
    ensures { Writes result (W.state sink.old) (W.state sink.new) (32 ∷ (event_text event.now ++ 10 ∷ [])) }
{
    match event {
        Event::Up => put(sink, b" up\n"),
        Event::Sent(frame) => put_message(sink, b" > ", frame),
        Event::Taken(frame) => put_message(sink, b" < ", frame),
        Event::Discarded(frame) => put_message(sink, b" ! ", frame),
        Event::T3(system) => {
            let digits = digits_of_few(system.to_be_bytes().as_slice());
            put_word(sink, b" t3 ", &digits[..8])
        }
        Event::Cut(cause) => put_word(sink, b" cut ", cause_word(*cause).as_bytes()),
        Event::Down => put(sink, b" down\n"),
    }
}

/// Writes a mark, a message's header and text, and the end of the line.
fn put_message<W: Sink>(sink: &mut W, mark: &[u8], frame: &Frame) -> Result<(), LogFault>
    ensures { Writes result (W.state sink.old) (W.state sink.new) (mark.now ++ (encode_lower (message_octets frame.now) ++ 10 ∷ [])) }
{
    put(sink, mark)?;
    put_hex(sink, frame.header.octets().as_slice())?;
    put_hex(sink, frame.text.as_slice())?;
    put(sink, b"\n")
}

/// Writes a word after another, and the end of the line.
fn put_word<W: Sink>(sink: &mut W, front: &[u8], word: &[u8]) -> Result<(), LogFault>
    ensures { Writes result (W.state sink.old) (W.state sink.new) (front.now ++ (word.now ++ 10 ∷ [])) }
{
    put(sink, front)?;
    put(sink, word)?;
    put(sink, b"\n")
}

/// Returns the word for a cause, as in a log.
pub fn cause_word(cause: Cause) -> &'static str
    ensures { result.now ≡ cause_word_of cause }
{
    match cause {
        Cause::T6 => "t6",
        Cause::T7 => "t7",
        Cause::T8 => "t8",
        Cause::Length => "length",
    }
}

/// Writes bytes as hexadecimal digits in lower case, sixteen bytes at once.
fn put_hex<W: Sink>(sink: &mut W, octets: &[u8]) -> Result<(), LogFault>
    ensures { Writes result (W.state sink.old) (W.state sink.new) (encode_lower octets.now) }
{
    let mut rest = octets;
    while let Some((front, others)) = rest.split_first_chunk::<16>() {
        put(sink, &digits_of_sixteen(front))?;
        rest = others;
    }
    put(sink, &digits_of_few(rest)[..2 * rest.len()])
}

fn put_number<W: Sink>(sink: &mut W, number: u64) -> Result<(), LogFault>
    ensures { Writes result (W.state sink.old) (W.state sink.new) (decimal number) }
{
    let mut buffer = Buffer::new();
    put(sink, buffer.format(number).as_bytes())
}

fn put<W: Sink>(sink: &mut W, octets: &[u8]) -> Result<(), LogFault>
    ensures { Writes result (W.state sink.old) (W.state sink.new) octets.now }
{
    give_all(sink, octets)?;
    Ok(())
}

/// Writes the settings as the first line of a log of their version, with LF.
pub fn write_settings<W: Sink>(sink: &mut W, settings: &Settings) -> Result<(), LogFault>
    ensures written { Puts result (W.state sink.old).written (W.state sink.new).written
        (settings_line settings.now ++ 10 ∷ []) }
    ensures encoded_bytes { EncodesSettings (settings_line settings.now) settings.now }
    ensures failures { (W.state sink.new).failures ≡ count_failure result (W.state sink.old).failures }
{
    settings_are_in_range(settings);
    let numbers = numbers(settings);
    put_opening(sink, settings)?;
    put_numbers(sink, &numbers)
}

/// Writes the words before the numbers.
fn put_opening<W: Sink>(sink: &mut W, settings: &Settings) -> Result<(), LogFault>
    ensures { Writes result (W.state sink.old) (W.state sink.new) (opening_of settings.now) }
{
    put(sink, b"hsms-log")?;
    put_spaced(sink, u64::from(settings.version()))?;
    put(sink, words(settings))
}

/// Returns the role and the side of the endpoint, each after a space.
fn words(settings: &Settings) -> &'static [u8]
    ensures { result.now ≡ words_of settings.now }
{
    match (settings.role(), settings.link()) {
        (Role::Host, Side::Active) => b" host active",
        (Role::Host, Side::Passive) => b" host passive",
        (Role::Equipment, Side::Active) => b" equipment active",
        (Role::Equipment, Side::Passive) => b" equipment passive",
    }
}

fn numbers(settings: &Settings) -> [u64; 7]
    ensures { result ≡ numbers_of settings.now }
{
    [
        u64::from(settings.device()),
        u64::from(settings.t3()),
        u64::from(settings.t6()),
        u64::from(settings.t7()),
        u64::from(settings.t8()),
        u64::from(settings.max()),
        u64::from(settings.depth()),
    ]
}

/// Writes numbers, each after a space, and the end of the line.
fn put_numbers<W: Sink>(sink: &mut W, numbers: &[u64]) -> Result<(), LogFault>
    ensures { Writes result (W.state sink.old) (W.state sink.new) (flat_map spaced numbers.now ++ 10 ∷ []) }
{
    for number in numbers {
        put_spaced(sink, *number)?;
    }
    put(sink, b"\n")
}

/// Writes a number after a space.
fn put_spaced<W: Sink>(sink: &mut W, number: u64) -> Result<(), LogFault>
    ensures { Writes result (W.state sink.old) (W.state sink.new) (spaced number) }
{
    put(sink, b" ")?;
    put_number(sink, number)
}
