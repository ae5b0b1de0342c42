//! Text in XML.

ghost use Rattle.std.specs.Prelude.{◌≡◌, ◌++◌, OnOk, chars, flat_map, option_map, string_bytes};
ghost use Rattle.cli_reports.specs.Xml.{is_barred as is_barred_code, markup_of, xml_of};

use std::alloc::AllocError;

/// Appends a text between tags or between quotation marks. A character that XML does not allow, and a control character
/// except tab and line feed, are replaced by U+FFFD.
pub fn push_text(xml: &mut String, text: &str) -> Result<(), AllocError>
    ensures { OnOk result (string_bytes xml.new ≡ string_bytes xml.old ++ flat_map xml_of (chars text.now)) }
{
    for character in text.chars() {
        push_character(xml, character)?;
    }
    Ok(())
}

fn push_character(xml: &mut String, character: char) -> Result<(), AllocError>
    ensures { OnOk result (string_bytes xml.new ≡ string_bytes xml.old ++ xml_of character) }
{
    if is_barred(character) {
        return xml.push('\u{fffd}');
    }
    match markup(character) {
        Some(reference) => xml.push_str(reference),
        None => xml.push(character),
    }
}

fn is_barred(character: char) -> bool
    ensures { result ≡ is_barred_code character }
{
    let code = u32::from(character);
    code < 9
        || (10 < code && code < 32)
        || (126 < code && code < 160)
        || code == 0xfffe
        || code == 0xffff
}

// Returns the reference to a character that could be markup.
fn markup(character: char) -> Option<&'static str>
    ensures { option_map (λ reference. reference.now) result ≡ markup_of character }
{
    match character {
        '<' => Some("&lt;"),
        '>' => Some("&gt;"),
        '&' => Some("&amp;"),
        '"' => Some("&quot;"),
        _ => None,
    }
}
