//! The names of the item formats, as they are read and printed.

ghost use Rattle.std.specs.Prelude.{◌≡◌, ◌≤◌, ◌++◌, length, take, codes};
ghost use Rattle.secs_text.specs.TypeName.{type_name, format_named};

use secs_item::Format;

/// Returns the format that a word names. Returns `None` if it names none.
#[inline(always)]
#[tactic(auto, unfolding(crate::specs::TypeName::format_named))]
pub fn format_named(word: &[u8]) -> Option<Format>
    ensures { result ≡ format_named word.now }
{
    match word {
        b"L" => Some(Format::List),
        b"B" => Some(Format::Binary),
        b"BOOLEAN" => Some(Format::Boolean),
        b"A" => Some(Format::Ascii),
        b"J" => Some(Format::Jis8),
        b"C2" => Some(Format::Char2),
        b"I1" => Some(Format::I1),
        b"I2" => Some(Format::I2),
        b"I4" => Some(Format::I4),
        b"I8" => Some(Format::I8),
        b"U1" => Some(Format::U1),
        b"U2" => Some(Format::U2),
        b"U4" => Some(Format::U4),
        b"U8" => Some(Format::U8),
        b"F4" => Some(Format::F4),
        b"F8" => Some(Format::F8),
        _ => None,
    }
}

/// Returns the text before the count of an item, at the start of an array, and its length in bytes.
#[inline(always)]
pub fn opening_word(format: Format) -> (&'static [u8; 16], usize)
    ensures text { take result.1 result.0.now ≡ codes " <" ++ type_name format ++ codes " [" }
    ensures short { result.1 ≤ 16 }
    ensures long { length result.0.now ≡ 16 }
{
    match format {
        Format::List => (b" <L [           ", 5),
        Format::Binary => (b" <B [           ", 5),
        Format::Boolean => (b" <BOOLEAN [     ", 11),
        Format::Ascii => (b" <A [           ", 5),
        Format::Jis8 => (b" <J [           ", 5),
        Format::Char2 => (b" <C2 [          ", 6),
        Format::I1 => (b" <I1 [          ", 6),
        Format::I2 => (b" <I2 [          ", 6),
        Format::I4 => (b" <I4 [          ", 6),
        Format::I8 => (b" <I8 [          ", 6),
        Format::U1 => (b" <U1 [          ", 6),
        Format::U2 => (b" <U2 [          ", 6),
        Format::U4 => (b" <U4 [          ", 6),
        Format::U8 => (b" <U8 [          ", 6),
        Format::F4 => (b" <F4 [          ", 6),
        Format::F8 => (b" <F8 [          ", 6),
    }
}
