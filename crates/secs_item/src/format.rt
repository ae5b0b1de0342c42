//! The item formats of SEMI E5: the format code of each, and the size of one value in bytes.

ghost use Rattle.std.specs.Prelude.{◌≡◌, ◌<◌, ◌%◌, ◌↔◌, IsTrue};
ghost use Rattle.secs_item.specs.Format.{code_of, format_with_code, is_list, value_size};

/// The format of an item: elements, or values of one kind (SEMI E5, item formats). A variant's number is its format
/// code, in octal.
#[derive(Clone, Copy, Debug, PartialEq, Eq)]
pub enum Format {
    /// `L`, a list of items.
    List = 0o00,
    /// `B`, bytes of any meaning.
    Binary = 0o10,
    /// `BOOLEAN`, one byte each, zero for false.
    Boolean = 0o11,
    /// `A`, ASCII characters.
    Ascii = 0o20,
    /// `J`, JIS-8 characters.
    Jis8 = 0o21,
    /// `C2`, two-byte characters, stored as single bytes.
    Char2 = 0o22,
    /// `I1`, signed numbers of one byte.
    I1 = 0o31,
    /// `I2`, signed numbers of two bytes.
    I2 = 0o32,
    /// `I4`, signed numbers of four bytes.
    I4 = 0o34,
    /// `I8`, signed numbers of eight bytes.
    I8 = 0o30,
    /// `U1`, unsigned numbers of one byte.
    U1 = 0o51,
    /// `U2`, unsigned numbers of two bytes.
    U2 = 0o52,
    /// `U4`, unsigned numbers of four bytes.
    U4 = 0o54,
    /// `U8`, unsigned numbers of eight bytes.
    U8 = 0o50,
    /// `F4`, floating-point numbers of four bytes, not interpreted.
    F4 = 0o44,
    /// `F8`, floating-point numbers of eight bytes, not interpreted.
    F8 = 0o40,
}

impl Format {
    /// Returns the format with this code, the inverse of the variants' numbers. Returns `None` if no format has the
    /// code. The cases are written out, since every header read calls this, and a search would take longer.
    #[tactic(auto, unfolding(crate::specs::Format::format_with_code))]
    pub(crate) fn from_code(code: u8) -> Option<Format>
        ensures { result ≡ format_with_code code }
    {
        match code {
            0o00 => Some(Format::List),
            0o10 => Some(Format::Binary),
            0o11 => Some(Format::Boolean),
            0o20 => Some(Format::Ascii),
            0o21 => Some(Format::Jis8),
            0o22 => Some(Format::Char2),
            0o30 => Some(Format::I8),
            0o31 => Some(Format::I1),
            0o32 => Some(Format::I2),
            0o34 => Some(Format::I4),
            0o40 => Some(Format::F8),
            0o44 => Some(Format::F4),
            0o50 => Some(Format::U8),
            0o51 => Some(Format::U1),
            0o52 => Some(Format::U2),
            0o54 => Some(Format::U4),
            _ => None,
        }
    }

    /// Returns the format's code: the six bits of a format byte above the number of length bytes.
    #[inline(always)]
    pub fn code(self) -> u8
        ensures value { result ≡ code_of self }
        ensures small { result < 64 }
    {
        self as u8
    }

    /// Returns the size of one value in bytes. For a list it is 1, since a list counts its elements.
    #[inline(always)]
    pub fn size(self) -> usize
        ensures value { result ≡ value_size self }
        ensures some { 0 < result }
    {
        match self {
            Format::List
            | Format::Binary
            | Format::Boolean
            | Format::Ascii
            | Format::Jis8
            | Format::Char2
            | Format::I1
            | Format::U1 => 1,
            Format::I2 | Format::U2 => 2,
            Format::I4 | Format::U4 | Format::F4 => 4,
            Format::I8 | Format::U8 | Format::F8 => 8,
        }
    }

    /// Returns true if items of this format are lists.
    #[inline(always)]
    pub fn is_list(self) -> bool
        ensures { result ≡ is_list self }
    {
        matches!(self, Format::List)
    }

    /// Returns true if the length of a body is a multiple of the size of a value. The sizes are separate cases, since a
    /// division by a variable takes longer.
    pub(crate) fn is_whole(self, length: usize) -> bool
        ensures { IsTrue result ↔ (length % value_size self ≡ 0) }
    {
        match self.size() {
            1 => true,
            2 => length % 2 == 0,
            4 => length % 4 == 0,
            _ => length % 8 == 0,
        }
    }
}
