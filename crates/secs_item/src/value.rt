//! Values and their bytes, for the formats whose values are not plain bytes.

ghost use Rattle.std.specs.Prelude.{◌≡◌, ◌++◌, ◌<◌, length, OnOk};
ghost use Rattle.std.specs.Int.{w8, w16, w32, w64};
ghost use Rattle.std.specs.List.{AllByRecursion};
ghost use Rattle.secs_item.specs.InnerCodec.{Codec, of_signed, of_truth, of_unread, of_unsigned};

use byteorder::{BigEndian, ByteOrder};
use std::alloc::AllocError;

/// A value in an item's body, with the number of bytes that its format gives.
pub trait Value: Copy + Drop {
    /// The size of a value in bytes, the value of given bytes, the bytes of a value, and the range of the type.
    ghost codec: { Codec Self };

    /// Returns the value of these bytes.
    fn from_octets(octets: &[u8]) -> Self
        requires { length octets.now ≡ codec.size }
        ensures { result ≡ codec.value_of octets.now };

    /// Appends the value's bytes.
    fn push_octets(self, octets: &mut Vec<u8>) -> Result<(), AllocError>
        ensures octets { OnOk result (octets.new.items ≡ octets.old.items ++ codec.octets_of self) }
        ensures fits { codec.fits self };
}

impl Value for bool {
    ghost codec = { of_truth };

    fn from_octets(octets: &[u8]) -> bool {
        octets[0] != 0
    }

    fn push_octets(self, octets: &mut Vec<u8>) -> Result<(), AllocError> {
        octets.extend_from_slice(&[u8::from(self)])
    }
}

impl Value for i8 {
    ghost codec = { of_signed w8 };

    fn from_octets(octets: &[u8]) -> i8 {
        octets[0].cast_signed()
    }

    fn push_octets(self, octets: &mut Vec<u8>) -> Result<(), AllocError> {
        octets.extend_from_slice(&self.to_be_bytes())
    }
}

impl Value for i16 {
    ghost codec = { of_signed w16 };

    fn from_octets(octets: &[u8]) -> i16 {
        BigEndian::read_i16(octets)
    }

    fn push_octets(self, octets: &mut Vec<u8>) -> Result<(), AllocError> {
        octets.extend_from_slice(&self.to_be_bytes())
    }
}

impl Value for i32 {
    ghost codec = { of_signed w32 };

    fn from_octets(octets: &[u8]) -> i32 {
        BigEndian::read_i32(octets)
    }

    fn push_octets(self, octets: &mut Vec<u8>) -> Result<(), AllocError> {
        octets.extend_from_slice(&self.to_be_bytes())
    }
}

impl Value for i64 {
    ghost codec = { of_signed w64 };

    fn from_octets(octets: &[u8]) -> i64 {
        BigEndian::read_i64(octets)
    }

    fn push_octets(self, octets: &mut Vec<u8>) -> Result<(), AllocError> {
        octets.extend_from_slice(&self.to_be_bytes())
    }
}

impl Value for u16 {
    ghost codec = { of_unsigned 2 };

    fn from_octets(octets: &[u8]) -> u16 {
        BigEndian::read_u16(octets)
    }

    fn push_octets(self, octets: &mut Vec<u8>) -> Result<(), AllocError> {
        octets.extend_from_slice(&self.to_be_bytes())
    }
}

impl Value for u32 {
    ghost codec = { of_unsigned 4 };

    fn from_octets(octets: &[u8]) -> u32 {
        BigEndian::read_u32(octets)
    }

    fn push_octets(self, octets: &mut Vec<u8>) -> Result<(), AllocError> {
        octets.extend_from_slice(&self.to_be_bytes())
    }
}

impl Value for u64 {
    ghost codec = { of_unsigned 8 };

    fn from_octets(octets: &[u8]) -> u64 {
        BigEndian::read_u64(octets)
    }

    fn push_octets(self, octets: &mut Vec<u8>) -> Result<(), AllocError> {
        octets.extend_from_slice(&self.to_be_bytes())
    }
}

impl<const N: usize> Value for [u8; N] {
    ghost codec = { of_unread N };

    fn from_octets(octets: &[u8]) -> [u8; N] {
        let mut value = [0; N];
        value.copy_from_slice(octets);
        value
    }

    fn push_octets(self, octets: &mut Vec<u8>) -> Result<(), AllocError> {
        octets_known(&self);
        octets.extend_from_slice(&self)
    }
}

/// States for the proof that bytes in memory are below 256. Does nothing at run time.
pub fn octets_known(octets: &[u8])
    ensures { AllByRecursion (λ n. n < 256) octets.now }
{}
