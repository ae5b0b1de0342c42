//! Item headers that are written after their bodies, when the length is known.

ghost use Rattle.std.specs.Prelude.{◌≡◌, ◌≤◌, ◌<◌, ◌+◌, ◌^◌, ◌++◌, ◌∷◌, ◌↔◌, IsTrue, length, take, drop, false, Ok, IfOk, OnOk};
ghost use Rattle.secs_item.specs.ShortestEncoding.{field_of};
ghost use Rattle.secs_item.specs.Encoding.{header};

use crate::encoding::MAX_LENGTH;
use crate::format::Format;
use crate::header::header_octets;
use std::alloc::AllocError;

/// Overwrites two bytes.
fn set_two(out: &mut Vec<u8>, at: usize, first: u8, second: u8)
    requires { at + 2 ≤ length out.old.items }
    ensures { out.new.items ≡ take at out.old.items ++ first ∷ second ∷ drop (at + 2) out.old.items }
{
    out[at] = first;
    out[at + 1] = second;
}

/// Writes a header of three or four bytes over the two reserved bytes. The bytes after them move up.
#[inline(never)]
fn patch_long_header(
    out: &mut Vec<u8>,
    start: usize,
    format: Format,
    number: usize,
) -> Result<(), AllocError>
    requires there { start + 2 ≤ length out.old.items }
    requires long { 256 ≤ number }
    requires within { number < 256 ^ 3 }
    ensures { OnOk result (out.new.items
        ≡ take start out.old.items ++ (header format (field_of number) number ++ drop (start + 2) out.old.items)) }
{
    if number <= 0xffff {
        let [first, high, low, _] = header_octets(format, 2, number);
        set_two(out, start, first, high);
        out.insert(start + 2, low)?;
        return Ok(());
    }
    let [first, high, middle, low] = header_octets(format, 3, number);
    set_two(out, start, first, high);
    out.insert(start + 2, middle)?;
    out.insert(start + 3, low)?;
    Ok(())
}

/// Writes the header of an item over the two bytes that are reserved for it before its body. It has the fewest length
/// bytes that hold the number. Returns true if three length bytes hold the number; otherwise writes nothing.
///
/// # Errors
///
/// Returns an error if a header of more than two bytes needs memory and the allocation fails. The content of `out` is
/// then unspecified.
#[inline(always)]
pub fn patch_header(
    out: &mut Vec<u8>,
    start: usize,
    format: Format,
    number: usize,
) -> Result<bool, AllocError>
    requires { start + 2 ≤ length out.old.items }
    ensures fits { IfOk result (λ fits. IsTrue fits ↔ (number < 256 ^ 3)) }
    ensures octets { IfOk result (λ fits. IsTrue fits → out.new.items
        ≡ take start out.old.items ++ (header format (field_of number) number ++ drop (start + 2) out.old.items)) }
    ensures same { result ≡ Ok false → out.new.items ≡ out.old.items }
{
    if number <= 0xff {
        let [first, length, _, _] = header_octets(format, 1, number);
        set_two(out, start, first, length);
        return Ok(true);
    }
    if number > MAX_LENGTH {
        return Ok(false);
    }
    patch_long_header(out, start, format, number)?;
    Ok(true)
}
