//! The length of an item, measured without building the item.

ghost use Rattle.std.specs.Prelude.{◌≡◌, ◌≤◌, ◌<◌, ◌-◌, ℕ, length, drop, IfOk, IfErr, OnOk, IsOk};
ghost use Rattle.secs_item.specs.Fault.{Faults, TextFaults, IsReported, fault_at};
ghost use Rattle.secs_item.specs.Header.{Reason};
ghost use Rattle.secs_item.specs.InnerMeasure.{end_from};
ghost use Rattle.secs_item.specs.InnerDecoding.{item_at, elements_by};
ghost use Rattle.secs_item.specs.Encoding.{IsAtFront, IsText};
ghost use Rattle.secs_item.specs.Item.{Value};

use crate::fault::ItemFault;
use crate::measure_step::read_part;

/// The maximum nesting depth of lists.
pub const MAX_DEPTH: usize = 100;

/// The maximum nesting depth in most sessions. An array with this number of counts is cleared without a call.
const USUAL_DEPTH: usize = 32;

/// Returns the offset after the `count` elements of a list. Its body begins at offset `place`, and its header was read
/// where lists may be nested at most `depth` deep. `counts[d]` is the number of elements still to come in an enclosing
/// list of the innermost one: the list in which lists may be nested `d` deep.
fn end_of_elements<const N: usize>(
    octets: &[u8],
    place: usize,
    count: usize,
    depth: u8,
) -> Result<usize, ItemFault>
    requires within { place ≤ length octets.now }
    requires some { 0 < depth }
    requires few { depth ≤ N }
    ensures { result ≡ end_from place (elements_by (item_at (depth - 1)) count (drop place octets.now)) }
{
    let mut counts = [0; N];
    let outermost = usize::from(depth) - 1;
    let mut inside = outermost;
    let mut left = count;
    let mut end = place;
    loop {
        if left == 0 {
            if inside == outermost {
                return Ok(end);
            }
            inside += 1;
            left = counts[inside];
            continue;
        }
        left -= 1;
        let part = read_part(octets, end, inside as u8)?;
        end = part.end;
        if part.elements > 0 {
            counts[inside] = left;
            inside -= 1;
            left = part.elements;
        }
    }
}

/// Returns the offset after the item at the start. It creates counts only for a list with elements: an array of the
/// size that most sessions need, or of the full size.
fn end_of_item(octets: &[u8], depth: u8) -> Result<usize, ItemFault>
    requires { depth ≤ 100 }
    ensures { result ≡ end_from 0 (item_at depth octets.now) }
{
    let part = read_part(octets, 0, depth)?;
    if part.elements == 0 {
        return Ok(part.end);
    }
    if usize::from(depth) <= USUAL_DEPTH {
        end_of_elements::<USUAL_DEPTH>(octets, part.end, part.elements, depth)
    } else {
        end_of_elements::<MAX_DEPTH>(octets, part.end, part.elements, depth)
    }
}

/// Returns the length in bytes of the item at the start. Its lists are nested at most `depth` deep, and `depth` is at
/// most 100. Bytes after the item are not read. Does not allocate.
///
/// # Errors
///
/// Returns the first error of the bytes; never `Trailing`, `TooLarge` or `Memory`.
pub fn measure_front(octets: &[u8], depth: u8) -> Result<usize, ItemFault>
    requires { depth ≤ 100 }
    ensures ok { IfOk result (λ n. (v : Value) × IsAtFront depth octets.now v n) }
    ensures ok_where { (v : Value) (n : ℕ) → IsAtFront depth octets.now v n → result ≡ Ok n }
    ensures err { IfErr result (IsReported (Faults depth octets.now)) }
    ensures err_where { (at : ℕ) (reason : Reason) → Faults depth octets.now at reason
        → result ≡ Err (fault_at at reason) }
{
    end_of_item(octets, depth)
}

/// Checks that the bytes are a message text: empty, or one item whose lists are nested at most `depth` deep. `depth` is
/// at most 100. Does not allocate.
///
/// # Errors
///
/// Returns the first error of the bytes: `Trailing` if bytes follow the item, but never `TooLarge` or `Memory`.
pub fn measure_text(octets: &[u8], depth: u8) -> Result<(), ItemFault>
    requires { depth ≤ 100 }
    ensures ok { OnOk result (IsText depth octets.now) }
    ensures ok_where { IsText depth octets.now → IsOk result }
    ensures err { IfErr result (IsReported (TextFaults depth octets.now)) }
    ensures err_where { (at : ℕ) (reason : Reason) → TextFaults depth octets.now at reason
        → result ≡ Err (fault_at at reason) }
{
    if octets.is_empty() {
        return Ok(());
    }
    let end = measure_front(octets, depth)?;
    if end < octets.len() {
        return Err(ItemFault::Trailing { at: end });
    }
    Ok(())
}
