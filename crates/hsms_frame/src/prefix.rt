//! Bytes at the start of a slice or a vector.

ghost use Rattle.std.specs.Prelude.{◌≡◌, ◌≤◌, ◌++◌, drop, take, length, vec_len, min};

/// Copies as much of a slice's start as fits, at most `piece` bytes. Returns how many bytes it copied.
pub fn copy_front(from: &[u8], into: &mut [u8], piece: usize) -> usize
    ensures count { result ≡ min (min (length from.now) (length into.old)) piece }
    ensures front { take result into.new ≡ take result from.now }
    ensures after { into.new ≡ take result from.now ++ drop result into.old }
{
    let count = from.len().min(into.len()).min(piece);
    into[..count].copy_from_slice(&from[..count]);
    count
}

/// Removes bytes from the front.
pub fn drop_front(octets: &mut Vec<u8>, count: usize)
    requires { count ≤ vec_len octets.old }
    ensures { octets.new.items ≡ drop count octets.old.items }
{
    let rest = octets.len() - count;
    octets.copy_within(count.., 0);
    octets.truncate(rest);
}
