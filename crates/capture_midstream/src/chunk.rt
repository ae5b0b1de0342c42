//! Octets at a place.

/// Octets of a direction, and the place of the first of them.
#[derive(Drop)]
pub(crate) struct Piece {
    pub place: u32,
    pub octets: Vec<u8>,
}
