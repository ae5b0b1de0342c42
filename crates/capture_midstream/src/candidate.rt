//! A place at which a direction begins.

/// The place, and whether three messages stand there one behind another.
#[derive(Clone, Copy)]
pub(crate) struct Spot {
    pub place: u64,
    pub is_sure: bool,
}
