//! Where a direction begins.

ghost use Rattle.std.specs.Prelude.{◌≡◌, ◌≤◌, true, false, IfSome, IfNone, length};
ghost use Rattle.capture_midstream.specs.SyncPoint.{BeginsAs, BeginsAtEnd, CountsAs, IsRefused, NoMessageAt, SomeMessageAt, IsSureBy};
ghost use Rattle.capture_midstream.specs.InnerSyncPoint.{BeginsHere};

use crate::message_check::{Found, front_of};
use crate::session_filter::Session;

// So many messages one behind another are looked at: one alone may be made of the octets of a text.
const MOST: u8 = 3;

/// The first place at which a direction may begin.
#[derive(Clone, Copy, Debug, PartialEq, Eq)]
pub enum Beginning {
    /// It begins here, whatever follows.
    Sure(usize),
    /// It may begin here, and not before, by what follows.
    Open(usize),
}

/// How many messages of the session stand whole one behind another at the front, of at most so many that are looked at.
/// There is no number where something else stands there, or behind one of them. Takes no memory.
#[tactic(auto, using(crate::proofs::Rows::nothing_counts, crate::proofs::Rows::missing_counts, crate::proofs::Rows::begun_counts, crate::proofs::Rows::other_counts))]
pub(crate) fn row(session: Session, octets: &[u8], most: u8) -> Option<u8>
    requires { session.depth ≤ 100 }
    ensures count { CountsAs session most octets.now result }
    ensures bound { IfSome result (λ count. count ≤ most) }
{
    if most == 0 {
        return Some(0);
    }
    match front_of(session, octets) {
        Found::Missing | Found::Begun => Some(0),
        Found::Other => None,
        Found::Whole(size) => {
            let (_, subsequent) = octets.split_at(size);
            match row(session, subsequent, most - 1) {
                Some(others) => Some(others + 1),
                None => None,
            }
        }
    }
}

/// The first place from `from` on at which a direction may begin, whose octets so far these are: each place before it
/// is refused, since no message of the session stands there, or something else behind one or two of them. Takes no
/// memory.
#[tactic(auto, using(crate::proofs::Rows::end_counts))]
pub fn begins(session: Session, octets: &[u8], from: usize) -> Beginning
    requires depth { session.depth ≤ 100 }
    requires within { from ≤ length octets.now }
    ensures { BeginsAs session octets.now from result }
{
    for place in from..octets.len() {
        if let Some(beginning) = beginning_at(session, octets, place) {
            return beginning;
        }
    }
    Beginning::Open(octets.len())
}

// The beginning at a place that isn't refused.
fn beginning_at(session: Session, octets: &[u8], place: usize) -> Option<Beginning>
    requires depth { session.depth ≤ 100 }
    requires within { place ≤ length octets.now }
    ensures some { IfSome result (BeginsHere session octets.now place) }
    ensures none { IfNone result (IsRefused session octets.now place) }
{
    let (_, subsequent) = octets.split_at(place);
    match row(session, subsequent, MOST) {
        Some(count) if count == MOST => Some(Beginning::Sure(place)),
        Some(_) => Some(Beginning::Open(place)),
        None => None,
    }
}

/// The place from `from` on at which a direction begins, whose octets these are and of which none follows: the first
/// one where a message of the session stands whole, and up to two behind it, as far as they are there; or else that
/// behind all octets. Takes no memory.
pub fn begins_at_end(session: Session, octets: &[u8], from: usize) -> usize
    requires depth { session.depth ≤ 100 }
    requires within { from ≤ length octets.now }
    ensures { BeginsAtEnd session octets.now from result }
{
    for place in from..octets.len() {
        let (_, subsequent) = octets.split_at(place);
        if consistent(session, subsequent) {
            return place;
        }
    }
    octets.len()
}

// Whether a message stands whole at the front, and nothing else behind it.
#[tactic(auto, unfolding(crate::specs::SyncPoint::NoMessageAt, crate::specs::SyncPoint::SomeMessageAt))]
fn consistent(session: Session, octets: &[u8]) -> bool
    requires { session.depth ≤ 100 }
    ensures some { result ≡ true → SomeMessageAt session octets.now }
    ensures none { result ≡ false → NoMessageAt session octets.now }
{
    match row(session, octets, MOST) {
        Some(count) => count > 0,
        None => false,
    }
}

/// Whether three messages of the session stand one behind another at the front. Takes no memory.
#[tactic(auto, using(crate::proofs::Places::is_sure))]
pub(crate) fn is_sure(session: Session, octets: &[u8]) -> bool
    requires { session.depth ≤ 100 }
    ensures { IsSureBy session octets.now result }
{
    match row(session, octets, MOST) {
        Some(count) => count == MOST,
        None => false,
    }
}
