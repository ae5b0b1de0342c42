//! The peer of a link in memory.

ghost use Rattle.std.specs.Prelude.{◌≡◌, ◌≢◌, ◌<◌, ◌≤◌, None, length, get_or, true, false};
ghost use Rattle.hsms_ends.specs.ScriptedLink.{pass_over};
ghost use Rattle.hsms_ends.specs.InnerScriptedLink.{given_of, left_of, wait_octets};

use crate::link::Got;
use hsms_frame::copy_front;
use std::marker::Model;

/// What a peer sends, one wait after the other.
#[derive(Drop)]
pub struct Peer {
    waits: Vec<Option<Vec<u8>>>,
    /// The next wait, and the number of its bytes already returned.
    place: usize,
    within: usize,
    /// The number of waits that returned `Closed`, and whether the last one did.
    closes: u64,
    is_closed: bool,
}

impl Model for Peer {
    ghost use Rattle.std.specs.Prelude.{◌≤◌, length, get_or, vec_len, None};
    ghost use Rattle.hsms_ends.specs.InnerScriptedLink.{PeerState, given_of, left_of, wait_octets};

    ghost Value = { PeerState };

    ghost view = { λ p. record {
      given = given_of (λ v. v.items) p.waits.items p.place p.within;
      left = left_of (λ v. v.items) p.waits.items p.place p.within;
      closes = p.closes;
      closed = p.is_closed;
    } };

    ghost invariant = { λ p. (p.place ≤ vec_len p.waits)
        × (p.within ≤ length (wait_octets (λ v. v.items) (get_or p.waits.items p.place None))) };
}

impl Peer {
    ghost use Rattle.std.specs.Prelude.{◌≡◌, ◌<◌, ◌++◌, [], length, map, option_map, false};
    ghost use Rattle.hsms_ends.specs.Link.{IsGot};
    ghost use Rattle.hsms_ends.specs.ScriptedLink.{Answers, pass_over};
    ghost use Rattle.hsms_ends.specs.InnerScriptedLink.{got_octets, closes_after, is_closed as answers_closed};

    /// Creates a peer that has sent nothing yet.
    pub fn new(waits: Vec<Option<Vec<u8>>>) -> Peer
        ensures { result
            ≡ record {
              given = [];
              left = map (option_map (λ v. v.items)) waits.items;
              closes = 0;
              closed = false;
            } }
    {
        Peer {
            waits,
            place: 0,
            within: 0,
            closes: 0,
            is_closed: false,
        }
    }

    /// Answers a wait, with at most `piece` bytes.
    pub fn answer(&mut self, into: &mut [u8], piece: usize) -> Got
        requires room { 0 < length into.old }
        requires piece { 0 < piece }
        ensures got { IsGot into.new result }
        ensures given { self.new.given ≡ self.old.given ++ got_octets into.new result }
        ensures closes { self.new.closes ≡ closes_after result self.old.closes }
        ensures closed { self.new.closed ≡ answers_closed result }
        ensures answers { Answers (pass_over self.old.left) piece into.new result self.new.left }
    {
        let (place, within) = next_wait(&self.waits, self.place, self.within);
        self.place = place;
        self.within = within;
        self.is_closed = false;
        if place == self.waits.len() {
            self.is_closed = true;
            self.closes = self.closes.saturating_add(1);
            return Got::Closed;
        }
        match &self.waits[place] {
            Some(octets) => {
                let count = copy_front(&octets[within..], into, piece);
                self.within = within + count;
                Got::Octets(count)
            }
            None => {
                self.place = place + 1;
                self.within = 0;
                Got::Quiet
            }
        }
    }
}

/// Returns the next wait and the number of its bytes already returned. Skips a wait whose bytes are used up.
fn next_wait(waits: &[Option<Vec<u8>>], place: usize, within: usize) -> (usize, usize)
    requires place { place ≤ length waits.now }
    requires within { within ≤ length (wait_octets (λ v. v.items) (get_or waits.now place None)) }
    ensures given { given_of (λ v. v.items) waits.now result.0 result.1
        ≡ given_of (λ v. v.items) waits.now place within }
    ensures left { pass_over (left_of (λ v. v.items) waits.now result.0 result.1)
        ≡ pass_over (left_of (λ v. v.items) waits.now place within) }
    ensures place { result.0 ≤ length waits.now }
    ensures within { result.1 ≤ length (wait_octets (λ v. v.items) (get_or waits.now result.0 None)) }
    ensures some { result.0 < length waits.now → get_or waits.now result.0 None ≢ None
        → result.1 < length (wait_octets (λ v. v.items) (get_or waits.now result.0 None)) }
{
    let mut place = place;
    let mut within = within;
    while place < waits.len() && is_used_up(&waits[place], within) {
        place += 1;
        within = 0;
    }
    (place, within)
}

/// Returns whether a wait has bytes and `within` of them are all.
fn is_used_up(wait: &Option<Vec<u8>>, within: usize) -> bool
    ensures some { result ≡ true → wait.now ≢ None }
    ensures used { result ≡ true → within ≡ length (wait_octets (λ v. v.items) wait.now) }
    ensures left { result ≡ false → wait.now ≢ None → within ≢ length (wait_octets (λ v. v.items) wait.now) }
{
    match wait {
        Some(octets) => within == octets.len(),
        None => false,
    }
}
