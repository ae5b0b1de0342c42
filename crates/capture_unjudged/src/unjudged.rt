//! What looks like HSMS in a capture and is not audited.

ghost use Rattle.std.specs.Prelude.{◌≡◌, OnOk, fold};
ghost use Rattle.capture_unjudged.specs.Sets.{with_number};
ghost use Rattle.capture_unjudged.specs.Unjudged.{are_strange};

use crate::devices::push_devices;
use crate::message::message_of;
use crate::numbers::Numbers;
use crate::pairs::Pairs;
use capture_log::{Pair, pairs_of};
use capture_midstream::BufferedPacket;
use capture_pcap::Segment;
use hsms_machine::Settings;
use std::alloc::{AllocError, Global};
use std::net::IpAddr;

/// What looks like HSMS in a capture and is not audited: the midstream sessions, those of other addresses than
/// `--peer`, those with other device IDs, and other ports.
#[derive(Drop)]
pub struct Unjudged {
    port: u16,
    peer: Option<IpAddr>,
    settings: Settings,
    /// Midstream sessions, without `--midstream`.
    pub(crate) running: Pairs,
    /// Sessions of which no end has the address of `--peer`.
    pub(crate) elsewhere: Pairs,
    /// The number of sessions with other device IDs, with `--midstream`.
    pub(crate) strange: u64,
    /// Their device IDs.
    pub(crate) devices: Numbers,
    /// The lower port of each segment that is one message and does not use the audited port.
    pub(crate) ports: Numbers,
    is_complete: bool,
}

impl Unjudged {
    ghost use Rattle.std.specs.Prelude.{◌≡◌, OnOk, OnErr, ◌∷◌, true, IsTrue, ◌↔◌};
    ghost use Rattle.capture_unjudged.specs.Unjudged.{GivesUp, IsNone, Passes, Runs, is_refused};

    /// Returns an empty count for the connections of this port, with these settings. If `peer` is given, one end has
    /// this address.
    pub fn new(alloc: Global, port: u16, peer: Option<IpAddr>, settings: Settings) -> Unjudged
        ensures { IsNone port peer settings result }
    {
        Unjudged {
            port,
            peer,
            settings,
            running: Pairs::new(alloc),
            elsewhere: Pairs::new(alloc),
            strange: 0,
            devices: Numbers::new(alloc),
            ports: Numbers::new(alloc),
            is_complete: false,
        }
    }

    /// Records a segment that no connection accepts, by its addresses and ports.
    pub fn pass(&mut self, segment: &Segment, octets: &[u8]) -> Result<(), AllocError>
        ensures { OnOk result (Passes segment.now octets.now self.old self.new) }
    {
        if message_of(&self.settings, octets).is_none() {
            return Ok(());
        }
        let port = segment.source_port.min(segment.target_port);
        let Some((pair, _, _)) = pairs_of(segment, port) else {
            return Ok(());
        };
        if !pair.is_of(&self.peer) {
            return self.elsewhere.add(pair);
        }
        if segment.source_port == self.port || segment.target_port == self.port {
            return Ok(());
        }
        self.ports.add(port)
    }

    /// Records a segment of a midstream session.
    pub fn run(&mut self, pair: &Pair, octets: &[u8]) -> Result<(), AllocError>
        ensures { OnOk result (Runs pair.now octets.now self.old self.new) }
    {
        if message_of(&self.settings, octets).is_none() {
            return Ok(());
        }
        self.running.add(*pair)
    }

    /// Records a midstream session without a certain sync point, from its buffered packets. It has another device ID if
    /// packets are data messages with other device IDs, and none has this one.
    pub fn give_up(&mut self, alloc: Global, packets: &[BufferedPacket]) -> Result<(), AllocError>
        ensures { OnOk result (GivesUp packets.now self.old self.new) }
    {
        let mut devices = Vec::new(alloc);
        push_devices(&self.settings, packets, &mut devices)?;
        if !are_strange(self.settings.device(), &devices) {
            return Ok(());
        }
        self.strange = self.strange.saturating_add(1);
        add_all(&mut self.devices, &devices)
    }

    /// Records that the capture was read up to where it is audited.
    pub fn complete(&mut self)
        ensures { self.new ≡ record self.old { is_complete = true } }
    {
        self.is_complete = true;
    }

    /// Returns true if the capture was read up to where it is audited.
    pub fn is_complete(&self) -> bool
        ensures { result ≡ self.now.is_complete }
    {
        self.is_complete
    }

    /// Returns true if anything is not audited that no option excludes. `--peer` excludes other addresses, `--port`
    /// other ports.
    pub fn is_refused(&self, has_port: bool) -> bool
        ensures { result ≡ is_refused has_port self.now }
    {
        let has_ports = !has_port && !self.ports.lowest().is_empty();
        self.running.count() > 0 || self.strange > 0 || has_ports
    }
}

// Returns true if there are device IDs, and none is this one.
fn are_strange(device: u16, devices: &[u16]) -> bool
    ensures { result ≡ are_strange device devices.now }
{
    !devices.is_empty() && !devices.contains(&device)
}

// Adds numbers, one after another.
#[tactic(auto, using(crate::proofs::Recursions::all_none, crate::proofs::Recursions::all_first))]
fn add_all(set: &mut Numbers, numbers: &[u16]) -> Result<(), AllocError>
    ensures { OnOk result (set.new.lowest.items ≡ fold with_number set.old.lowest.items numbers.now) }
{
    let Some((first, rest)) = numbers.split_first() else {
        return Ok(());
    };
    set.add(*first)?;
    add_all(set, rest)
}
