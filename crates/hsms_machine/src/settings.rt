//! The parameters of one endpoint of a connection.

use std::marker::Model;

/// The role of the logging endpoint in SECS-II (SEMI E5).
#[derive(Clone, Copy, Debug, PartialEq, Eq)]
pub enum Role {
    /// The factory's computer.
    Host,
    /// The tool. Only equipment sends primaries of stream 9.
    Equipment,
}

/// Which endpoint of the connection logs (SEMI E37, section 6; SEMI E37.1).
#[derive(Clone, Copy, Debug, PartialEq, Eq)]
pub enum Side {
    /// The endpoint that connects. Only it sends Select.req.
    Active,
    /// The endpoint that listens. Only it sends Select.rsp.
    Passive,
}

/// The parameters of the logging endpoint (SEMI E37, section 10, parameters), each within its limits.
#[derive(Clone, Copy, Debug, PartialEq, Eq)]
pub struct Settings {
    version: u8,
    role: Role,
    link: Side,
    device: u16,
    t3: u32,
    t6: u32,
    t7: u32,
    t8: u32,
    max: u32,
    depth: u8,
}

impl Model for Settings {
    ghost use Rattle.hsms_machine.specs.Settings.{Parameters, IsWithinLimits};

    ghost Value = { Parameters };

    ghost view = { λ s. record { version = s.version; role = s.role; link = s.link; device = s.device; t3 = s.t3; t6 = s.t6; t7 = s.t7; t8 = s.t8; max = s.max; depth = s.depth } };

    ghost invariant = { λ s. IsWithinLimits (record { version = s.version; role = s.role; link = s.link; device = s.device; t3 = s.t3; t6 = s.t6; t7 = s.t7; t8 = s.t8; max = s.max; depth = s.depth }) };

    ghost inverse = { λ p. record { version = p.version; role = p.role; link = p.link; device = p.device; t3 = p.t3; t6 = p.t6; t7 = p.t7; t8 = p.t8; max = p.max; depth = p.depth } };
}

/// The maximum device ID (SEMI E37.1).
pub const GREATEST_DEVICE: u16 = 32_767;

/// The minimum time of a timer, in milliseconds.
pub const LEAST_TIME: u32 = 1;

/// The maximum time of a timer, in milliseconds: an hour.
pub const GREATEST_TIME: u32 = 3_600_000;

/// The minimum of the setting for the longest header and text, in bytes.
pub const LEAST_MAX: u32 = 256;

/// The maximum of the setting for the longest header and text, in bytes.
pub const GREATEST_MAX: u32 = 33_554_432;

/// The minimum of the setting for the depth of nested lists.
pub const LEAST_DEPTH: u8 = 1;

/// The maximum of the setting for the depth of nested lists.
pub const GREATEST_DEPTH: u8 = 100;

impl Settings {
    ghost use Rattle.std.specs.Prelude.{◌≡◌, ◌≤◌, ◌↔◌, IsSome, IfSome, IsTrue};
    ghost use Rattle.hsms_machine.specs.Settings.{IsWithinLimits, IsTimeLimit};

    /// Returns the settings with these numbers, for a log of one connection (version 1). Returns `None` if a number is
    /// outside its limits: `device` at most 32,767; `t3`, `t6`, `t7` and `t8` from 1 to 3,600,000 ms; `max` from 256 to
    /// 33,554,432 bytes; `depth` from 1 to 100.
    pub fn new(
        role: Role,
        link: Side,
        device: u16,
        t3: u32,
        t6: u32,
        t7: u32,
        t8: u32,
        max: u32,
        depth: u8,
    ) -> Option<Settings>
        ensures within { IsSome result ↔ IsWithinLimits (record { version = 1; role = role; link = link; device = device; t3 = t3; t6 = t6; t7 = t7; t8 = t8; max = max; depth = depth }) }
        ensures value { IfSome result (λ s. s ≡ record { version = 1; role = role; link = link; device = device; t3 = t3; t6 = t6; t7 = t7; t8 = t8; max = max; depth = depth }) }
    {
        let times = Self::is_time_limit(t3)
            && Self::is_time_limit(t6)
            && Self::is_time_limit(t7)
            && Self::is_time_limit(t8);
        let sizes = (LEAST_MAX..=GREATEST_MAX).contains(&max)
            && (LEAST_DEPTH..=GREATEST_DEPTH).contains(&depth);
        if device <= GREATEST_DEVICE && times && sizes {
            Some(Settings {
                version: 1,
                role,
                link,
                device,
                t3,
                t6,
                t7,
                t8,
                max,
                depth,
            })
        } else {
            None
        }
    }

    /// Returns the same numbers, for a log of several connections (version 2). Allocates no memory.
    pub fn several(self) -> Settings
        ensures { result ≡ record self { version = 2 } }
    {
        Settings { version: 2, ..self }
    }

    /// Returns the version of the log: 1 for one connection, 2 for several. Allocates no memory.
    pub fn version(&self) -> u8
        ensures value { result ≡ self.now.version }
        ensures least { 1 ≤ result }
        ensures greatest { result ≤ 2 }
    {
        self.version
    }

    /// Returns the role of the endpoint: host or equipment.
    pub fn role(&self) -> Role
        ensures { result ≡ self.now.role }
    {
        self.role
    }

    /// Returns whether the endpoint connects or listens.
    pub fn link(&self) -> Side
        ensures { result ≡ self.now.link }
    {
        self.link
    }

    /// Returns the device ID, which is the session ID of data messages: at most 32,767 (SEMI E37.1).
    pub fn device(&self) -> u16
        ensures value { result ≡ self.now.device }
        ensures within { result ≤ 32767 }
    {
        self.device
    }

    /// Returns T3 in milliseconds: the longest wait for a reply to data.
    pub fn t3(&self) -> u32
        ensures value { result ≡ self.now.t3 }
        ensures within { IsTimeLimit result }
    {
        self.t3
    }

    /// Returns T6 in milliseconds: the longest wait for a Select.rsp or a Linktest.rsp.
    pub fn t6(&self) -> u32
        ensures value { result ≡ self.now.t6 }
        ensures within { IsTimeLimit result }
    {
        self.t6
    }

    /// Returns T7 in milliseconds: the longest time that a connection may be without being selected.
    pub fn t7(&self) -> u32
        ensures value { result ≡ self.now.t7 }
        ensures within { IsTimeLimit result }
    {
        self.t7
    }

    /// Returns T8 in milliseconds: the longest time between bytes of one message. A log does not measure it.
    pub fn t8(&self) -> u32
        ensures value { result ≡ self.now.t8 }
        ensures within { IsTimeLimit result }
    {
        self.t8
    }

    /// Returns the maximum number of bytes of header and text of one message.
    pub fn max(&self) -> u32
        ensures value { result ≡ self.now.max }
        ensures least { 256 ≤ result }
        ensures greatest { result ≤ 33554432 }
    {
        self.max
    }

    /// Returns how deep lists may be nested in the text of a data message.
    pub fn depth(&self) -> u8
        ensures value { result ≡ self.now.depth }
        ensures least { 1 ≤ result }
        ensures greatest { result ≤ 100 }
    {
        self.depth
    }

    fn is_time_limit(time: u32) -> bool
        ensures { IsTrue result ↔ IsTimeLimit time }
    {
        LEAST_TIME <= time && time <= GREATEST_TIME
    }

    /// Proves that all of them are within their limits. Called for this fact only; it does nothing.
    pub fn are_within_limits(&self)
        ensures { IsWithinLimits self.now }
    {
        let _version = self.version;
    }
}
