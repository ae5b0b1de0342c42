//! Groups of entries, each of which leads to the next one of its group.

use crate::events::system_of;
use hsms_machine::Event;

/// A group of entries.
#[derive(Clone, Copy)]
pub enum Group {
    /// Those with these system bytes.
    System(u32),
    /// Those that end the session or the connection.
    Ends,
}

impl Group {
    ghost use Rattle.std.specs.Prelude.{◌≡◌};
    ghost use Rattle.hsms_compare_causes.specs.InnerGroups.{leads as leads_on};

    /// Returns whether an event leads to the next entry of the group.
    pub fn leads(self, event: &Event) -> bool
        ensures { result ≡ leads_on self event.now }
    {
        match self {
            Group::System(system) => match system_of(event) {
                Some(other) => other == system,
                None => false,
            },
            Group::Ends => true,
        }
    }
}
