//! What the rules need to know of the entries so far, and how an entry changes it.

use crate::entry::Act;
use crate::message::{Message, establishes, is_control_request, is_data_request, may_conclude};
use crate::open_transactions::{Transaction, Transactions};
use crate::phase::Phase;
use crate::settings::Settings;
use hsms_frame::Kind;
use std::alloc::{AllocError, Global};

/// What the rules need to know of the entries so far.
#[derive(Debug, Drop)]
pub struct View {
    pub settings: Settings,
    pub phase: Phase,
    pub up_time: u64,
    pub last_time: u64,
    pub sent_data: Transactions,
    pub sent_control: Transactions,
    pub taken_data: Transactions,
    pub taken_control: Transactions,
}

impl View {
    ghost use Rattle.std.specs.Prelude.{◌≡◌, ◌++◌, [], false, not, filter, IsTrue, OnOk, OnErr, option_to_list};
    ghost use Rattle.hsms_machine.specs.Message.{is_request, is_data_request as opens_data_transaction, is_control_request as opens_control_transaction};
    ghost use Rattle.hsms_machine.specs.Transaction.{opens, opened_by, concludes as is_conclusion};
    ghost use Rattle.hsms_machine.specs.Session.{ends_session as is_end_of_session, selects as is_selection};
    ghost use Rattle.hsms_machine.specs.View.{view_of};
    ghost use Rattle.hsms_machine.specs.EventParts.{event_of, entry_of};
    ghost use Rattle.hsms_machine.specs.ViewRules.{view_after, phase_after, IsUntil};
    ghost use Rattle.hsms_machine.specs.InnerViewRules.{pools_after, IsFresh};
    ghost use Rattle.hsms_machine.specs.OpeningOrder.{AreUntil};
    ghost use Rattle.hsms_machine.specs.InnerOpeningOrder.{uses};

    /// Creates the view of an empty log.
    #[tactic(auto, unfolding(crate::specs::Entry::connection_of))]
    pub fn new(alloc: Global, settings: Settings) -> View
        ensures { result ≡ view_of settings [] }
    {
        View {
            settings,
            phase: Phase::Before,
            up_time: 0,
            last_time: 0,
            sent_data: Transactions::new(alloc),
            sent_control: Transactions::new(alloc),
            taken_data: Transactions::new(alloc),
            taken_control: Transactions::new(alloc),
        }
    }

    /// Adds a valid entry.
    #[inline(always)]
    pub fn take_in(&mut self, time: u64, act: &Act) -> Result<(), AllocError>
        requires fresh { IsFresh self.old act.now }
        requires until { IsUntil time self.old }
        ensures ok { OnOk result (self.new ≡ view_after self.old (entry_of time act.now [])) }
        ensures err { OnErr result (self.new ≡ self.old) }
        ensures opens { OnErr result (IsTrue (opens (event_of act.now []))) }
    {
        self.take_transactions_in(time, act)?;
        self.phase = Self::next_phase(self.phase, act);
        if matches!(act, Act::Up) {
            self.up_time = time;
        }
        self.last_time = time;
        Ok(())
    }

    #[inline(always)]
    fn take_transactions_in(&mut self, time: u64, act: &Act) -> Result<(), AllocError>
        requires fresh { IsFresh self.old act.now }
        requires until { IsUntil time self.old }
        ensures ok { OnOk result (self.new ≡ pools_after self.old (entry_of time act.now [])) }
        ensures err { OnErr result (self.new ≡ self.old) }
        ensures opens { OnErr result (IsTrue (opens (event_of act.now []))) }
    {
        match act {
            Act::Sent(message) => {
                Self::open_in(&mut self.sent_data, &mut self.sent_control, time, *message)?;
                Self::close_in(&mut self.taken_data, &mut self.taken_control, *message);
            }
            Act::Taken(message) => {
                Self::open_in(
                    &mut self.taken_data,
                    &mut self.taken_control,
                    time,
                    *message,
                )?;
                Self::close_in(&mut self.sent_data, &mut self.sent_control, *message);
            }
            Act::T3(system) => self.sent_data.remove_system(*system),
            Act::Up => self.close_all(),
            _ => {}
        }
        Ok(())
    }

    /// Drops all open transactions.
    fn close_all(&mut self)
        ensures { self.new ≡ record self.old { sent_data = []; sent_control = []; taken_data = []; taken_control = [] } }
    {
        self.sent_data.clear();
        self.sent_control.clear();
        self.taken_data.clear();
        self.taken_control.clear();
    }

    /// Appends the transaction that the message opens, if any, to its list.
    #[inline(always)]
    fn open_in(
        primaries: &mut Transactions,
        requests: &mut Transactions,
        time: u64,
        message: Message,
    ) -> Result<(), AllocError>
        requires fresh { IsTrue (is_request message) → (uses message.system primaries.old ≡ false) × (uses message.system requests.old ≡ false) }
        requires later { AreUntil time primaries.old × AreUntil time requests.old }
        ensures data { OnOk result (primaries.new ≡ primaries.old ++ option_to_list (opened_by opens_data_transaction time message)) }
        ensures control { OnOk result (requests.new ≡ requests.old ++ option_to_list (opened_by opens_control_transaction time message)) }
        ensures err { OnErr result ((primaries.new ≡ primaries.old) × (requests.new ≡ requests.old)) }
        ensures opens { OnErr result (IsTrue (is_request message)) }
    {
        if is_data_request(message) {
            primaries.push(Self::opened(time, message))?;
        } else if is_control_request(message) {
            requests.push(Self::opened(time, message))?;
        }
        Ok(())
    }

    /// Returns the transaction that a request opens.
    #[inline(always)]
    fn opened(time: u64, request: Message) -> Transaction
        ensures { result ≡ record { time = time; header = request } }
    {
        Transaction {
            time,
            header: request.header(),
        }
    }

    /// Removes the transaction that the message, sent in the other direction, answers or rejects. Most kinds end none.
    #[inline(always)]
    fn close_in(primaries: &mut Transactions, requests: &mut Transactions, other: Message)
        ensures data { primaries.new ≡ filter (λ opened. not (is_conclusion opened.header other)) primaries.old }
        ensures control { requests.new ≡ filter (λ opened. not (is_conclusion opened.header other)) requests.old }
    {
        if may_conclude(other) {
            primaries.remove_concluded(other);
            requests.remove_concluded(other);
        }
    }

    fn next_phase(phase: Phase, act: &Act) -> Phase
        ensures { result ≡ phase_after phase (event_of act.now []) }
    {
        if matches!(act, Act::Up) {
            Phase::NotSelected
        } else if phase == Phase::Gone || matches!(act, Act::Down) {
            Phase::Gone
        } else if phase == Phase::Over || Self::ends_session(act) {
            Phase::Over
        } else if phase == Phase::Selected || Self::selects(act) {
            Phase::Selected
        } else {
            Phase::NotSelected
        }
    }

    #[tactic(auto, unfolding(crate::specs::Message::separates))]
    fn ends_session(act: &Act) -> bool
        ensures { result ≡ is_end_of_session (event_of act.now []) }
    {
        match act {
            Act::Sent(message) | Act::Taken(message) => matches!(message.kind(), Kind::Separate),
            Act::Cut(_) => true,
            _ => false,
        }
    }

    fn selects(act: &Act) -> bool
        ensures { result ≡ is_selection (event_of act.now []) }
    {
        match act {
            Act::Sent(message) | Act::Taken(message) => establishes(*message),
            _ => false,
        }
    }
}
