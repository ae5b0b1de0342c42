//! The verdict on a pair of logs.

use crate::comparing::LogComparison;
use hsms_compare::LineContradiction;
use hsms_compare_repair::Fact;

/// Whether two logs describe one conversation.
#[derive(Clone, Copy, Debug, PartialEq, Eq)]
pub enum PairVerdict {
    Agree,
    Disagree,
    /// The logs do not decide it, or a part of them is not compared.
    Undecided,
}

/// What is counted in a comparison.
#[derive(Clone, Copy, Debug, PartialEq, Eq)]
pub enum FactKind {
    Skipped,
    Swapped,
    Again,
    Differs,
    Unsent,
    Unfound,
    /// The first contradiction is the order of two lines.
    Order,
}

impl FactKind {
    ghost use Rattle.std.specs.Prelude.{◌≡◌, ◌≤◌, count_by, length};
    ghost use Rattle.hsms_compare_logs.specs.PairVerdicts.{is_of as is_of_kind, order_count as count_of_order};

    /// Returns whether a fact is of this kind.
    pub fn is_of(self, fact: &Fact) -> bool
        ensures { result ≡ is_of_kind self fact.now }
    {
        match self {
            FactKind::Skipped => matches!(fact, Fact::Skipped { .. }),
            FactKind::Swapped => matches!(fact, Fact::Swapped { .. }),
            FactKind::Again => matches!(fact, Fact::Again { .. }),
            FactKind::Differs => matches!(fact, Fact::Differs { .. }),
            FactKind::Unsent => matches!(fact, Fact::Unsent { .. }),
            FactKind::Unfound => matches!(fact, Fact::Unfound { .. }),
            FactKind::Order => false,
        }
    }

    /// Returns the number of facts of this kind.
    fn count_among(self, facts: &[Fact]) -> usize
        ensures count { result ≡ count_by (is_of_kind self) facts.now }
        ensures few { result ≤ length facts.now }
    {
        let mut count = 0;
        for i in 0..facts.len() {
            if self.is_of(&facts[i]) {
                count += 1;
            }
        }
        count
    }

    /// Returns 1 if this is the kind of an order, and the contradiction is one.
    fn order_count(self, contradiction: &Option<LineContradiction>) -> usize
        ensures count { result ≡ count_of_order self contradiction.now }
        ensures few { result ≤ 1 }
    {
        match self {
            FactKind::Order => match contradiction {
                Some(LineContradiction::Order { .. }) => 1,
                Some(LineContradiction::Differs { .. }) => 0,
                Some(LineContradiction::Unsent { .. }) => 0,
                None => 0,
            },
            FactKind::Skipped | FactKind::Swapped | FactKind::Again => 0,
            FactKind::Differs | FactKind::Unsent | FactKind::Unfound => 0,
        }
    }
}

impl LogComparison {
    ghost use Rattle.std.specs.Prelude.{◌≡◌};
    ghost use Rattle.hsms_compare_logs.specs.PairVerdicts.{are_paired, contradicts as has_contradiction, failed_count, is_all, told, verdict_of};

    /// Returns whether the first connections of both logs are compared. If a log is of version 2, they are if they do not
    /// contradict each other: otherwise they may be of two connections.
    pub fn is_pair(&self) -> bool
        ensures { result ≡ are_paired self.now }
    {
        if self.host.up.is_none() || self.equipment.up.is_none() {
            return false;
        }
        self.is_in_order || self.contradiction.is_none()
    }

    /// Returns how many facts of a kind the pair has: none if the connections are not compared.
    pub fn count_of(&self, kind: FactKind) -> u64
        ensures { result ≡ told self.now kind }
    {
        if !self.is_pair() {
            return 0;
        }
        let to_equipment = kind.count_among(self.facts.to_equipment.as_slice()) as u64;
        let to_host = kind.count_among(self.facts.to_host.as_slice()) as u64;
        let orders = kind.order_count(&self.contradiction) as u64;
        to_equipment + to_host + orders
    }

    /// Returns how many requests of both endpoints failed: none if the connections are not compared.
    pub fn count_of_failed(&self) -> u64
        ensures { result ≡ failed_count self.now }
    {
        if !self.is_pair() {
            return 0;
        }
        self.failures.of_host.len() as u64 + self.failures.of_equipment.len() as u64
    }

    /// Returns the verdict on the pair.
    pub fn verdict(&self) -> PairVerdict
        ensures { result ≡ verdict_of self.now }
    {
        if self.contradicts() {
            return PairVerdict::Disagree;
        }
        if self.is_complete() {
            return PairVerdict::Agree;
        }
        PairVerdict::Undecided
    }

    /// Returns whether a fact of the pair is a contradiction.
    fn contradicts(&self) -> bool
        ensures { result ≡ has_contradiction self.now }
    {
        self.count_of(FactKind::Skipped) > 0
            || self.count_of(FactKind::Swapped) > 0
            || self.count_of(FactKind::Again) > 0
            || self.count_of(FactKind::Differs) > 0
            || self.count_of(FactKind::Unsent) > 0
            || self.count_of(FactKind::Order) > 0
    }

    /// Returns whether all of both logs is compared: each has one connection, and no frame is not found.
    fn is_complete(&self) -> bool
        ensures { result ≡ is_all self.now }
    {
        self.is_pair()
            && !self.host.is_followed
            && !self.equipment.is_followed
            && self.count_of(FactKind::Unfound) == 0
    }
}
