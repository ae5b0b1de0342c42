//! Where both logs have a request and its answer.

/// The entries of both logs that belong to a request, counted from 0.
#[derive(Clone, Copy, Debug, PartialEq, Eq)]
pub struct RequestTrace {
    /// The other log's entry that receives the request, accepted or discarded.
    pub received: Option<usize>,
    /// The other log's first entry after that which sends an answer or a Reject.
    pub answered: Option<usize>,
    /// The own log's entry that receives it. If there is no such answer: the first after the request that receives one.
    pub reply: Option<usize>,
    /// If nothing is answered: the other log's first entry after `received` that ends the session or the connection.
    pub ended: Option<usize>,
}
