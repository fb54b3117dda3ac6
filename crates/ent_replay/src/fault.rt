use thiserror::Error;

/// Why an event was not applied. It changed nothing.
#[derive(Clone, Copy, Debug, PartialEq, Eq, Hash, Error)]
pub enum ReplayFault {
    /// An exclusive event while a call was open.
    #[error("a call is open")]
    Busy,
    /// A `Step` or an `Answer` of a caller without an open call.
    #[error("the caller has no open call")]
    NotOpen,
    /// A `Begin` of a caller with an open call.
    #[error("the caller has an open call")]
    AlreadyOpen,
    /// An `Answer` before the call's `Step`.
    #[error("the call has not made its step")]
    NotStepped,
    /// A second `Step` of one call.
    #[error("the call has made its step")]
    AlreadyStepped,
    /// A `Begin` whose request is above the caller's quota.
    #[error("the quota left is {left}")]
    Quota {
        /// The quota that is left.
        left: u64,
    },
    /// There is no such caller.
    #[error("there is no such caller")]
    Caller,
    /// Memory ran out.
    #[error("out of memory")]
    Memory,
}
