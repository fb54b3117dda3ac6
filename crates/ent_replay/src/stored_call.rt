use ent_alloc::Span;

/// What the machine stores of an open call.
///
/// It stores no reply. The positions that the call's step passed determine the reply, however much
/// is reserved after them, so `Answer` reads it from the allocator.
#[derive(Clone, Copy)]
pub(crate) struct StoredCall {
    /// How many handles the call requests.
    pub(crate) requested: u32,
    /// The positions that its step passed, or `None` before the step.
    pub(crate) span: Option<Span>,
}
