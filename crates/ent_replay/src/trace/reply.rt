//! What an allocator answered.
ghost use Rattle.std.specs.Prelude.{◌≡◌, IfOk};
ghost use Rattle.ent_replay.specs.declared.trace.reply.AllocReply.TheVariants.{Handle as AllocHandle};
ghost use Rattle.ent_replay.specs.declared.trace.reply.FlushReply.TheVariants.{Born as FlushBorn};
ghost use Rattle.ent_replay.specs.declared.trace.reply.ReserveReply.TheVariants.{Handles as ReserveHandles};

use crate::handle_list::HandleList;
use ent_handle::{Handle, Memory};
use std::alloc::Global;

/// The answer to a call for a handle that is alive at once.
///
/// ```
/// use forgeni::trace::{AllocReply, Checker};
/// use forgeni::{AllocError, Handle, Limits};
///
/// fn reply(of: Result<Handle, AllocError>) -> Option<AllocReply> {
///     match of {
///         Ok(one) => Some(AllocReply::Handle(one)),
///         Err(AllocError::NeedsFlush) => Some(AllocReply::NeedsFlush),
///         Err(AllocError::Space) => Some(AllocReply::Space),
///         Err(_) => None,
///     }
/// }
///
/// let mut checker = Checker::new(Limits::new(1, 1).unwrap());
/// checker.alloc("0v1".parse::<Handle>()?)?;
/// checker.alloc(reply(Err(AllocError::Space)).ok_or("out of memory")?)?;
/// # Ok::<(), Box<dyn std::error::Error>>(())
/// ```
#[derive(Clone, Copy, Debug, PartialEq, Eq, Hash)]
pub enum AllocReply {
    /// The handle that came to life.
    Handle(Handle),
    /// No slot was free.
    Space,
    /// Handles were requested since the last flush.
    NeedsFlush,
}

impl From<Handle> for AllocReply {
    ghost from_gives = { λ handle reply. reply ≡ AllocHandle handle };

    fn from(handle: Handle) -> Self {
        AllocReply::Handle(handle)
    }
}

/// The answer to a call that frees a handle.
///
/// ```
/// use forgeni::{trace, Handle, Limits};
///
/// let mut checker = trace::Checker::new(Limits::new(1, 1).unwrap());
/// let once: Handle = "0v1".parse()?;
/// checker.alloc(once)?;
/// checker.free(once, trace::FreeReply::Retired)?;
/// checker.free(once, trace::FreeReply::NotAlive)?;
/// # Ok::<(), Box<dyn std::error::Error>>(())
/// ```
#[derive(Clone, Copy, Debug, PartialEq, Eq, Hash)]
pub enum FreeReply {
    /// The handle was freed. What its slot gives next isn't compared.
    Freed,
    /// The handle was freed, and its slot gives this one next.
    Next(Handle),
    /// The handle was freed, and its slot gives no other.
    Retired,
    /// The handle wasn't alive.
    NotAlive,
    /// Handles were requested since the last flush.
    NeedsFlush,
}

/// The answer to a flush.
///
/// ```
/// use forgeni::{trace, Handle, Limits};
///
/// let mut checker = trace::Checker::new(Limits::GREATEST);
/// let both: [Handle; 2] = ["0v1".parse()?, "1v1".parse()?];
/// checker.reserve(0, 2, both)?;
/// // An allocator that only counts what came to life.
/// checker.flush(trace::FlushReply::Count(2))?;
/// # Ok::<(), Box<dyn std::error::Error>>(())
/// ```
#[derive(Debug, Drop)]
pub enum FlushReply {
    /// The handles that came to life, in their order.
    Born(HandleList),
    /// The number of handles that came to life.
    Count(u32),
}

impl FlushReply {
    /// A copy.
    pub(super) fn try_copy(&self, alloc: Global) -> Result<Self, Memory>
        ensures { IfOk result (λ copy. copy ≡ self.now) }
    {
        Ok(match self {
            FlushReply::Born(handles) => FlushReply::Born(handles.try_copy(alloc)?),
            FlushReply::Count(count) => FlushReply::Count(*count),
        })
    }
}

impl From<Vec<Handle>> for FlushReply {
    ghost from_gives = { λ born reply. reply ≡ FlushBorn born.items };

    fn from(born: Vec<Handle>) -> Self {
        FlushReply::Born(HandleList::new(born))
    }
}

/// The answer to a reservation.
///
/// ```
/// use forgeni::{trace, Handle, Limits};
///
/// let mut checker = trace::Checker::new(Limits::new(3, 1).unwrap());
/// checker.reserve(0, 1, "0v1".parse::<Handle>()?)?;
/// checker.reserve(0, 5, trace::ReserveReply::SpaceLeft(2))?;
/// checker.finish()?;
/// # Ok::<(), Box<dyn std::error::Error>>(())
/// ```
#[derive(Debug, Drop)]
pub enum ReserveReply {
    /// The handles, in their order.
    Handles(HandleList),
    /// Too few were left. How many isn't compared.
    Space,
    /// Too few were left: only this many.
    SpaceLeft(u32),
}

impl ReserveReply {
    /// A copy.
    pub(super) fn try_copy(&self, alloc: Global) -> Result<Self, Memory>
        ensures { IfOk result (λ copy. copy ≡ self.now) }
    {
        Ok(match self {
            ReserveReply::Handles(handles) => ReserveReply::Handles(handles.try_copy(alloc)?),
            ReserveReply::Space => ReserveReply::Space,
            ReserveReply::SpaceLeft(left) => ReserveReply::SpaceLeft(*left),
        })
    }
}

impl From<Vec<Handle>> for ReserveReply {
    ghost from_gives = { λ handles reply. reply ≡ ReserveHandles handles.items };

    fn from(handles: Vec<Handle>) -> Self {
        ReserveReply::Handles(HandleList::new(handles))
    }
}
