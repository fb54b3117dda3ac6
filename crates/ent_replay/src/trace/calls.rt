//! The calls that nothing overlaps: each is made, and says what the allocator answered.
ghost use Rattle.std.specs.Prelude.{◌≡◌, ◌++◌, None, IfOk, OnOk, IfNone, IfSome};
ghost use Rattle.ent_alloc.specs.Sequential.{born, after_flush};
ghost use Rattle.ent_replay.specs.Trace.{alloc_reply, free_reply, freed_reply, after_line, Fits};
ghost use Rattle.ent_replay.specs.Trace.{IsAlone, answered_line};

use crate::handle_list::HandleList;
use crate::trace::call::Call;
use crate::trace::fitting::{fits_born, fits_freed};
use crate::trace::reply::{AllocReply, FlushReply, FreeReply};
use ent_alloc::{AllocFault, Entities, FreeFault};
use ent_handle::{Handle, Memory};
use std::alloc::Global;

/// Makes the call of a line that is no reservation. If what it says was answered isn't what the
/// allocator answered, returns the line as it should be.
pub(super) fn answered(
    alloc: Global,
    entities: &mut Entities,
    line: &Call,
) -> Result<Option<Call>, Memory>
    requires { IsAlone line.now }
    ensures fits { IfOk result (λ expected. IfNone expected (Fits entities.old.allocator line.now)) }
    ensures differs { IfOk result (λ expected. IfSome expected (λ other.
        (¬ (Fits entities.old.allocator line.now))
        × (other ≡ answered_line entities.old.allocator line.now))) }
    ensures after { OnOk result (entities.new.allocator
        ≡ after_line entities.old.allocator line.now) }
{
    match line {
        Call::Alloc(told) => {
            let given = allocated(entities)?;
            let fits = told.is_none_or(|told| told == given);
            Ok(if fits {
                None
            } else {
                Some(Call::Alloc(Some(given)))
            })
        }
        Call::Free(handle, told) => {
            let given = freed(entities, *handle)?;
            let fits = told.is_none_or(|told| fits_freed(told, given));
            Ok(if fits {
                None
            } else {
                Some(Call::Free(*handle, Some(given)))
            })
        }
        Call::Flush(told) => {
            let given = flushed(alloc, entities)?;
            match told {
                Some(told) if !fits_born(told, &given) => Ok(Some(Call::Flush(Some(FlushReply::Born(
                    given,
                ))))),
                _ => Ok(None),
            }
        }
        Call::State(handle, told) => {
            let given = entities.state(*handle);
            let fits = told.is_none_or(|told| told == given);
            Ok(if fits {
                None
            } else {
                Some(Call::State(*handle, Some(given)))
            })
        }
        Call::Len(told) => {
            let given = entities.len();
            let fits = told.is_none_or(|told| told == given);
            Ok(if fits {
                None
            } else {
                Some(Call::Len(Some(given)))
            })
        }
        Call::Reserve(_) => unreachable!(),
    }
}

fn allocated(entities: &mut Entities) -> Result<AllocReply, Memory>
    ensures reply { IfOk result (λ reply. reply ≡ alloc_reply entities.old.allocator) }
    ensures after { OnOk result (entities.new.allocator
        ≡ after_line entities.old.allocator (Call.Alloc None)) }
{
    match entities.alloc() {
        Ok(handle) => Ok(AllocReply::Handle(handle)),
        Err(AllocFault::NeedsFlush) => Ok(AllocReply::NeedsFlush),
        Err(AllocFault::Space) => Ok(AllocReply::Space),
        Err(AllocFault::Memory) => Err(Memory),
    }
}

fn freed(entities: &mut Entities, handle: Handle) -> Result<FreeReply, Memory>
    ensures reply { IfOk result (λ reply. reply ≡ free_reply entities.old.allocator handle) }
    ensures after { OnOk result (entities.new.allocator
        ≡ after_line entities.old.allocator (Call.Free handle None)) }
{
    match entities.free(handle) {
        Ok(freed) => Ok(freed_reply(freed.next)),
        Err(FreeFault::NeedsFlush) => Ok(FreeReply::NeedsFlush),
        Err(FreeFault::NotAlive) => Ok(FreeReply::NotAlive),
        Err(FreeFault::Memory) => Err(Memory),
    }
}

fn freed_reply(next: Option<Handle>) -> FreeReply
    ensures { result ≡ freed_reply next }
{
    match next {
        Some(next) => FreeReply::Next(next),
        None => FreeReply::Retired,
    }
}

fn flushed(alloc: Global, entities: &mut Entities) -> Result<HandleList, Memory>
    ensures reply { IfOk result (λ handles. handles ≡ born entities.old.allocator) }
    ensures after { OnOk result (entities.new.allocator ≡ after_flush entities.old.allocator) }
{
    let mut born = Vec::new(alloc);
    entities.flush(&mut born)?;
    Ok(HandleList::new(born))
}
