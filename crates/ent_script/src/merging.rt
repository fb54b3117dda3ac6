//! Scripts of two shares, put together.
ghost use Rattle.std.specs.Prelude.{◌≡◌, IfOk};
ghost use Rattle.std.specs.Option.{option_map_or};
ghost use Rattle.ent_script.specs.Shares.{both, with_operations};

use crate::frame::Frame;
use crate::script::Script;
use crate::system::System;
use ent_handle::Memory;
use std::alloc::Global;

/// The script with the frames of both. The limits and the components are those of the first one.
pub(crate) fn merged(alloc: Global, first: Script, second: Script) -> Result<Script, Memory>
    ensures { IfOk result (λ script.
        script ≡ record first { frames = both (both with_operations) first.frames second.frames }) }
{
    let (limits, components, frames) = first.into_parts();
    let (_, _, others) = second.into_parts();
    Ok(Script::new(limits, components, both_frames(alloc, frames, others)?))
}

fn both_frames(alloc: Global, frames: Vec<Frame>, others: Vec<Frame>) -> Result<Vec<Frame>, Memory>
    ensures { IfOk result (λ all. all.items ≡ both (both with_operations) frames.items others.items) }
{
    let mut all = Vec::with_capacity(alloc, frames.len())?;
    let mut others = others.into_iter();
    for frame in frames {
        all.push_reserved(frame_beside(alloc, frame, others.next())?);
    }
    Ok(all)
}

fn frame_beside(alloc: Global, frame: Frame, other: Option<Frame>) -> Result<Frame, Memory>
    ensures { IfOk result (λ all. all ≡ option_map_or (both with_operations frame) other frame) }
{
    let Some(other) = other else {
        return Ok(frame);
    };
    let systems = both_systems(alloc, frame.into_systems(), other.into_systems())?;
    Ok(Frame::new(systems))
}

fn both_systems(
    alloc: Global,
    systems: Vec<System>,
    others: Vec<System>,
) -> Result<Vec<System>, Memory>
    ensures { IfOk result (λ all. all.items ≡ both with_operations systems.items others.items) }
{
    let mut all = Vec::with_capacity(alloc, systems.len())?;
    let mut others = others.into_iter();
    for system in systems {
        all.push_reserved(system_beside(system, others.next()));
    }
    Ok(all)
}

/// The one that has operations.
fn system_beside(system: System, other: Option<System>) -> System
    ensures { result ≡ option_map_or (with_operations system) other system }
{
    match other {
        Some(other) if system.operations().is_empty() => other,
        _ => system,
    }
}
