//! A text that several workers read side by side. Each of them reads the whole of it, but makes
//! only the systems of its share.
ghost use Rattle.std.specs.Prelude.{◌<◌, IfOk};
ghost use Rattle.ent_script.specs.Shares.{Makes};
ghost use denote.Param.Send.{IsSync};

use crate::in_order::script_in_order;
use crate::merging::merged;
use crate::read_fault::ReadFault;
use crate::script::Script;
use crate::share::Share;
use json::Scratch;
use std::alloc::Global;
use std::thread::{Threads, join_mut};

/// What the workers of a share make of a text, if its frames come last. Each may need as much memory
/// as the text has bytes. An error other than `Memory` says nothing about the text.
#[cycle(halves)]
pub(crate) fn script_of_share<R>(
    rt: &R,
    alloc: Global,
    text: &str,
    share: Share,
) -> Result<Script, ReadFault>
where
    R: Threads + Sync,
    ensures { IfOk result (Makes share text.now) }
{
    if share.count() < 2 {
        let mut scratch = Scratch::new(alloc);
        return script_in_order(alloc, text, &mut scratch, share);
    }
    let (low, high) = share.halves();
    let (first, second) = scripts_of_both(rt, alloc, text, low, high);
    Ok(merged(alloc, first?, second?)?)
}

/// What the workers of two shares make of a text, side by side.
#[cycle(halves)]
fn scripts_of_both<R>(
    rt: &R,
    alloc: Global,
    text: &str,
    low: Share,
    high: Share,
) -> (Result<Script, ReadFault>, Result<Script, ReadFault>)
where
    R: Threads + Sync,
    requires low { 0 < low.count }
    requires high { 0 < high.count }
    ensures low { IfOk result.0 (Makes low text.now) }
    ensures high { IfOk result.1 (Makes high text.now) }
{
    let mut one = || -> Result<Script, ReadFault>
        requires { IsSync R.row }
        ensures { IfOk result (Makes low text.entry.now) }
    { script_of_share(rt, alloc, text, low) };
    let mut other = || -> Result<Script, ReadFault>
        requires { IsSync R.row }
        ensures { IfOk result (Makes high text.entry.now) }
    { script_of_share(rt, alloc, text, high) };
    join_mut(rt, &mut one, &mut other)
}
