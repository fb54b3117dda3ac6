ghost use Rattle.std.specs.Prelude.{◌≡◌, ◌≤◌, length, drop, IfSome};
ghost use Rattle.std.specs.Iterator.{YieldsFirstBy, UpTo, item_count};
ghost use Rattle.std.specs.Iterator.SizeHint.{IsWithinCount};
ghost use Rattle.ent_queue.specs.Command.{Command, IsRefusal};
ghost use Rattle.ent_queue.specs.Entry.{command_of};
ghost use Rattle.ent_queue.specs.Unpacking.{unpacked_command, after_first, BeginsWith, ArePacked};
ghost use Rattle.ent_queue.specs.Unpacking.{unpacked_commands, unpacked_refusal};
ghost use Rattle.std.specs.Prelude.{List, ℕ};

use crate::bundle_ref::BundleRef;
use crate::entry::Entry;
use crate::handles_ref::HandlesRef;
use crate::kind::{DESPAWN, INSERT, REMOVE, SPAWN, SPAWN_MANY};
use crate::reading::{read_handle, read_u8, read_u32, read_u64};
use ent_handle::ComponentId;
use ent_shared::Refused;
use std::marker::Model;

/// Yields the commands of a queue, in the order of issue.
#[derive(Drop)]
pub struct Entries<'a> {
    left: usize,
    bytes: &'a [u8],
}

impl<'a> Model for Entries<'a> {
    ghost use Rattle.std.specs.Prelude.{List};
    ghost use Rattle.ent_queue.specs.Command.{Command};

    ghost Value = { List Command };

    ghost use Rattle.ent_queue.specs.Unpacking.{unpacked_commands, ArePacked};

    ghost view = { λ e. unpacked_commands e.left e.bytes.now };

    ghost invariant = { λ e. ArePacked e.left e.bytes.now };
}

impl<'a> Entries<'a> {
    /// That many commands, of which these are the bytes.
    pub(crate) fn new(left: usize, bytes: &'a [u8]) -> Self
        requires { ArePacked left bytes.now }
        ensures { result ≡ unpacked_commands left bytes.now }
    {
        Entries { left, bytes }
    }
}

impl<'a> Iterator for Entries<'a> {
    type Item = Entry<'a>;

    ghost next_gives = { YieldsFirstBy command_of (λ commands. commands) };

    ghost remaining = { item_count (λ commands. commands) };

    fn next(&mut self) -> Option<Entry<'a>> {
        if self.left == 0 {
            return None;
        }
        let (entry, rest) = read_entry(self.bytes);
        self.left -= 1;
        self.bytes = rest;
        Some(entry)
    }

    #[tactic(auto, using(crate::proofs::Queues::length_of_commands))]
    fn size_hint(&self) -> (usize, Option<usize>)
        ensures lower { IsWithinCount result.0 (item_count (λ commands. commands) self.now) }
        ensures upper { IfSome result.1 (UpTo (item_count (λ commands. commands) self.now)) }
        ensures exact { result ≡ (length self.now, Some (length self.now)) }
    {
        (self.left, Some(self.left))
    }
}

impl ExactSizeIterator for Entries<'_> {
    #[tactic(auto, using(crate::proofs::Queues::length_of_commands))]
    fn len(&self) -> usize {
        self.left
    }
}

/// The command at the front of the bytes, and the bytes after it.
#[inline(always)]
fn read_entry(bytes: &[u8]) -> (Entry<'_>, &[u8])
    requires { (c : Command) × (rest : List ℕ) × BeginsWith c bytes.now rest }
    ensures entry { command_of result.0 ≡ unpacked_command bytes.now }
    ensures rest { result.1.now ≡ after_first bytes.now }
{
    let (kind, parts) = read_u8(bytes);
    match kind {
        SPAWN => {
            let (handle, parts) = read_handle(parts);
            let (bundle, rest) = BundleRef::read(parts);
            (Entry::Spawn(handle, bundle), rest)
        }
        SPAWN_MANY => {
            let (count, parts) = read_u32(parts);
            let (handles, parts) = HandlesRef::read(parts, count);
            let (bundle, rest) = BundleRef::read(parts);
            (Entry::SpawnMany(handles, bundle), rest)
        }
        INSERT => {
            let (handle, parts) = read_handle(parts);
            let (bundle, rest) = BundleRef::read(parts);
            (Entry::Insert(handle, bundle), rest)
        }
        REMOVE => {
            let (handle, parts) = read_handle(parts);
            let (id, rest) = read_u8(parts);
            (Entry::Remove(handle, ComponentId(id)), rest)
        }
        DESPAWN => {
            let (handle, rest) = read_handle(parts);
            (Entry::Despawn(handle), rest)
        }
        _ => {
            let (wanted, parts) = read_u32(parts);
            let (why, rest) = read_reason(wanted, parts);
            (Entry::Refused { wanted, why }, rest)
        }
    }
}

/// Why that many handles were refused, and the bytes after it.
fn read_reason(wanted: u32, bytes: &[u8]) -> (Refused, &[u8])
    requires long { 9 ≤ length bytes.now }
    requires is { IsRefusal wanted (unpacked_refusal wanted bytes.now) }
    ensures why { result.0 ≡ unpacked_refusal wanted bytes.now }
    ensures rest { result.1.now ≡ drop 8 (drop 1 bytes.now) }
{
    let (kind, bytes) = read_u8(bytes);
    let (left, rest) = read_u64(bytes);
    if kind == 1 {
        let left = left as u32;
        (Refused::Space { wanted, left }, rest)
    } else {
        (Refused::Quota { left }, rest)
    }
}
