ghost use Rattle.std.specs.Prelude.{◌≡◌, ◌↔◌, IsTrue};
ghost use Rattle.std.specs.declared.cmp.Ordering.TheVariants.{Less, Equal, Greater};
ghost use Rattle.ent_handle.specs.Handle.{IsHandle, bits, handle_cmp};

use ent_handle::Handle;
use std::marker::Model;

/// A handle as the index keeps it: two numbers, which are aligned as such. A handle of the package
/// in plain Rust is aligned to 8 bytes, and a pair with it would have 16 bytes instead of 12.
#[derive(Clone, Copy)]
pub struct Key {
    index: u32,
    generation: u32,
}

impl Model for Key {
    ghost use Rattle.ent_handle.specs.Handle.{Handle, IsHandle};

    ghost Value = { Handle };

    ghost view = { λ k. record { index = k.index; generation = k.generation } };

    ghost invariant = { λ k. IsHandle (record { index = k.index; generation = k.generation }) };

    ghost inverse = { λ k. record { index = k.index; generation = k.generation } };
}

impl Key {
    /// The key of a handle.
    pub fn of(handle: Handle) -> Self
        ensures { result ≡ handle }
    {
        Key {
            index: handle.index(),
            generation: handle.generation(),
        }
    }

    /// The handle of a key.
    pub fn handle(self) -> Handle
        ensures { result ≡ self }
    {
        Handle::from_parts(self.index, self.generation)
    }

    /// The index of the handle's slot.
    pub fn index(self) -> u32
        ensures { result ≡ self.index }
    {
        self.index
    }

    /// Both numbers in one, as `Handle::to_bits` has them: one comparison of these compares both.
    fn bits(self) -> u64
        ensures bits { result ≡ bits self }
        ensures in_range { IsHandle self }
    {
        (u64::from(self.generation) << 32) + u64::from(self.index)
    }

    /// Returns `true` if it is the key of the handle.
    pub fn is_of(self, handle: Handle) -> bool
        ensures { IsTrue result ↔ (handle_cmp self handle ≡ Equal) }
    {
        self.bits() == handle.to_bits()
    }

    /// Returns `true` if it comes before the handle. The indices are compared first, since most
    /// differ.
    pub fn is_before(self, handle: Handle) -> bool
        ensures { IsTrue result ↔ (handle_cmp self handle ≡ Less) }
    {
        self.index < handle.index()
            || self.index == handle.index() && self.generation < handle.generation()
    }

    /// Returns `true` if it comes after the handle.
    pub fn is_after(self, handle: Handle) -> bool
        ensures { IsTrue result ↔ (handle_cmp self handle ≡ Greater) }
    {
        handle.index() < self.index
            || self.index == handle.index() && handle.generation() < self.generation
    }
}
