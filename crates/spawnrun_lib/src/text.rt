//! A text in parts.
ghost use Rattle.std.specs.Prelude.{◌≡◌, IfOk};
ghost use Rattle.spawnrun_lib.specs.Texts.{joined};

use ent_handle::Memory;
use std::alloc::Global;
use std::marker::Model;

/// A text in parts, each behind the one before. Contracts see its bytes.
#[derive(Drop)]
pub struct Text {
    parts: Vec<Vec<u8>>,
}

impl Model for Text {
    ghost use Rattle.std.specs.Prelude.{ℕ, List};

    ghost Value = { List ℕ };

    ghost use Rattle.spawnrun_lib.specs.Texts.{joined};

    ghost view = { λ t. joined t.parts.items };
}

impl Text {
    /// The text of these parts. It doesn't allocate.
    pub(crate) fn of(parts: Vec<Vec<u8>>) -> Self
        ensures { result ≡ joined parts.items }
    {
        Text { parts }
    }

    /// A text of one part.
    ///
    /// # Errors
    ///
    /// `Memory` if there isn't enough memory for the list of parts.
    pub(crate) fn one(alloc: Global, part: Vec<u8>) -> Result<Self, Memory>
        ensures { IfOk result (λ text. text ≡ part.items) }
    {
        let mut parts = Vec::with_capacity(alloc, 1)?;
        parts.push_reserved(part);
        Ok(Text::of(parts))
    }

    /// The parts, in their order.
    pub fn parts(&self) -> &[Vec<u8>]
        ensures { joined result.now ≡ self.now }
    {
        &self.parts
    }
}
