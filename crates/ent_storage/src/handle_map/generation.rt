ghost use Rattle.std.specs.Prelude.{◌≡◌, ◌^◌, ◌-◌, ◌<◌};
ghost use Rattle.std.specs.Int.NonZero.{non_zero_u32_get};

use ent_handle::Handle;
use std::marker::Model;
use std::num::NonZeroU32;

/// A generation that a handle may have. It is not 0, so a slot needs no room to say that it is
/// vacant.
#[derive(Clone, Copy)]
pub(crate) struct Generation {
    number: NonZeroU32,
}

impl Model for Generation {
    ghost use Rattle.std.specs.Prelude.{ℕ, ◌^◌, ◌<◌};
    ghost use Rattle.std.specs.Coded.{coded_ℕ};
    ghost use Rattle.std.specs.Int.NonZero.{non_zero_u32_get};

    ghost Value = { ℕ };

    ghost coded = { coded_ℕ };

    ghost view = { λ g. non_zero_u32_get g.number };

    ghost invariant = { λ g. non_zero_u32_get g.number < 2 ^ 31 };

    ghost use Rattle.ent_handle.specs.NonZero.{same_proof};
    ghost use Rattle.ent_storage.specs.Generation.{positive, positive-positive, positive-same};

    ghost inverse = { λ n. record {
      number = record { value = positive n; ok = positive-positive n };
    } };

    ghost inverse_ok = { λ g is i.
        let same = positive-same g.number.value g.number.ok in
        record {
          number = record {
            value = same i;
            ok = same_proof same (positive-positive g.number.value) g.number.ok i;
          };
        } };
}

impl Generation {
    /// The generation of a handle.
    pub(super) fn of(handle: Handle) -> Self
        ensures { result ≡ handle.generation }
    {
        let Some(number) = NonZeroU32::new(handle.generation()) else {
            unreachable!()
        };
        Generation { number }
    }

    /// Its number.
    pub(super) fn number(&self) -> u32
        ensures { result ≡ self.now }
    {
        self.number.get()
    }

    /// The handle that has it in the slot of an index.
    pub(super) fn handle(&self, index: u32) -> Handle
        requires { index < 2 ^ 32 - 1 }
        ensures { result ≡ record { index = index; generation = self.now } }
    {
        Handle::from_parts(index, self.number.get())
    }
}
