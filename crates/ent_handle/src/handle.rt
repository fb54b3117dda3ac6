ghost use Rattle.std.specs.Prelude.{◌≡◌, ◌+◌, ◌-◌, ◌*◌, ◌^◌, ◌<◌, ◌≤◌, ◌↔◌, ◌≢◌, IsSome, IfSome};
ghost use Rattle.std.specs.Prelude.{IfNone, Some};
ghost use Rattle.std.proofs.Common.{rules};
ghost use Rattle.std.specs.Cmp.{partial_order_from_own_ties};
ghost use Rattle.std.specs.Cmp.Rules.{comparing};
ghost use Rattle.std.specs.Ordering.{as_partial_cmp, nat_cmp, ordering_then};
ghost use Rattle.ent_handle.specs.Handle.{Handle, IsHandle, bits, handle_cmp, handle_cmp_total};
ghost use Rattle.ent_handle.specs.Handle.{handle_eq};
ghost use Rattle.std.specs.Hash as fed;
ghost use Rattle.std.specs.Cmp.Rules.{hashing};

use std::cmp::Ordering;
use std::hash::{Hash, Hasher};
use std::marker::Model;
use std::num::NonZeroU64;

/// The name of an entity: the index of a slot, and a generation that tells the slot's entities
/// apart. Handles are ordered by index, and then by generation.
///
/// A handle takes 8 bytes, and so does an `Option<Handle>`. `Display` and `Debug` write it as
/// `0v1`, and it is parsed from that text.
///
/// A handle is only a name. A handle that was made by hand, or by another allocator, names an
/// entity here if one with that index and generation is alive.
///
/// ```
/// use forgeni::Handle;
///
/// let mut handles: Vec<Handle> = ["2v1", "0v7", "1v3"]
///     .iter()
///     .map(|text| text.parse())
///     .collect::<Result<_, _>>()?;
/// handles.sort();
/// assert_eq!(format!("{handles:?}"), "[0v7, 1v3, 2v1]");
/// handles.sort_by(Handle::by_bits);
/// assert_eq!(format!("{handles:?}"), "[2v1, 1v3, 0v7]");
/// # Ok::<(), forgeni::ParseHandleError>(())
/// ```
///
/// An index is 0 to 4,294,967,294, and a generation 1 to 2,147,483,647: Bevy's ranges, without the
/// index of its placeholder. As in Bevy, each entity of a slot has the generation after that of the
/// entity before it, so an earlier handle doesn't name a later entity. After the last generation a
/// slot has no more entities, whereas Bevy starts again with the first one. The order is this
/// project's own: that of Bevy and hecs is [`by_bits`](Self::by_bits).
#[derive(Clone, Copy)]
pub struct Handle {
    bits: NonZeroU64,
}

impl Model for Handle {
    ghost use Rattle.std.specs.Int.NonZero.{non_zero_u64_get};
    ghost use Rattle.ent_handle.specs.Handle.{Handle, IsHandle, handle_of_bits};
    ghost use Rattle.ent_handle.specs.NonZero.{word_of, word_of-positive};
    ghost use Rattle.ent_handle.specs.NonZero.{word_of-handle_of_bits, same_proof};

    ghost Value = { Handle };

    ghost view = { λ h. handle_of_bits (non_zero_u64_get h.bits) };

    ghost invariant = { λ h. IsHandle (handle_of_bits (non_zero_u64_get h.bits)) };

    ghost inverse = { λ h. record {
      bits = record { value = word_of h; ok = word_of-positive h };
    } };

    ghost inverse_ok = { λ h is i.
        let same = word_of-handle_of_bits h.bits.value h.bits.ok in
        record {
          bits = record {
            value = same i;
            ok = same_proof same (word_of-positive (handle_of_bits h.bits.value)) h.bits.ok i;
          };
        } };
}

impl Handle {
    /// Returns the handle with these numbers: an index below 4,294,967,295, a generation from 1 to
    /// 2,147,483,647. `None` if one of them is out of range.
    ///
    /// ```
    /// use forgeni::Handle;
    ///
    /// const FIRST: Handle = Handle::new(0, 1).unwrap();
    /// assert_eq!(FIRST.to_string(), "0v1");
    /// assert_eq!(Handle::new(0, 0), None);
    /// ```
    #[must_use]
    pub fn new(index: u32, generation: u32) -> Option<Self>
        ensures in_range { IsSome result
            ↔ IsHandle (record { index = index; generation = generation }) }
        ensures value { IfSome result (λ h. h ≡ record { index = index; generation = generation }) }
    {
        if index < u32::MAX && 1 <= generation && generation < 1 << 31 {
            Some(Handle::from_parts(index, generation))
        } else {
            None
        }
    }

    /// The handle of these numbers, which have to be in range: the index is 0 to 4,294,967,294, the
    /// generation 1 to 2,147,483,647. It tests nothing when it runs, so it is for a caller that
    /// keeps such numbers. `new` tests them.
    pub fn from_parts(index: u32, generation: u32) -> Self
        requires { IsHandle (record { index = index; generation = generation }) }
        ensures { result ≡ record { index = index; generation = generation } }
    {
        let bits = ((generation as u64) << 32) + index as u64;
        // The bits are never 0, and to take another number for 0 costs less than a branch.
        let bits = match NonZeroU64::new(bits) {
            Some(bits) => bits,
            None => NonZeroU64::MIN,
        };
        Handle { bits }
    }

    /// Returns the index of its slot: 0 to 4,294,967,294.
    ///
    /// ```
    /// use forgeni::Entities;
    ///
    /// let mut entities = Entities::new();
    /// let mut healths = vec![0; 10];
    /// let cart = entities.alloc()?;
    /// // A table by slot, as engines have it.
    /// healths[cart.index() as usize] = 100;
    /// assert_eq!(healths[0], 100);
    /// # Ok::<(), Box<dyn std::error::Error>>(())
    /// ```
    #[must_use]
    pub fn index(self) -> u32
        ensures { result ≡ self.index }
    {
        (self.bits.get() & 0xffff_ffff) as u32
    }

    /// Returns its generation: 1 for the first entity of a slot, and at most 2,147,483,647.
    ///
    /// ```
    /// use forgeni::Entities;
    ///
    /// let mut entities = Entities::new();
    /// for _ in 0..3 {
    ///     let shot = entities.alloc()?;
    ///     entities.free(shot)?;
    /// }
    /// // The fourth entity of slot 0.
    /// let shot = entities.alloc()?;
    /// assert_eq!((shot.index(), shot.generation()), (0, 4));
    /// # Ok::<(), Box<dyn std::error::Error>>(())
    /// ```
    #[must_use]
    pub fn generation(self) -> u32
        ensures { result ≡ self.generation }
    {
        (self.bits.get() >> 32) as u32
    }

    /// The handle of the slot's next occupant: of the same index, and of the next generation, which
    /// has to be in range. It tests nothing when it runs.
    ///
    /// It is never `None`. As an `Option` its bits need no test for 0, which would stand for
    /// `None`.
    pub fn following(self) -> Option<Self>
        requires { IsHandle (record self { generation = self.generation + 1 }) }
        ensures { result ≡ Some (record self { generation = self.generation + 1 }) }
    {
        let bits = NonZeroU64::new(self.bits.get() + (1 << 32))?;
        Some(Handle { bits })
    }

    /// Returns both numbers in one: the generation times 2^32, plus the index.
    ///
    /// ```
    /// use forgeni::Handle;
    ///
    /// let handle = Handle::new(7, 2).unwrap();
    /// assert_eq!(Handle::from_bits(handle.to_bits()), Some(handle));
    /// ```
    #[must_use]
    pub fn to_bits(self) -> u64
        ensures bits { result ≡ bits self }
        ensures in_range { IsHandle self }
    {
        self.bits.get()
    }

    /// Both numbers in one with the index above, which is a rotation of the bits: one comparison of
    /// these orders handles by index, then by generation.
    fn index_first(self) -> u64
        ensures word { result ≡ self.index * 2 ^ 32 + self.generation }
        ensures in_range { IsHandle self }
    {
        (u64::from(self.index()) << 32) + u64::from(self.generation())
    }

    /// Compares two handles by their bits, as Bevy and hecs do: by generation, then by index.
    ///
    /// ```
    /// use forgeni::Handle;
    ///
    /// let [new, old] = [Handle::new(9, 1).unwrap(), Handle::new(0, 2).unwrap()];
    /// assert!(new.by_bits(&old).is_lt() && new > old);
    /// ```
    #[must_use]
    pub fn by_bits(&self, other: &Self) -> Ordering
        ensures bits { result ≡ nat_cmp (bits self.now) (bits other.now) }
        ensures parts { result ≡ ordering_then
            (nat_cmp self.now.generation other.now.generation)
            (nat_cmp self.now.index other.now.index) }
    {
        self.to_bits().cmp(&other.to_bits())
    }

    /// Returns the handle that [`to_bits`](Self::to_bits) packed into these bits, or `None` if no
    /// handle has these bits.
    ///
    /// ```
    /// use forgeni::Handle;
    ///
    /// // A packet of another machine, which may have anything in it.
    /// let packet = [3_u64 << 32 | 12, 12];
    /// let handles = packet.map(|bits| Handle::from_bits(bits).map(|it| it.to_string()));
    /// assert_eq!(handles, [Some("12v3".to_owned()), None]);
    /// ```
    #[must_use]
    pub fn from_bits(of: u64) -> Option<Self>
        ensures found { IfSome result (λ h. bits h ≡ of) }
        ensures in_range { IfSome result IsHandle }
        ensures none { IfNone result ((h : Handle) → IsHandle h → bits h ≢ of) }
    {
        Handle::new((of & 0xffff_ffff) as u32, (of >> 32) as u32)
    }
}

impl PartialEq for Handle {
    ghost eq = { handle_eq };

    ghost laws = { Prim.search (comparing, rules) };

    fn eq(&self, other: &Self) -> bool {
        self.bits == other.bits
    }
}

impl Eq for Handle {
    ghost laws = { Prim.search (comparing, rules) };
}

impl Hash for Handle {
    ghost hash_input = { λ h. fed.u64 (bits h) };

    ghost respects_eq = { Prim.search (hashing, rules) };

    fn hash<H: Hasher>(&self, state: &mut H) {
        state.write_u64(self.bits.get());
    }
}

impl Ord for Handle {
    ghost cmp = { handle_cmp };

    ghost total = { handle_cmp_total };

    ghost matches_partial_cmp = { Prim.search (comparing, rules) };

    ghost matches_eq = { Prim.search (comparing, rules) };

    fn cmp(&self, other: &Self) -> Ordering {
        self.index_first().cmp(&other.index_first())
    }
}

impl PartialOrd for Handle {
    ghost partial_cmp = { as_partial_cmp handle_cmp };

    ghost laws = { partial_order_from_own_ties
        (Prim.search (comparing, rules)) (Prim.search (comparing, rules)) };

    fn partial_cmp(&self, other: &Self) -> Option<Ordering> {
        Some(self.cmp(other))
    }
}
