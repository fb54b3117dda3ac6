ghost use Rattle.std.specs.Prelude.{◌≡◌, ◌-◌, ◌^◌, ◌<◌, ◌≤◌, ◌↔◌, ◌≢◌, IsSome, IfSome};
ghost use Rattle.ent_alloc.specs.Limits.{AreLimits, greatest_limits, without_placeholder};
ghost use Rattle.ent_alloc.specs.Sound.{IsWithin};
ghost use Rattle.ent_handle.specs.Handle.{placeholder};

use std::marker::Model;

/// How many handles one caller may request between two flushes. It is this project's own limit:
/// with it 1,024 callers together stay within the 2^50 that an allocator can count.
pub const QUOTA: u64 = 1 << 40;

/// The number of slots that an allocator may make, and the last generation of a slot.
///
/// Limits are this project's own: Bevy always has the greatest ones, which are the default.
///
/// ```
/// use forgeni::Limits;
///
/// let limits = Limits::new(1000, 4).unwrap();
/// assert_eq!((limits.slots(), limits.generations()), (1000, 4));
/// assert_eq!(Limits::new(0, 1), None);
/// assert_eq!(Limits::default(), Limits::GREATEST);
/// ```
#[derive(Clone, Copy, Debug, PartialEq, Eq, Hash)]
pub struct Limits {
    slots: u32,
    generations: u32,
}

impl Model for Limits {
    ghost use Rattle.ent_alloc.specs.Limits.{Limits, AreLimits};

    ghost Value = { Limits };

    ghost view = { λ l. record { slots = l.slots; generations = l.generations } };

    ghost invariant = { λ l. AreLimits (record { slots = l.slots; generations = l.generations }) };

    ghost inverse = { λ l. record { slots = l.slots; generations = l.generations } };
}

impl Limits {
    /// The greatest limits, which are Bevy's: 4,294,967,295 slots of 2,147,483,647 generations.
    pub const GREATEST: Limits = Limits {
        slots: u32::MAX,
        generations: (1 << 31) - 1,
    };

    /// Returns the limits with these numbers: slots from 1 to 4,294,967,295, generations from 1 to
    /// 2,147,483,647. `None` if one of them is out of range.
    ///
    /// ```
    /// use forgeni::{Entities, Limits};
    ///
    /// // At most 65,536 slots, so that an index fits into two bytes.
    /// const SMALL: Limits = Limits::new(1 << 16, 1_000).unwrap();
    ///
    /// assert_eq!(Entities::with_limits(SMALL).left(), 65_536);
    /// assert_eq!(Limits::new(10, 0), None);
    /// ```
    #[must_use]
    pub fn new(slots: u32, generations: u32) -> Option<Self>
        ensures in_range { IsSome result
            ↔ AreLimits (record { slots = slots; generations = generations }) }
        ensures value { IfSome result (λ limits.
            limits ≡ record { slots = slots; generations = generations }) }
    {
        if 1 <= slots && 1 <= generations && generations < 1 << 31 {
            Some(Limits { slots, generations })
        } else {
            None
        }
    }

    /// Returns the greatest limits, which are Bevy's.
    ///
    /// ```
    /// use forgeni::Limits;
    ///
    /// const LIMITS: Limits = Limits::default_limits();
    ///
    /// assert_eq!((LIMITS, LIMITS.slots()), (Limits::GREATEST, u32::MAX));
    /// ```
    #[must_use]
    pub fn default_limits() -> Self
        ensures { result ≡ record { slots = 2 ^ 32 - 1; generations = 2 ^ 31 - 1 } }
    {
        Limits::GREATEST
    }

    /// Returns the limits of an allocator that never gives the greatest handle,
    /// 4294967294v2147483647: one generation less if both limits are the greatest, and otherwise
    /// the same limits.
    ///
    /// The greatest handle is the last one of the last possible slot.
    ///
    /// ```
    /// use forgeni::{trace, Entities, Limits};
    ///
    /// let limits = Limits::GREATEST.keeping_placeholder();
    /// assert_eq!(limits.generations(), Limits::GREATEST.generations() - 1);
    /// // Those of `Entities::new`, so a checker of one has them too.
    /// let mut checker = trace::Checker::new(limits);
    /// checker.alloc(Entities::new().alloc()?)?;
    /// # Ok::<(), Box<dyn std::error::Error>>(())
    /// ```
    #[must_use]
    pub fn keeping_placeholder(self) -> Self
        ensures value { result ≡ without_placeholder self }
        ensures both { self ≡ greatest_limits → result ≡ record greatest_limits {
          generations = 2 ^ 31 - 2;
        } }
        ensures others { self ≢ greatest_limits → result ≡ self }

        // An allocator gives handles within its limits alone.
        ensures kept_back { ¬ (IsWithin result placeholder) }
    {
        if self.slots == u32::MAX && self.generations == (1 << 31) - 1 {
            Limits {
                slots: self.slots,
                generations: self.generations - 1,
            }
        } else {
            self
        }
    }

    /// Returns the number of slots that may be made. Every index is below it.
    ///
    /// ```
    /// use forgeni::{Entities, Limits};
    ///
    /// let limits = Limits::new(1_000, 4).unwrap();
    /// // A vector by slot that never grows.
    /// let mut healths = vec![0; limits.slots() as usize];
    /// healths[Entities::with_limits(limits).alloc()?.index() as usize] = 100;
    /// # Ok::<(), Box<dyn std::error::Error>>(())
    /// ```
    #[must_use]
    pub fn slots(self) -> u32
        ensures { result ≡ self.slots }
    {
        self.slots
    }

    /// Returns the last generation of a slot.
    ///
    /// ```
    /// use forgeni::{Entities, Limits};
    ///
    /// let limits = Limits::new(1, 2).unwrap();
    /// let mut entities = Entities::with_limits(limits);
    /// let mut last = entities.alloc()?;
    /// while let Some(next) = entities.free(last)?.next {
    ///     last = entities.alloc()?;
    ///     assert_eq!(last, next);
    /// }
    /// assert_eq!(last.generation(), limits.generations());
    /// # Ok::<(), Box<dyn std::error::Error>>(())
    /// ```
    #[must_use]
    pub fn generations(self) -> u32
        ensures { result ≡ self.generations }
    {
        self.generations
    }
}

impl Default for Limits {
    ghost is_default = { λ limits.
        limits ≡ record { slots = 2 ^ 32 - 1; generations = 2 ^ 31 - 1 } };

    fn default() -> Self {
        Limits::default_limits()
    }
}
