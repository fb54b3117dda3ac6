ghost use Rattle.std.specs.Prelude.{◌≡◌, ◌<◌, ◌≤◌, [], length, reverse, None};
ghost use Rattle.std.specs.Prelude.{OnOk, OnErr, IfOk};
ghost use Rattle.std.specs.FinMap.{put, find};
ghost use Rattle.ent_handle.specs.Component.{component_cmp};
ghost use Rattle.ent_handle.specs.declared.component.ComponentId.{ComponentId as Id};
ghost use Rattle.ent_storage.specs.Bundle.{IsBundle, bundle_of};

use crate::pairs::search;
use ent_handle::{ComponentId, Memory};
use smallvec::SmallVec;
use std::alloc::Global;
use std::marker::Model;

/// Components and their values, in strictly ascending order of number: what an entity is given.
/// Contracts see it as a list.
///
/// Up to `INLINE` components are stored in the bundle itself, without an allocation.
///
/// ```
/// use forgeni::{Bundle, ComponentId};
///
/// let [mass, speed] = [ComponentId(0), ComponentId(1)];
/// let mut bundle = Bundle::of(&[(speed, 1), (mass, 7)])?;
/// bundle.put(speed, 2)?;
/// assert_eq!(bundle.items(), [(mass, 7), (speed, 2)]);
/// # Ok::<(), forgeni::OutOfMemory>(())
/// ```
#[derive(Drop)]
pub struct Bundle<const INLINE: usize> {
    items: SmallVec<(ComponentId, i64), INLINE>,
}

impl<const INLINE: usize> Model for Bundle<INLINE> {
    ghost use Rattle.std.specs.Prelude.{ℤ, List};
    ghost use Rattle.ent_handle.specs.declared.component.ComponentId.{ComponentId};

    ghost Value = { List (ComponentId × ℤ) };

    ghost use Rattle.std.specs.Prelude.{◌≤◌};
    ghost use Rattle.ent_storage.specs.Bundle.{IsBundle};

    ghost view = { λ b. b.items.items };

    ghost invariant = { λ b. IsBundle b.items.items × (INLINE ≤ b.items.capacity) };
}

impl<const INLINE: usize> Bundle<INLINE> {
    /// Creates a bundle without components. It doesn't allocate.
    ///
    /// ```
    /// use forgeni::{Bundle, ComponentId};
    ///
    /// let mut spark = Bundle::new();
    /// spark.put(ComponentId(0), 900)?;
    /// assert_eq!(spark.items(), [(ComponentId(0), 900)]);
    /// # Ok::<(), forgeni::OutOfMemory>(())
    /// ```
    #[must_use]
    pub fn new(alloc: Global) -> Self
        ensures { result ≡ [] }
    {
        Bundle {
            items: SmallVec::new(alloc),
        }
    }

    /// Creates a bundle without components, with room for that many.
    ///
    /// ```
    /// use forgeni::{Bundle, ComponentId};
    ///
    /// let mut all = Bundle::with_capacity(10)?;
    /// for number in 0..10 {
    ///     // There is room, so this doesn't allocate.
    ///     all.put(ComponentId(number), 0)?;
    /// }
    /// assert_eq!(all.items().len(), 10);
    /// # Ok::<(), forgeni::OutOfMemory>(())
    /// ```
    ///
    /// # Errors
    ///
    /// Out of memory, only for a count of more than `INLINE`.
    pub fn with_capacity(alloc: Global, count: usize) -> Result<Self, Memory>
        ensures ok { IfOk result (λ bundle. bundle ≡ []) }
        ensures memory { OnErr result (INLINE < count) }
    {
        Ok(Bundle {
            items: SmallVec::with_capacity(alloc, count)?,
        })
    }

    /// Creates a bundle of these components. The list may be in any order. If a component is listed
    /// twice, its last value counts.
    ///
    /// ```
    /// use forgeni::{Bundle, ComponentId};
    ///
    /// let [mass, speed] = [ComponentId(0), ComponentId(1)];
    /// let ball = Bundle::of(&[(speed, 1), (mass, 3), (speed, 2)])?;
    /// assert_eq!(ball.items(), [(mass, 3), (speed, 2)]);
    /// # Ok::<(), forgeni::OutOfMemory>(())
    /// ```
    ///
    /// # Errors
    ///
    /// Out of memory, only for more than `INLINE` different components.
    #[inline(always)]
    pub fn of(alloc: Global, items: &[(ComponentId, i64)]) -> Result<Self, Memory>
        ensures ok { IfOk result (λ bundle. bundle ≡ bundle_of items.now) }
        ensures last { IfOk result (λ bundle. (id : Id) →
            find component_cmp id bundle ≡ find component_cmp id (reverse items.now)) }
        ensures memory { OnErr result (INLINE < length (bundle_of items.now)) }
    {
        let mut bundle = Bundle::new(alloc);
        for (id, value) in items {
            bundle.put(*id, *value)?;
        }
        Ok(bundle)
    }

    /// Sets the component's value. If the component is there already, this value replaces its own.
    ///
    /// ```
    /// use forgeni::{Bundle, ComponentId};
    ///
    /// let mass = ComponentId(0);
    /// let mut ball = Bundle::of(&[(mass, 3)])?;
    /// ball.put(mass, 4)?;
    /// assert_eq!(ball.items(), [(mass, 4)]);
    /// # Ok::<(), forgeni::OutOfMemory>(())
    /// ```
    ///
    /// # Errors
    ///
    /// Out of memory, only if the component isn't there and at least `INLINE` others are. Nothing
    /// has changed.
    #[inline(always)]
    pub fn put(&mut self, id: ComponentId, value: i64) -> Result<(), Memory>
        ensures ok { OnOk result (self.new ≡ put component_cmp id value self.old) }
        ensures memory { OnErr result
            ((INLINE ≤ length self.old) × (find component_cmp id self.old ≡ None)) }
        ensures err { OnErr result (self.new ≡ self.old) }
    {
        match search(self.items.as_slice(), id) {
            Ok(index) => self.items[index].1 = value,
            Err(index) => self.items.insert(index, (id, value))?,
        }
        Ok(())
    }

    /// Returns the components and their values, in strictly ascending order of number.
    ///
    /// ```
    /// use forgeni::{Bundle, ComponentId};
    ///
    /// let ball = Bundle::of(&[(ComponentId(7), 2), (ComponentId(3), 1)])?;
    /// assert!(ball.items().iter().map(|(id, _)| id.0).eq([3, 7]));
    /// # Ok::<(), forgeni::OutOfMemory>(())
    /// ```
    #[must_use]
    pub fn items(&self) -> &[(ComponentId, i64)]
        ensures items { result.now ≡ self.now }
        ensures is { IsBundle self.now }
    {
        self.items.as_slice()
    }
}
