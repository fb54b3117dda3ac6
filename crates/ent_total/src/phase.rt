ghost use Rattle.std.specs.Prelude.{◌≡◌, ◌↔◌, ◌+◌, ◌≤◌, ◌∷◌, [], ◌++◌, All};
ghost use Rattle.std.specs.Prelude.{IfOk, IfErr, OnErr, IsTrue, length, reverse};
ghost use Rattle.std.specs.Prelude.{IfSome, IfNone, Ok, None, Some};
ghost use Rattle.std.specs.Vec.{vec_capacity, vec_len};
ghost use Rattle.std.specs.Arc.{arc_value};
ghost use Rattle.ent_total.specs.Phases.{AreOf, MayReturn, all_returned, reservers_of};

use crate::numbering::Numbering;
use crate::reserver::Reserver;
use crate::returning::bring_back;
use ent_alloc::{Entities, Phased};
use ent_handle::Memory;
use ent_shared::Shared;
use std::alloc::Global;
use std::marker::{Model, PhantomData};
use std::sync::Arc;

/// An allocator or a world in a phase: its reservers can reserve, and the phase ends when they come
/// back. [`Entities::share`](forgeni::Entities::share) and [`World::open`](forgeni::World::open)
/// open it, with its reservers. `S` is the source of their handles.
///
/// The allocator is inside the phase, so nothing but reservations can happen until
/// [`close`](Self::close) gives it back. If the `Phase` is dropped, the allocator is dropped with
/// the last of the reservers.
///
/// It is `Send` and `Sync`: any thread may read it.
///
/// ```
/// use forgeni::Entities;
///
/// let mut entities = Entities::new();
/// let old = entities.alloc()?;
/// let (shared, mut reservers) = entities.share(4)?;
/// std::thread::scope(|scope| {
///     for reserver in &mut reservers {
///         scope.spawn(|| shared.entities().is_alive(old) && reserver.reserve().is_ok());
///     }
/// });
/// let mut entities = shared.close(reservers)?;
/// entities.flush(&mut Vec::new())?;
/// assert_eq!(entities.len(), 5);
/// # Ok::<(), Box<dyn std::error::Error>>(())
/// ```
#[must_use]
#[derive(Drop)]
pub struct Phase<J: Numbering, S: Phased = Shared> {
    alloc: Global,
    source: Arc<S, Global>,
    returned: Vec<S::Reserver>,
    number: u64,
    of: PhantomData<J>,
}

impl<J: Numbering, S: Phased> Model for Phase<J, S> {
    ghost use Rattle.std.specs.Prelude.{All, ◌≤◌, ◌≡◌, Some};
    ghost use Rattle.std.specs.Vec.{vec_capacity};
    ghost use Rattle.std.specs.Arc.{arc_value};
    ghost use Rattle.ent_total.specs.Phases.{Phase, phase_code};

    ghost Value = { Phase S S.Reserver };

    ghost coded = { phase_code S.code S.Reserver.code };

    ghost view = { λ s. record {
      number = s.number;
      source = arc_value s.source;
      returned = s.returned.items;
    } };

    // The number means this source, the reservers returned came with it, and there is room for all
    // of them.
    ghost invariant = { λ s. (J.phase_of S s.number ≡ Some (arc_value s.source))
        × All (S.serves (arc_value s.source)) s.returned.items
        × (S.count (arc_value s.source) ≤ vec_capacity s.returned) };
}

impl<J: Numbering, S: Phased> Phase<J, S> {
    pub(crate) fn new(
        alloc: Global,
        source: Arc<S, Global>,
        returned: Vec<S::Reserver>,
        number: u64,
    ) -> Self
        requires stands_for { J.phase_of S number ≡ Some (arc_value source) }
        requires own { All (S.serves (arc_value source)) returned.items }
        requires room { S.count (arc_value source) ≤ vec_capacity returned }
        ensures { result
            ≡ record { number = number; source = arc_value source; returned = returned.items } }
    {
        Phase {
            alloc,
            source,
            returned,
            number,
            of: PhantomData,
        }
    }

    /// What serves the reservers.
    pub(crate) fn server(&self) -> &S
        ensures { result.now ≡ self.now.source }
    {
        &self.source
    }

    /// Returns the number of reservers that the phase was opened with, whether they exist, have
    /// come back, or were lost.
    ///
    /// ```
    /// use forgeni::Entities;
    ///
    /// let (shared, mut reservers) = Entities::new().share(4)?;
    /// drop(reservers.pop());
    /// // A lost one counts too.
    /// assert_eq!((shared.count(), reservers.len()), (4, 3));
    /// # Ok::<(), Box<dyn std::error::Error>>(())
    /// ```
    #[must_use]
    pub fn count(&self) -> usize
        ensures { result ≡ S.count self.now.source }
    {
        self.source.callers()
    }

    /// Returns the number of reservers that have come back: those that a refused close took.
    ///
    /// ```
    /// use forgeni::{CloseError, Entities};
    ///
    /// let (shared, mut reservers) = Entities::new().share(2)?;
    /// let late = reservers.pop();
    /// let refused = shared.close_lost(reservers).err().ok_or("it was closed")?;
    /// let ((shared, _), error) = refused.into_parts();
    /// assert_eq!((error, shared.returned()), (CloseError::InUse, 1));
    /// drop(late);
    /// # Ok::<(), Box<dyn std::error::Error>>(())
    /// ```
    #[must_use]
    pub fn returned(&self) -> usize
        ensures { result ≡ length self.now.returned }
    {
        self.returned.len()
    }

    /// Returns the allocator as it was when the phase was opened. It doesn't change until the close:
    /// what is reserved comes to life after it, and nothing is freed before. Any thread may read it.
    ///
    /// ```
    /// use forgeni::Entities;
    ///
    /// let mut entities = Entities::new();
    /// let old = entities.alloc()?;
    /// entities.try_set_row(old, 3)?;
    /// entities.phase(1, |shared, reservers| {
    ///     let new = reservers[0].reserve().expect("a handle");
    ///     let before = shared.entities();
    ///     assert!(before.is_alive(old) && !before.is_alive(new));
    ///     assert_eq!((before.row(old), before.iter().count()), (Some(3), 1));
    /// })?;
    /// # Ok::<(), Box<dyn std::error::Error + Send + Sync>>(())
    /// ```
    #[must_use]
    pub fn entities(&self) -> &Entities
        ensures { result.now ≡ record {
          allocator = S.start self.now.source;
          rows = S.rows self.now.source;
        } }
    {
        self.source.as_opened()
    }

    pub(crate) fn number(&self) -> u64
        ensures number { result ≡ self.now.number }
        ensures stands_for { J.phase_of S result ≡ Some self.now.source }
    {
        self.number
    }

    /// Hands out the last of the reservers that have come back, or returns `None` if there is none.
    /// It doesn't allocate.
    ///
    /// ```
    /// use forgeni::Entities;
    ///
    /// let (shared, mut reservers) = Entities::new().share(2)?;
    /// let late = reservers.pop();
    /// let refused = shared.close_lost(reservers).err().ok_or("it was closed")?;
    /// let ((mut shared, _), _) = refused.into_parts();
    /// // The phase goes on, so the reserver that it keeps may reserve again.
    /// let mut again = shared.reserver()?.ok_or("it keeps one")?;
    /// again.reserve()?;
    /// drop(late);
    /// let _entities = shared.close_lost(vec![again])?;
    /// # Ok::<(), Box<dyn std::error::Error>>(())
    /// ```
    ///
    /// # Errors
    ///
    /// `OutOfMemory` if the owners of the phase can't be counted any more. Then nothing has changed.
    pub fn reserver(&mut self) -> Result<Option<Reserver<J, S>>, Memory>
        ensures given { IfOk result (λ found. IfSome found (λ r.
            (r.number ≡ self.old.number) × (r.source ≡ self.old.source)
            × (self.old ≡ record self.new { returned = self.new.returned ++ r.reserver ∷ [] }))) }
        ensures none { IfOk result (λ found. IfNone found
            ((self.old.returned ≡ []) × (self.new ≡ self.old))) }
        ensures none_returned { (result ≡ Ok None) ↔ (self.old.returned ≡ []) }
        ensures err { OnErr result (self.new ≡ self.old) }
    {
        if self.returned.is_empty() {
            return Ok(None);
        }
        let Ok(source) = Arc::try_clone(&self.source) else {
            return Err(Memory);
        };
        let Some(reserver) = self.returned.pop() else {
            unreachable!()
        };
        Ok(Some(Reserver {
            alloc: self.alloc,
            source,
            reserver,
            number: self.number,
            of: PhantomData,
        }))
    }

    /// Gives out those returned, the last one first, to a list that has room for them. One whose
    /// owner can't be counted stays with the phase, and so do the others.
    pub(crate) fn give_out(&mut self, reservers: &mut Vec<Reserver<J, S>>)
        requires room { vec_len reservers.old + length self.old.returned ≤ vec_capacity reservers.old }
        requires of { AreOf self.old.number reservers.old.items }
        requires same { All (λ r. r.source ≡ self.old.source) reservers.old.items }
        ensures of { AreOf self.old.number reservers.new.items }
        ensures same { All (λ r. r.source ≡ self.old.source) reservers.new.items }
        ensures given { reservers_of reservers.new.items ++ reverse self.new.returned
            ≡ reservers_of reservers.old.items ++ reverse self.old.returned }
        ensures phase { self.new ≡ record self.old { returned = self.new.returned } }
    {
        while let Ok(Some(reserver)) = self.reserver() {
            reservers.push_reserved(reserver);
        }
    }

    /// Takes reservers returned, which needs no memory.
    pub(crate) fn take_back(&mut self, reservers: Vec<Reserver<J, S>>)
        requires { MayReturn (S.count self.old.source) self.old reservers.items }
        ensures { self.new ≡ record self.old { returned = all_returned self.old reservers.items } }
    {
        let source: &S = &self.source;
        bring_back(&mut self.returned, source, self.number, reservers);
    }

    /// Whether those returned come in an order in which the source takes them back.
    pub(crate) fn may_end(&self) -> bool
        ensures { IsTrue result ↔ S.takes self.now.source self.now.returned }
    {
        self.source.may_take(&self.returned)
    }

    /// The source with the reservers that are returned, if no other reserver owns it too.
    pub(crate) fn end(self) -> Result<(S, Vec<S::Reserver>), Self>
        ensures ok { IfOk result (λ parts. (parts.0 ≡ self.source) × (parts.1.items ≡ self.returned)) }
        ensures own { IfOk result (λ parts. All (S.serves parts.0) parts.1.items) }
        ensures err { IfErr result (λ phase. phase ≡ self) }
    {
        let Phase {
            alloc,
            source,
            returned,
            number,
            of: _,
        } = self;
        match Arc::try_unwrap(source) {
            Ok(source) => Ok((source, returned)),
            Err(source) => Err(Phase::new(alloc, source, returned, number)),
        }
    }

    /// A list without reservers.
    pub(crate) fn no_reservers(&self) -> Vec<Reserver<J, S>>
        ensures { result.items ≡ [] }
    {
        Vec::new(self.alloc)
    }
}
