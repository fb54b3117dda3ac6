ghost use Rattle.std.specs.Prelude.{◌≡◌, ◌≤◌, ◌^◌, ◌↔◌, [], IsTrue, length};

use std::fmt;
use std::marker::Model;

/// The queues of a phase or of a frame, in the order of their effect, for one
/// [`apply`](crate::World::apply) of the world whose phase it was.
///
/// ```
/// use forgeni::{SyncError, World};
///
/// let mut world = World::new();
/// let (spawned, queues) = world.phase(1, |_open, systems| systems[0].spawn(&[]))?;
/// // They are of this world, and another one refuses them.
/// let refused = World::new().apply(queues);
/// let Err(SyncError::OtherWorld(queues)) = refused else { return Err("it took them".into()) };
/// assert_eq!(world.apply(queues)?.born, [spawned?]);
/// # Ok::<(), Box<dyn std::error::Error>>(())
/// ```
#[must_use]
#[derive(Drop)]
pub struct Queues {
    world: u64,
    queues: Vec<ent_queue::CommandQueue>,
}

impl Model for Queues {
    ghost use Rattle.std.specs.Prelude.{◌≤◌, ◌^◌, length};
    ghost use Rattle.ent_total.specs.Batch.{Queues, queues_code};

    ghost Value = { Queues };

    ghost coded = { queues_code };

    ghost view = { λ q. record { world = q.world; queues = q.queues.items } };

    // A sync point takes no more.
    ghost invariant = { λ q. length q.queues.items ≤ 2 ^ 16 };
}

impl Queues {
    pub(crate) fn new(world: u64, queues: Vec<ent_queue::CommandQueue>) -> Self
        requires { length queues.items ≤ 2 ^ 16 }
        ensures { result ≡ record { world = world; queues = queues.items } }
    {
        Queues { world, queues }
    }

    /// Returns the number of queues.
    ///
    /// ```
    /// use forgeni::World;
    ///
    /// let mut world = World::new();
    /// let ((), queues) = world.phase(4, |_open, _systems| ())?;
    /// assert_eq!(queues.len(), 4);
    /// # Ok::<(), Box<dyn std::error::Error>>(())
    /// ```
    #[must_use]
    pub fn len(&self) -> usize
        ensures { result ≡ length self.now.queues }
    {
        self.queues.len()
    }

    /// Returns `true` if there are no queues.
    ///
    /// ```
    /// use forgeni::{Queues, Report, SyncError, World};
    ///
    /// fn report(world: &mut World, queues: Queues) -> Result<Report, SyncError> {
    ///     debug_assert!(!queues.is_empty(), "a phase has at least one system");
    ///     world.apply(queues)
    /// }
    /// ```
    #[must_use]
    pub fn is_empty(&self) -> bool
        ensures { IsTrue result ↔ (self.now.queues ≡ []) }
    {
        self.queues.is_empty()
    }

    /// The number of their world.
    pub(crate) fn world(&self) -> u64
        ensures { result ≡ self.now.world }
    {
        self.world
    }

    /// The queues themselves.
    pub(crate) fn list(&self) -> &[ent_queue::CommandQueue]
        ensures list { result.now ≡ self.now.queues }
        ensures few { length self.now.queues ≤ 2 ^ 16 }
    {
        &self.queues
    }
}

/// It shows how many there are, and says that there is more.
impl fmt::Debug for Queues {
    fn fmt<W: fmt::Write>(&self, f: &mut fmt::Formatter<W>) -> fmt::Result {
        let len = self.len();
        write!(f, "Queues {{ len: {len}, .. }}")
    }
}
