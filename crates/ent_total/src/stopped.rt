ghost use Rattle.std.specs.Prelude.{◌≡◌};
ghost use Rattle.ent_world.specs.Sync.{IsStop};

use crate::queues::Queues;
use crate::stop::Stop;
use ent_world::SyncReport;
use std::fmt;
use std::marker::Model;

/// A sync point that stopped because memory ran out at a command: where, what was done so far, and
/// the queues, which [`go_on`](Stopped::go_on) takes up from there.
///
/// All births have taken effect, and exactly the commands before the one that is named.
///
/// ```
/// use forgeni::{Queues, SyncError, World};
/// use std::error::Error;
///
/// fn apply(world: &mut World, queues: Queues, cache: Vec<u8>) -> Result<usize, Box<dyn Error>> {
///     match world.apply(queues) {
///         Err(SyncError::Stopped(stopped)) => {
///             drop(cache); // so that there is memory again
///             let before = stopped.so_far().faults.len();
///             Ok(before + stopped.go_on(world)?.faults.len())
///         }
///         applied => Ok(applied?.faults.len()),
///     }
/// }
/// # Ok::<(), Box<dyn std::error::Error>>(())
/// ```
#[must_use]
#[derive(Drop)]
pub struct Stopped {
    queues: Queues,
    stop: Stop,
    so_far: SyncReport,
}

impl Model for Stopped {
    ghost use Rattle.ent_world.specs.Sync.{IsStop};
    ghost use Rattle.ent_total.specs.Batch.{Stopped, stopped_code};

    ghost Value = { Stopped };

    ghost coded = { stopped_code };

    ghost view = { λ s. record { queues = s.queues; stop = s.stop; so_far = s.so_far } };

    // The stop is one of the queues.
    ghost invariant = { λ s. IsStop s.stop.system s.stop.command s.stop.done s.queues.queues };
}

impl Stopped {
    pub(crate) fn new(queues: Queues, stop: Stop, so_far: SyncReport) -> Self
        requires { IsStop stop.system stop.command stop.done queues.queues }
        ensures { result ≡ record { queues = queues; stop = stop; so_far = so_far } }
    {
        Stopped {
            queues,
            stop,
            so_far,
        }
    }

    /// Returns where it stopped.
    ///
    /// ```
    /// use forgeni::Stopped;
    ///
    /// /// Whether a system's commands have all taken effect.
    /// fn is_done(stopped: &Stopped, system: usize) -> bool {
    ///     system < stopped.stop().system
    /// }
    /// ```
    #[must_use]
    pub fn stop(&self) -> Stop
        ensures { result ≡ self.now.stop }
    {
        self.stop
    }

    /// Returns what was done before it stopped, since the sync point began or was last continued.
    ///
    /// ```
    /// use forgeni::{Queues, Report, SyncError, World};
    ///
    /// fn apply(world: &mut World, queues: Queues) -> Result<Report, SyncError> {
    ///     let applied = world.apply(queues);
    ///     if let Err(SyncError::Stopped(stopped)) = &applied {
    ///         // All births have taken effect, so the game may give them values.
    ///         println!("{} were born", stopped.so_far().born.len());
    ///     }
    ///     applied
    /// }
    /// ```
    #[must_use]
    pub fn so_far(&self) -> &SyncReport
        ensures { result.now ≡ self.now.so_far }
    {
        &self.so_far
    }

    /// The number of the world of the queues.
    pub(crate) fn world(&self) -> u64
        ensures { result ≡ self.now.queues.world }
    {
        self.queues.world()
    }

    /// The queues, and where they stopped.
    pub(crate) fn into_parts(self) -> (Queues, Stop)
        ensures parts { (result.0 ≡ self.queues) × (result.1 ≡ self.stop) }
        ensures stop { IsStop self.stop.system self.stop.command self.stop.done
            self.queues.queues }
    {
        let Stopped {
            queues,
            stop,
            so_far: _,
        } = self;
        (queues, stop)
    }
}

/// It says where it stopped.
impl fmt::Display for Stopped {
    fn fmt<W: fmt::Write>(&self, f: &mut fmt::Formatter<W>) -> fmt::Result {
        let stop = self.stop;
        write!(f, "{stop}")
    }
}

/// It shows all but the queues, and says that there is more.
impl fmt::Debug for Stopped {
    fn fmt<W: fmt::Write>(&self, f: &mut fmt::Formatter<W>) -> fmt::Result {
        let stop = self.stop;
        let so_far = &self.so_far;
        write!(f, "Stopped {{ stop: {stop:?}, so_far: {so_far:?}, .. }}")
    }
}
