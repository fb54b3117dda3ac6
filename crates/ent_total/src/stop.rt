ghost use Rattle.std.specs.Prelude.{◌≡◌, None, IfSome};

use ent_world::{SyncFault, SyncReport};
use thiserror::Error;

/// Where a sync point stopped because memory ran out. All births have taken effect, and exactly the
/// commands before that point.
///
/// ```
/// use forgeni::{Stop, Stopped};
///
/// fn says(stopped: &Stopped) -> String {
///     let Stop { system, command, done } = stopped.stop();
///     format!("no memory at command {command} of system {system}, after {done} of its handles")
/// }
/// ```
#[derive(Clone, Copy, Debug, PartialEq, Eq, Hash, Error)]
#[error("out of memory at command {command} of system {system}")]
pub struct Stop {
    /// The number of the queue among those that are applied, from 0.
    pub system: usize,
    /// The number of the command in that queue, from 0.
    pub command: usize,
    /// How many handles of that command are done. It is 0 except at a spawn of many.
    pub done: usize,
}

impl Stop {
    /// Where the sync point stopped, and the report so far. There is neither if it didn't even
    /// flush.
    pub(crate) fn of(fault: SyncFault) -> Option<(Self, SyncReport)>
        ensures none { result ≡ None → fault ≡ SyncFault.FlushMemory }
        ensures some { IfSome result (λ it.
            fault ≡ SyncFault.Memory it.0.system it.0.command it.0.done it.1) }
    {
        match fault {
            SyncFault::FlushMemory => None,
            SyncFault::Memory {
                system,
                command,
                done,
                so_far,
            } => {
                let stop = Stop {
                    system,
                    command,
                    done,
                };
                Some((stop, so_far))
            }
        }
    }
}
