//! A checker with a log for each caller.
ghost use Rattle.std.specs.Prelude.{◌≡◌, ◌∷◌, ◌++◌, [], map, Some, Ok, IfOk};
ghost use Rattle.std.specs.Borrow.{sem};
ghost use Rattle.ent_alloc.specs.Sequential.{opening};
ghost use Rattle.ent_replay.specs.Logs.{emptied, new_logs};
ghost use Rattle.ent_replay.specs.Lending.{LendsLogs};
ghost use Rattle.ent_replay.specs.Recording.{TakesAll, Answers, Finishes, lines_in_all};
ghost use Rattle.ent_replay.specs.declared.trace.reply.AllocReply.{AllocReply};
ghost use Rattle.ent_replay.specs.declared.trace.reply.FlushReply.{FlushReply};

use crate::trace::call::Call;
use crate::trace::check_error::CheckError;
use crate::trace::checker::Checker;
use crate::trace::log::Log;
use crate::trace::reply::{AllocReply, FlushReply, FreeReply};
use ent_alloc::{Limits, State};
use ent_handle::{Handle, Memory};
use std::alloc::Global;

/// Records the calls of an allocator that threads share, and checks them as they come.
///
/// While threads reserve, each has one of the [`logs`](Self::logs). The next call of another kind
/// joins the logs, in the order of the callers, and leaves them empty. The borrow of the logs has
/// ended by then, so no thread still appends.
///
/// ```
/// use forgeni::trace::Recorder;
/// use forgeni::{Entities, Limits};
///
/// let limits = Limits::GREATEST.keeping_placeholder(); // those of `Entities::new`
/// let mut recorder = Recorder::new(limits, 4)?;
/// let (shared, mut reservers) = Entities::new().share(4)?;
/// std::thread::scope(|scope| {
///     for (log, reserver) in recorder.logs().iter_mut().zip(&mut reservers) {
///         scope.spawn(move || {
///             for _ in 0..100 {
///                 let one = reserver.reserve().expect("a handle");
///                 log.push(1, one).expect("memory");
///             }
///         });
///     }
/// });
/// let mut entities = shared.close(reservers)?;
/// let mut born = Vec::new();
/// entities.flush(&mut born)?;
/// recorder.flush(born)?;
/// recorder.len(400)?;
/// recorder.finish()?;
/// # Ok::<(), Box<dyn std::error::Error>>(())
/// ```
///
/// If threads keep their logs, [`Checker::join`] takes each of them as the phase ends.
#[derive(Drop)]
pub struct Recorder {
    checker: Checker,
    logs: Vec<Log>,
}

impl Recorder {
    /// Creates a recorder for an allocator that has given no handles, with a log for each caller.
    /// The callers are numbered from 0.
    ///
    /// ```
    /// use forgeni::{trace, Limits};
    ///
    /// let mut recorder = trace::Recorder::new(Limits::new(1_000, 4).unwrap(), 8)?;
    /// assert_eq!((recorder.logs().len(), recorder.calls()), (8, 0));
    /// # Ok::<(), Box<dyn std::error::Error>>(())
    /// ```
    ///
    /// # Errors
    ///
    /// `Memory`: out of memory.
    pub fn new(alloc: Global, limits: Limits, callers: u32) -> Result<Self, Memory>
        ensures opens { IfOk result (λ recorder. recorder.checker.comparer
            ≡ Ok (record { allocator = opening limits; run = [] })) }
        ensures none { IfOk result (λ recorder. recorder.checker.calls ≡ 0) }
        ensures logs { IfOk result (λ recorder. recorder.logs.items ≡ new_logs callers) }
    {
        let mut logs = Vec::with_capacity(alloc, callers as usize)?;
        for caller in 0..callers {
            logs.push(Log::new(alloc, caller))?;
        }
        Ok(Recorder {
            checker: Checker::new(alloc, limits),
            logs,
        })
    }

    /// Returns the log of each caller.
    ///
    /// ```
    /// use forgeni::{trace, Handle, Limits};
    ///
    /// let mut recorder = trace::Recorder::new(Limits::GREATEST, 2)?;
    /// // What thread 1 reserved came first.
    /// recorder.logs()[0].push(1, "1v1".parse::<Handle>()?)?;
    /// recorder.logs()[1].push(1, "0v1".parse::<Handle>()?)?;
    /// recorder.finish()?;
    /// # Ok::<(), Box<dyn std::error::Error>>(())
    /// ```
    pub fn logs(&mut self) -> &mut [Log]
        ensures* writes_back { sem 𝓛 (LendsLogs self.entry result) }
        ensures logs { result.now ≡ self.old.logs.items }
    {
        self.logs.as_mut_slice()
    }

    /// Returns the number of calls that were taken, including those of the logs that were joined.
    ///
    /// ```
    /// use forgeni::{trace, Handle, Limits};
    ///
    /// let mut recorder = trace::Recorder::new(Limits::GREATEST, 2)?;
    /// recorder.logs()[0].push(1, "0v1".parse::<Handle>()?)?;
    /// assert_eq!(recorder.calls(), 0);
    /// recorder.len(0)?;
    /// assert_eq!(recorder.calls(), 2);
    /// # Ok::<(), Box<dyn std::error::Error>>(())
    /// ```
    #[must_use]
    pub fn calls(&self) -> u64
        ensures { result ≡ self.now.checker.calls }
    {
        self.checker.calls()
    }

    /// Joins the logs, and takes this call.
    ///
    /// ```
    /// use forgeni::trace::{Call, Recorder};
    /// use forgeni::Limits;
    ///
    /// let mut recorder = Recorder::new(Limits::GREATEST, 1)?;
    /// recorder.call(Call::Alloc(None))?; // its answer isn't known
    /// recorder.call(Call::Len(Some(1)))?;
    /// # Ok::<(), Box<dyn std::error::Error>>(())
    /// ```
    ///
    /// # Errors
    ///
    /// The same as for [`Checker::call`]. The logs are emptied in any case.
    pub fn call(&mut self, call: Call) -> Result<(), CheckError>
        ensures takes { TakesAll self.old.checker (lines_in_all self.old.logs.items ++ call ∷ [])
            self.new.checker }
        ensures emptied { self.new.logs.items ≡ map emptied self.old.logs.items }
        ensures answers { Answers self.new.checker.comparer result }
    {
        join_all(&mut self.checker, &mut self.logs);
        self.checker.call(call)
    }

    /// Takes a call for a handle that is alive at once.
    ///
    /// ```
    /// use forgeni::{trace, Handle, Limits};
    ///
    /// let mut recorder = trace::Recorder::new(Limits::new(1, 1).unwrap(), 1)?;
    /// recorder.alloc("0v1".parse::<Handle>()?)?;
    /// recorder.alloc(trace::AllocReply::Space)?;
    /// # Ok::<(), Box<dyn std::error::Error>>(())
    /// ```
    ///
    /// # Errors
    ///
    /// The same as for [`call`](Self::call).
    pub fn alloc<R: Into<AllocReply>>(&mut self, reply: R) -> Result<(), CheckError>
        ensures takes { (told : AllocReply) × R.converts reply told × TakesAll self.old.checker
            (lines_in_all self.old.logs.items ++ Call.Alloc (Some told) ∷ []) self.new.checker }
        ensures emptied { self.new.logs.items ≡ map emptied self.old.logs.items }
        ensures answers { Answers self.new.checker.comparer result }
    {
        self.call(Call::Alloc(Some(reply.into())))
    }

    /// Takes a call that freed a handle.
    ///
    /// ```
    /// use forgeni::{trace, Handle, Limits};
    ///
    /// let mut recorder = trace::Recorder::new(Limits::GREATEST, 1)?;
    /// let cart: Handle = "0v1".parse()?;
    /// recorder.alloc(cart)?;
    /// recorder.free(cart, trace::FreeReply::Next("0v2".parse()?))?;
    /// # Ok::<(), Box<dyn std::error::Error>>(())
    /// ```
    ///
    /// # Errors
    ///
    /// The same as for [`call`](Self::call).
    pub fn free(&mut self, handle: Handle, reply: FreeReply) -> Result<(), CheckError>
        ensures takes { TakesAll self.old.checker
            (lines_in_all self.old.logs.items ++ Call.Free handle (Some reply) ∷ [])
            self.new.checker }
        ensures emptied { self.new.logs.items ≡ map emptied self.old.logs.items }
        ensures answers { Answers self.new.checker.comparer result }
    {
        self.call(Call::Free(handle, Some(reply)))
    }

    /// Takes a flush. The answer is the handles that came to life, or their number.
    ///
    /// ```
    /// use forgeni::{trace, Handle, Limits};
    ///
    /// let mut recorder = trace::Recorder::new(Limits::GREATEST, 1)?;
    /// let cart: Handle = "0v1".parse()?;
    /// recorder.logs()[0].push(1, cart)?;
    /// recorder.flush([cart])?;
    /// # Ok::<(), Box<dyn std::error::Error>>(())
    /// ```
    ///
    /// # Errors
    ///
    /// The same as for [`call`](Self::call).
    pub fn flush<R: Into<FlushReply>>(&mut self, reply: R) -> Result<(), CheckError>
        ensures takes { (told : FlushReply) × R.converts reply told × TakesAll self.old.checker
            (lines_in_all self.old.logs.items ++ Call.Flush (Some told) ∷ []) self.new.checker }
        ensures emptied { self.new.logs.items ≡ map emptied self.old.logs.items }
        ensures answers { Answers self.new.checker.comparer result }
    {
        self.call(Call::Flush(Some(reply.into())))
    }

    /// Takes a call for the state of a handle.
    ///
    /// ```
    /// use forgeni::{trace, Handle, Limits, State};
    ///
    /// let mut recorder = trace::Recorder::new(Limits::GREATEST, 1)?;
    /// let cart: Handle = "0v1".parse()?;
    /// recorder.state(cart, State::Gone)?;
    /// recorder.alloc(cart)?;
    /// recorder.state(cart, State::Alive)?;
    /// # Ok::<(), Box<dyn std::error::Error>>(())
    /// ```
    ///
    /// # Errors
    ///
    /// The same as for [`call`](Self::call).
    pub fn state(&mut self, handle: Handle, reply: State) -> Result<(), CheckError>
        ensures takes { TakesAll self.old.checker
            (lines_in_all self.old.logs.items ++ Call.State handle (Some reply) ∷ [])
            self.new.checker }
        ensures emptied { self.new.logs.items ≡ map emptied self.old.logs.items }
        ensures answers { Answers self.new.checker.comparer result }
    {
        self.call(Call::State(handle, Some(reply)))
    }

    /// Takes a call for the number of living handles.
    ///
    /// ```
    /// use forgeni::{trace, Handle, Limits};
    ///
    /// let mut recorder = trace::Recorder::new(Limits::GREATEST, 1)?;
    /// recorder.alloc("0v1".parse::<Handle>()?)?;
    /// recorder.logs()[0].push(1, "1v1".parse::<Handle>()?)?;
    /// recorder.len(1)?; // what is reserved isn't alive
    /// # Ok::<(), Box<dyn std::error::Error>>(())
    /// ```
    ///
    /// # Errors
    ///
    /// The same as for [`call`](Self::call).
    pub fn len(&mut self, reply: u32) -> Result<(), CheckError>
        ensures takes { TakesAll self.old.checker
            (lines_in_all self.old.logs.items ++ Call.Len (Some reply) ∷ []) self.new.checker }
        ensures emptied { self.new.logs.items ≡ map emptied self.old.logs.items }
        ensures answers { Answers self.new.checker.comparer result }
    {
        self.call(Call::Len(Some(reply)))
    }

    /// Joins the logs, ends the trace, and compares the last reservations.
    ///
    /// ```
    /// use forgeni::{trace, Handle, Limits};
    ///
    /// let mut recorder = trace::Recorder::new(Limits::GREATEST, 2)?;
    /// recorder.logs()[1].push(1, "1v1".parse::<Handle>()?)?;
    /// // Nobody reserved 0v1, which comes first.
    /// assert!(recorder.finish().is_err());
    /// # Ok::<(), Box<dyn std::error::Error>>(())
    /// ```
    ///
    /// # Errors
    ///
    /// The same as for [`Checker::finish`].
    pub fn finish(self) -> Result<(), CheckError>
        ensures { Finishes self.checker (lines_in_all self.logs.items) result }
    {
        let Recorder {
            mut checker,
            mut logs,
        } = self;
        join_all(&mut checker, &mut logs);
        checker.finish()
    }
}

// Joins the logs, in their order.
fn join_all(checker: &mut Checker, logs: &mut [Log])
    ensures takes { TakesAll checker.old (lines_in_all logs.old) checker.new }
    ensures emptied { logs.new ≡ map emptied logs.old }
{
    for log in logs.iter_mut() {
        log.hand_over(checker);
    }
}
