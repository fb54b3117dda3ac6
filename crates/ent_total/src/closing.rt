//! A phase ends.
ghost use Rattle.std.specs.Prelude.{◌≡◌, ◌≢◌, ◌↔◌, ◌⊎◌, ◌+◌, ◌<◌, [], length};
ghost use Rattle.std.specs.Prelude.{IfOk, OnOk, IfErr, IsErrAnd, IsSome, IfSome};
ghost use Rattle.ent_total.specs.Phases.{MayReturn, all_returned};
ghost use Rattle.ent_total.specs.Closing.{IsMissing, count_missing};
ghost use Rattle.ent_total.specs.declared.close_error.CloseError.TheVariants.{OtherPhase, InUse};
ghost use Rattle.ent_total.specs.declared.close_error.CloseError.TheVariants.{Order};

use crate::close_error::CloseError;
use crate::numbering::Numbering;
use crate::phase::Phase;
use crate::reserver::Reserver;
use crate::returning::are_of;
use ent_alloc::Phased;
use ent_handle::HandedBack;

impl<J: Numbering, S: Phased> Phase<J, S> {
    /// Ends the phase with all its reservers: those that are returned, and these. It doesn't
    /// allocate.
    ///
    /// A shared allocator is then as if their reservations had been made one by one, in the order of
    /// their atomic steps, and [`flush`](forgeni::Entities::flush) brings to life what they were
    /// given.
    ///
    /// ```
    /// use forgeni::Entities;
    ///
    /// let (shared, mut reservers) = Entities::new().share(2)?;
    /// let handle = reservers[1].reserve()?;
    /// let mut entities = shared.close(reservers)?;
    /// assert!(!entities.is_alive(handle));
    /// entities.flush(&mut Vec::new())?;
    /// assert!(entities.is_alive(handle));
    /// # Ok::<(), Box<dyn std::error::Error + Send + Sync>>(())
    /// ```
    ///
    /// ```compile_fail
    /// let (shared, mut reservers) = forgeni::Entities::new().share(1).unwrap();
    /// let entities = shared.close(reservers).unwrap();
    /// reservers[0].reserve(); // they were moved
    /// ```
    ///
    /// # Errors
    ///
    /// [`HandedBack`] has the phase, which goes on, the reservers that are handed back, and the
    /// first of these errors that applies. With [`CloseError::OtherPhase`] and
    /// [`CloseError::Missing`] all reservers are handed back. With [`CloseError::Order`], which only
    /// a phase in blocks returns, and [`CloseError::InUse`] the phase keeps those that came.
    pub fn close(
        mut self,
        reservers: Vec<Reserver<J, S>>,
    ) -> Result<S::Closed, HandedBack<(Self, Vec<Reserver<J, S>>), CloseError>>
        ensures ended { IfOk result (λ closed.
            S.closes self.source (all_returned self reservers.items) closed) }

        // When it succeeds, when it is refused, and what holds then.
        ensures all { OnOk result (MayReturn (S.count self.source) self reservers.items
            × (length (all_returned self reservers.items) ≡ S.count self.source)) }
        ensures other_phase { IsErrAnd result (λ h. h.error ≡ OtherPhase)
            ↔ ¬ (MayReturn (S.count self.source) self reservers.items) }
        ensures missing { IsErrAnd result (λ h. IsMissing h.error)
            ↔ (MayReturn (S.count self.source) self reservers.items
            × (length (all_returned self reservers.items) < S.count self.source)) }
        ensures order { IsErrAnd result (λ h. h.error ≡ Order)
            ↔ (MayReturn (S.count self.source) self reservers.items
            × (length (all_returned self reservers.items) ≡ S.count self.source)
            × ¬ (S.takes self.source (all_returned self reservers.items))) }
        ensures how_many { IfErr result (λ h. IsMissing h.error
            → length (all_returned self reservers.items) + count_missing h.error
            ≡ S.count self.source) }
        ensures handed_back { IfErr result (λ h. h.error ≢ InUse → h.error ≢ Order
            → (h.value.0 ≡ self) × (h.value.1.items ≡ reservers.items)) }
        ensures returned { IfErr result (λ h. (h.error ≡ InUse) ⊎ (h.error ≡ Order)
            → (h.value.0 ≡ record self { returned = all_returned self reservers.items })
            × (h.value.1.items ≡ [])) }
    {
        let Some(missing) = self.missing(&reservers) else {
            return Err(HandedBack::new((self, reservers), CloseError::OtherPhase));
        };
        if missing > 0 {
            let error = CloseError::Missing { count: missing };
            return Err(HandedBack::new((self, reservers), error));
        }
        self.take_back(reservers);
        if !self.may_end() {
            return Err(self.with_none(CloseError::Order));
        }
        match self.end() {
            Ok((source, returned)) => Ok(source.end_with_all(returned)),
            Err(phase) => Err(phase.with_none(CloseError::InUse)),
        }
    }

    /// Ends the phase although some reservers are lost: they were dropped, as by a thread that
    /// panicked. It doesn't allocate.
    ///
    /// Which of their requests were refused is lost too. So the front of a shared allocator's pool
    /// counts as reserved, as far as requests went, and [`flush`](forgeni::Entities::flush) also
    /// brings to life those handles that no caller got.
    ///
    /// ```
    /// use forgeni::{CloseError, Entities};
    ///
    /// let (shared, mut reservers) = Entities::new().share(2)?;
    /// let lost = reservers.pop();
    /// drop(lost);
    /// let ((shared, reservers), error) = shared.close(reservers).unwrap_err().into_parts();
    /// assert_eq!(error, CloseError::Missing { count: 1 });
    /// let entities = shared.close_lost(reservers)?;
    /// # Ok::<(), Box<dyn std::error::Error + Send + Sync>>(())
    /// ```
    ///
    /// # Errors
    ///
    /// [`HandedBack`] has the phase, which goes on, the reservers that are handed back, and the
    /// first of these errors that applies. With [`CloseError::OtherPhase`] all reservers are handed
    /// back. With [`CloseError::Order`], which only a phase in blocks returns, and
    /// [`CloseError::InUse`] the phase keeps those that came. As long as a reserver that wasn't
    /// handed in exists, the error is `InUse`. One that was passed to [`core::mem::forget`] exists
    /// forever.
    pub fn close_lost(
        mut self,
        reservers: Vec<Reserver<J, S>>,
    ) -> Result<S::Closed, HandedBack<(Self, Vec<Reserver<J, S>>), CloseError>>
        ensures ended { IfOk result (λ closed.
            S.closes_lost self.source (all_returned self reservers.items) closed) }

        // When it succeeds, when it is refused, and what holds then.
        ensures may_return { OnOk result (MayReturn (S.count self.source) self reservers.items) }
        ensures other_phase { IsErrAnd result (λ h. h.error ≡ OtherPhase)
            ↔ ¬ (MayReturn (S.count self.source) self reservers.items) }
        ensures no_missing { IfErr result (λ h. ¬ (IsMissing h.error)) }
        ensures order { IsErrAnd result (λ h. h.error ≡ Order)
            ↔ (MayReturn (S.count self.source) self reservers.items
            × ¬ (S.takes self.source (all_returned self reservers.items))) }
        ensures handed_back { IfErr result (λ h. h.error ≢ InUse → h.error ≢ Order
            → (h.value.0 ≡ self) × (h.value.1.items ≡ reservers.items)) }
        ensures returned { IfErr result (λ h. (h.error ≡ InUse) ⊎ (h.error ≡ Order)
            → (h.value.0 ≡ record self { returned = all_returned self reservers.items })
            × (h.value.1.items ≡ [])) }
    {
        if self.missing(&reservers).is_none() {
            return Err(HandedBack::new((self, reservers), CloseError::OtherPhase));
        }
        self.take_back(reservers);
        if !self.may_end() {
            return Err(self.with_none(CloseError::Order));
        }
        match self.end() {
            Ok((source, returned)) => Ok(source.end_with_some(returned)),
            Err(phase) => Err(phase.with_none(CloseError::InUse)),
        }
    }

    /// How many reservers are missing beside those returned and these, if these may come back.
    fn missing(&self, reservers: &[Reserver<J, S>]) -> Option<usize>
        ensures may_return { IsSome result ↔ MayReturn (S.count self.now.source) self.now reservers.now }
        ensures count { IfSome result (λ missing.
            length (all_returned self.now reservers.now) + missing ≡ S.count self.now.source) }
    {
        if !are_of(self.number(), reservers) {
            return None;
        }
        let most = self.count();
        let returned = self.returned();
        if returned > most || reservers.len() > most - returned {
            return None;
        }
        Some(most - returned - reservers.len())
    }

    /// It goes on, and no reserver is handed back.
    fn with_none(self, error: CloseError) -> HandedBack<(Self, Vec<Reserver<J, S>>), CloseError>
        ensures phase { result.value.0 ≡ self }
        ensures reservers { result.value.1.items ≡ [] }
        ensures error { result.error ≡ error }
    {
        let none = self.no_reservers();
        HandedBack::new((self, none), error)
    }
}
