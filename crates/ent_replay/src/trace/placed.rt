use crate::trace::reservation::Reservation;

/// A reservation of the run, and the key that says where in the run it comes.
#[derive(Drop)]
pub(super) struct Placed {
    pub(super) reservation: Reservation,
    pub(super) key: u64,
}
