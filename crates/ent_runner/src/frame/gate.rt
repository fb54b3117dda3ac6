/// Called when a system begins. A test can wait in it, and a program can count or trace.
pub trait Gate {
    /// A worker is about to run the system of this number.
    fn entered(&self, system: usize);
}

/// A gate that does nothing.
#[derive(Clone, Copy, Debug)]
pub struct NoGate;

impl Gate for NoGate {
    fn entered(&self, _system: usize) {}
}
