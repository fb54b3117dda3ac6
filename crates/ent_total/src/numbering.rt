ghost use Rattle.std.specs.Prelude.{ℕ, Option};

/// What the numbers of phases stand for. A program has one type for it, and gives no number to two
/// phases.
pub trait Numbering {
    // What is open in the phase of each number, if it is of this type.
    ghost phase_of: { (S : Type 0) → ℕ → Option S };
}
