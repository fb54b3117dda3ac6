ghost use Rattle.std.specs.Prelude.{◌≡◌};
ghost use Rattle.ent_script.specs.Reading.{births_before};

/// The formats of a script.
#[derive(Clone, Copy)]
pub(crate) enum Format {
    One,
    /// A target may name a birth.
    Two,
}

impl Format {
    /// The frame before which the births are that an operation of this frame may name, if it may.
    pub(crate) fn births_before(self, frame: usize) -> Option<usize>
        ensures { result ≡ births_before self frame }
    {
        match self {
            Format::One => None,
            Format::Two => Some(frame),
        }
    }
}
