use std::error::Error;
use std::fmt;

/// The refusal of a request for which too few handles were left.
#[derive(Clone, Copy, Debug, PartialEq, Eq, Hash)]
pub struct Space {
    /// How many handles were requested.
    pub wanted: u32,
    /// How many were left.
    pub left: u32,
}

impl fmt::Display for Space {
    ghost use Rattle.std.specs.Prelude.{Some};
    ghost use Rattle.ent_alloc.specs.Fault.{space_text};

    ghost output = { λ space. Some (space_text space) };

    fn fmt<W: fmt::Write>(&self, f: &mut fmt::Formatter<W>) -> fmt::Result {
        let wanted = self.wanted;
        let left = self.left;
        write!(f, "{wanted} wanted and {left} left")
    }
}

impl Error for Space {}
