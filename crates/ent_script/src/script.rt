ghost use Rattle.std.specs.Prelude.{◌≡◌, map, string_bytes};

use crate::frame::Frame;
use ent_alloc::Limits;
use std::marker::Model;

/// A script: the limits of its allocator, the names of its components, and its frames in order.
/// The component at index `i` has the number `i`.
#[derive(Drop)]
pub struct Script {
    limits: Limits,
    components: Vec<String>,
    frames: Vec<Frame>,
}

impl Model for Script {
    ghost use Rattle.std.specs.Prelude.{map, string_bytes};
    ghost use Rattle.ent_script.specs.Script.{Script};

    ghost Value = { Script };

    ghost view = { λ s. record {
      limits = s.limits;
      components = map string_bytes s.components.items;
      frames = s.frames.items;
    } };
}

impl Script {
    /// The script of these parts. It doesn't allocate.
    pub(crate) fn new(limits: Limits, components: Vec<String>, frames: Vec<Frame>) -> Self
        ensures { result ≡ record {
          limits = limits;
          components = map string_bytes components.items;
          frames = frames.items;
        } }
    {
        Script {
            limits,
            components,
            frames,
        }
    }

    /// The limits of its allocator.
    pub fn limits(&self) -> Limits
        ensures { result ≡ self.now.limits }
    {
        self.limits
    }

    /// The names of its components, in the order of their numbers.
    pub fn components(&self) -> &[String]
        ensures { map string_bytes result.now ≡ self.now.components }
    {
        &self.components
    }

    /// Its frames.
    pub fn frames(&self) -> &[Frame]
        ensures { result.now ≡ self.now.frames }
    {
        &self.frames
    }

    /// The limits, the names of the components, and the frames. It doesn't allocate.
    ///
    /// The frames are most of a long script. Their owner can free each one after its run.
    pub fn into_parts(self) -> (Limits, Vec<String>, Vec<Frame>)
        ensures limits { result.0 ≡ self.limits }
        ensures components { map string_bytes result.1.items ≡ self.components }
        ensures frames { result.2.items ≡ self.frames }
    {
        let Script {
            limits,
            components,
            frames,
        } = self;
        (limits, components, frames)
    }
}
