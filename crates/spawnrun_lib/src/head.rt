//! The beginning of an entity's line: its birth.
ghost use Rattle.std.specs.Prelude.{◌≡◌, IsTrue};
ghost use Rattle.spawnrun_lib.specs.Heads.{IsHead, AreAlike};

use crate::piece::Piece;
use ent_handle::Birth;
use itoa::Buffer;

/// A birth and its text. Most often that of the next line differs in the last digit alone.
#[derive(Drop)]
pub(crate) struct Head {
    birth: Birth,
    text: Piece,
}

impl Head {
    /// The beginning of the line of an entity with this birth.
    pub(crate) fn of(birth: Birth) -> Self
        ensures head { IsHead result }
        ensures birth { result.birth ≡ birth }
    {
        let mut text = Piece::new();
        text.put(Buffer::new().format(birth.frame).as_bytes());
        text.put(b".");
        text.put(Buffer::new().format(birth.system).as_bytes());
        text.put(b".");
        text.put(Buffer::new().format(birth.ordinal).as_bytes());
        Head { birth, text }
    }

    /// Makes it the beginning of the line of an entity with this birth.
    #[inline(always)]
    pub(crate) fn turn_to(&mut self, birth: Birth)
        requires { IsHead self.old }
        ensures head { IsHead self.new }
        ensures birth { self.new.birth ≡ birth }
    {
        if !self.is_alike(birth) {
            *self = Head::of(birth);
            return;
        }
        self.text.set_last(b'0' + (birth.ordinal % 10) as u8);
        self.birth = birth;
    }

    /// Whether at most the last digit of that birth differs.
    #[inline(always)]
    fn is_alike(&self, birth: Birth) -> bool
        ensures { IsTrue result → AreAlike self.now.birth birth }
    {
        self.birth.frame == birth.frame
            && self.birth.system == birth.system
            && self.birth.ordinal / 10 == birth.ordinal / 10
    }

    /// The text.
    pub(crate) fn text(&self) -> &Piece
        requires { IsHead self.now }
        ensures { result.now ≡ self.now.text }
    {
        &self.text
    }
}
