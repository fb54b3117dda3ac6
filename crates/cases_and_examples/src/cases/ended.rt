//! How a sync point or a frame ended, and whether a line says so.

use crate::cases::call::Call;
use crate::cases::writing::Out;

/// How a sync point or a frame ended.
#[derive(Clone, Copy)]
pub enum Ended {
    Done,
    /// It did nothing, for this reason.
    Refused(&'static str),
    /// Memory ran out: at a system, a command, and how many handles of that are done.
    Stopped(usize, usize, usize),
    /// The frame was lost: no command of its systems was applied.
    Lost,
    /// The frame's systems ran, and none of the entities that they spawned was born.
    Unborn,
}

impl Ended {
    pub fn show(self, out: &mut Out) {
        match self {
            Ended::Done => out.word("done"),
            Ended::Refused(why) => out.word(why),
            Ended::Stopped(system, command, done) => write_stop([system, command, done], out),
            Ended::Lost => out.word("out of memory while the systems ran"),
            Ended::Unborn => out.word("out of memory before a birth"),
        }
    }

    fn is_lost(self) -> bool {
        match self {
            Ended::Lost => true,
            _ => false,
        }
    }

    fn is_unborn(self) -> bool {
        match self {
            Ended::Unborn => true,
            _ => false,
        }
    }

    /// Whether it stopped there.
    fn is_at(self, place: [u32; 3]) -> bool {
        match self {
            Ended::Stopped(system, command, done) => {
                system == place[0] as usize
                    && command == place[1] as usize
                    && done == place[2] as usize
            }
            _ => false,
        }
    }
}

fn write_stop(place: [usize; 3], out: &mut Out) {
    out.word("stopped at");
    for number in place {
        out.word(" ");
        out.show(&number);
    }
}

/// How the last sync point or frame ended that may run out of memory.
#[derive(Clone, Copy)]
pub struct Tried {
    pub ended: Ended,
    /// It ran out of memory, and no line has said how it ended.
    is_untold: bool,
}

impl Tried {
    pub fn new(ended: Ended) -> Self {
        let is_untold = match ended {
            Ended::Done => false,
            _ => true,
        };
        Tried { ended, is_untold }
    }

    /// Whether it ended as the condition says. So many entities live now.
    pub fn holds(&mut self, when: &Call<'_>, living: usize) -> bool {
        match when.name {
            "at" => self.is_told(self.ended.is_at(when.numbers)),
            "unborn" => self.is_told(self.ended.is_unborn()),
            "lost_of" => { self.is_told(self.ended.is_lost() && living == when.number() as usize) }
            "lost" => self.ended.is_lost(),
            _ => !self.ended.is_lost(),
        }
    }

    /// Notes that a line says how it ended, if the line does.
    fn is_told(&mut self, tells: bool) -> bool {
        self.is_untold = self.is_untold && !tells;
        tells
    }

    /// Whether no line has told it. It says so once.
    pub fn take_untold(&mut self) -> bool {
        let is_untold = self.is_untold;
        self.is_untold = false;
        is_untold
    }
}
