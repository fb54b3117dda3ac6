//! The numbers of rounds.

/// The numbers of some rounds: `first..end`, or `first..end/step`. If the end is below the first,
/// they fall, and begin below the first: `3..0` is 2, 1, 0.
#[derive(Clone, Copy)]
pub struct Numbers {
    low: u32,
    step: u32,
    pub count: u32,
    falls: bool,
}

impl Numbers {
    /// Those of one round.
    pub const ONCE: Numbers = Numbers {
        low: 0,
        step: 1,
        count: 1,
        falls: false,
    };

    /// The numbers that the text writes, if it does.
    pub fn read(text: &str) -> Option<Self> {
        let (range, step) = text.split_once('/').unwrap_or((text, "1"));
        let (first, end) = range.split_once("..")?;
        Numbers::of(first.parse().ok()?, end.parse().ok()?, step.parse().ok()?)
    }

    fn of(first: u32, end: u32, step: u32) -> Option<Self> {
        if step == 0 {
            return None;
        }
        let (low, high) = (first.min(end), first.max(end));
        Some(Numbers {
            low,
            step,
            count: (high - low).div_ceil(step),
            falls: end < first,
        })
    }

    /// The number of that round.
    pub fn at(self, round: u32) -> u32 {
        let round = if self.falls {
            self.count.wrapping_sub(round).wrapping_sub(1)
        } else {
            round
        };
        self.low.wrapping_add(round.wrapping_mul(self.step))
    }
}
