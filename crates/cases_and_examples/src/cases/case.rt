//! A file of calls, each with what it has to return.

use crate::cases::conditions::{Conditions, when_of};
use crate::cases::filling::{Round, fill};
use crate::cases::layer::Layer;
use crate::cases::numbers::Numbers;
use crate::cases::refusals::Refusals;
use crate::cases::writing::Out;
use anyhow::Result;
use std::alloc::{AllocError, Global};
use std::thread::Threads;

/// How far a file has been run.
#[derive(Drop)]
pub struct Case<'a> {
    alloc: Global,
    name: &'a str,
    /// The call of a line, and what it has to return, in one round.
    call: Out,
    wanted: Out,
    /// What it returned.
    found: Out,
    conditions: Conditions,
    refusals: Refusals,
    /// How many calls were made. A call that was made again counts once.
    calls: u64,
    /// How many of them did not return what the file says.
    differ: u64,
    /// A line for each of these.
    differences: Out,
}

impl<'a> Case<'a> {
    pub fn new(alloc: Global, name: &'a str) -> Result<Self, AllocError> {
        Ok(Case {
            alloc,
            name,
            call: Out::with_room(alloc)?,
            wanted: Out::with_room(alloc)?,
            found: Out::with_room(alloc)?,
            conditions: Conditions::new(alloc)?,
            refusals: Refusals::of(alloc, name)?,
            calls: 0,
            differ: 0,
            differences: Out::new(alloc),
        })
    }

    /// Makes all calls of the text. Those from a line `for n in 0..3` to `end` are made in rounds.
    pub fn run<R: Threads + Sync>(&mut self, rt: &R, layer: &mut Layer, text: &str) {
        for part in text.split("\nend") {
            match rounds_in(part) {
                Some((lines, rounds)) => {
                    self.run_lines(rt, layer, lines, 0);
                    self.run_rounds(rt, layer, rounds);
                }
                None => self.run_lines(rt, layer, part, 0),
            }
        }
        self.end(layer);
    }

    /// Prints how it went, and tells how many calls did not return what the file says.
    pub fn report(&self, rt: &impl Print) -> Result<u64> {
        let (name, differences) = (self.name, self.differences.text.as_str());
        let (calls, differ) = (self.calls, self.differ);
        println!(rt; "{differences}{name}: {calls} calls, {differ} differ")?;
        if self.refusals.are_awaited {
            let (again, left_out) = (self.refusals.count, self.conditions.left_out.text.as_str());
            println!(rt; "{name}: {again} made again, left out:{left_out}")?;
        }
        Ok(differ)
    }

    /// Makes the calls of lines once for each number. The first line tells the numbers.
    fn run_rounds<R: Threads + Sync>(&mut self, rt: &R, layer: &mut Layer, rounds: &str) {
        let (range, lines) = rounds.split_once('\n').unwrap_or((rounds, ""));
        let Some(numbers) = Numbers::read(range) else {
            // It is no call either, so it differs.
            return self.run_line(rt, layer, range, 0);
        };
        for round in 0..numbers.count {
            self.run_lines(rt, layer, lines, numbers.at(round));
        }
    }

    fn run_lines<R: Threads + Sync>(&mut self, rt: &R, layer: &mut Layer, lines: &str, n: u32) {
        for line in lines.lines() {
            self.run_line(rt, layer, line.trim(), n);
        }
    }

    /// Makes the call of a line, or those of its own rounds, if it has any.
    fn run_line<R: Threads + Sync>(&mut self, rt: &R, layer: &mut Layer, line: &str, n: u32) {
        if line.is_empty() || line.starts_with('#') {
            return;
        }
        let (numbers, line) = own_rounds_of(line).unwrap_or((Numbers::ONCE, line));
        for round in 0..numbers.count {
            self.fill_in(
                line,
                Round {
                    n,
                    m: numbers.at(round),
                },
            );
            self.make(rt, layer);
        }
    }

    /// Writes the call of a line, and what it has to return.
    fn fill_in(&mut self, line: &str, round: Round) {
        let (call, wanted) = line.split_once("=>").unwrap_or((line, "an answer"));
        self.call.clear();
        fill(&mut self.call, call.trim(), round);
        self.wanted.clear();
        fill(&mut self.wanted, wanted.trim(), round);
    }

    /// Makes the call of the line, unless its condition doesn't hold, and compares the answer.
    fn make<R: Threads + Sync>(&mut self, rt: &R, layer: &mut Layer) {
        if when_of(self.call.text.as_str()).is_none() && layer.take_untold() {
            return self.note_untold();
        }
        if let Some(call) = self.conditions.call_now(layer, self.call.text.as_str()) {
            self.calls = self.calls.saturating_add(1);
            self.refusals
                .make(rt, self.alloc, layer, call, &mut self.found);
            self.compare();
        }
    }

    /// At the end of a file every stop must have its line.
    fn end(&mut self, layer: &mut Layer) {
        if layer.take_untold() {
            self.call.clear();
            self.call.word("the end");
            self.wanted.clear();
            self.wanted.word("nothing untold");
            self.note_untold();
        }
    }

    /// No line before this call told how a sync point or a frame ran out of memory.
    fn note_untold(&mut self) {
        self.found.clear();
        self.found.word(" no line tells what was disturbed before");
        self.differ = self.differ.saturating_add(1);
        self.note_difference();
    }

    fn compare(&mut self) {
        if !self.is_met() {
            self.differ = self.differ.saturating_add(1);
            self.note_difference();
        }
    }

    /// Whether the call returned what the file says. What ran out of memory can't be compared.
    fn is_met(&self) -> bool {
        let is_cut = self.call.is_cut || self.wanted.is_cut || self.found.is_cut;
        !is_cut
            && !self.conditions.left_out.is_cut
            && self.found.text.trim() == self.wanted.text.as_str()
    }

    fn note_difference(&mut self) {
        self.differences.word(self.name);
        self.differences.word(": ");
        self.differences.word(self.call.text.as_str());
        self.differences.word(" => ");
        self.differences.word(self.found.text.trim());
        self.differences.word(", expected ");
        self.differences.word(self.wanted.text.as_str());
        self.differences.word("\n");
    }
}

/// The lines before those of rounds, and what the rounds' first line tells with the lines after it.
fn rounds_in(part: &str) -> Option<(&str, &str)> {
    match part.strip_prefix("for n in ") {
        Some(rounds) => Some(("", rounds)),
        None => part.split_once("\nfor n in "),
    }
}

/// The numbers of the rounds of this line alone, and what stands there: `for m in 0..3: CALL`.
fn own_rounds_of(line: &str) -> Option<(Numbers, &str)> {
    let (range, line) = line.strip_prefix("for m in ")?.split_once(": ")?;
    Some((Numbers::read(range)?, line))
}
