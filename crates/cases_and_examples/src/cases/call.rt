use ent_handle::{Birth, ComponentId, Handle};
use std::alloc::Global;

/// A call: its name, and what it is given. Each word tells by its form what it is: `0v1` is a
/// handle, `0.0.2` a birth, `0=10` a component with its value, and `7` a number. The words of a
/// `system` are calls.
#[derive(Drop)]
pub struct Call<'a> {
    pub line: &'a str,
    /// It is empty if a word has none of these forms, or if the word before `: ` is no number.
    pub name: &'a str,
    /// Whose call it is: `0: spawn` is a call of system 0.
    pub system: Option<usize>,
    /// 0v1 if none is given.
    pub handle: Handle,
    /// 0.0.0 if none is given.
    pub birth: Birth,
    pub items: Vec<(ComponentId, i64)>,
    /// 0 where none is given.
    pub numbers: [u32; 3],
    given: usize,
    /// Memory for an item ran out.
    pub is_cut: bool,
}

impl<'a> Call<'a> {
    /// The call of a line.
    pub fn read(alloc: Global, line: &'a str) -> Self {
        let (system, words) = line.split_once(": ").unwrap_or(("", line));
        let mut call = Call {
            line,
            name: "",
            system: system.parse().ok(),
            handle: Handle::from_parts(0, 1),
            birth: Birth {
                frame: 0,
                system: 0,
                ordinal: 0,
            },
            items: Vec::new(alloc),
            numbers: [0; 3],
            given: 0,
            is_cut: false,
        };
        call.take_all(words);
        if call.system.is_none() && !system.is_empty() {
            call.name = "";
        }
        call
    }

    fn take_all(&mut self, words: &'a str) {
        let mut words = words.split_whitespace();
        self.name = words.next().unwrap_or("");
        if self.name == "system" {
            return;
        }
        for word in words {
            if self.take(word).is_none() {
                self.name = "";
            }
        }
    }

    /// Takes the word as what its form tells. `None` if it has no such form.
    fn take(&mut self, word: &str) -> Option<()> {
        let Some((id, value)) = word.split_once('=') else {
            return self.set(word);
        };
        self.put(ComponentId(id.parse().ok()?), value.parse().ok()?);
        Some(())
    }

    fn put(&mut self, id: ComponentId, value: i64) {
        if self.items.push((id, value)).is_err() {
            self.is_cut = true;
        }
    }

    fn set(&mut self, word: &str) -> Option<()> {
        if word.contains('v') {
            self.handle = Handle::read_text(word.as_bytes()).ok()?;
        } else if word.contains('.') {
            self.birth = birth_of(word)?;
        } else {
            *self.numbers.get_mut(self.given)? = word.parse().ok()?;
            self.given = self.given.saturating_add(1);
        }
        Some(())
    }

    /// The first number.
    pub fn number(&self) -> u32 {
        self.numbers[0]
    }

    /// The component of that number.
    pub fn id(&self) -> ComponentId {
        component(self.number())
    }
}

/// The component of that number. The greatest is 255, and stands for what is greater.
pub fn component(number: u32) -> ComponentId {
    ComponentId(number.min(255) as u8)
}

fn birth_of(word: &str) -> Option<Birth> {
    let (frame, others) = word.split_once('.')?;
    let (system, ordinal) = others.split_once('.')?;
    birth_of_parts(frame, system, ordinal)
}

fn birth_of_parts(frame: &str, system: &str, ordinal: &str) -> Option<Birth> {
    Some(Birth {
        frame: frame.parse().ok()?,
        system: system.parse().ok()?,
        ordinal: ordinal.parse().ok()?,
    })
}
