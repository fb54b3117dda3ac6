ghost use Rattle.std.specs.Prelude.{◌≡◌, ◌<◌, ◌-◌, [], length, map, OnOk, IfSome, IsTrue, Some};
ghost use Rattle.std.specs.List.{list_all};
ghost use Rattle.ent_script.specs.Names.{is_name_byte, is_name, number_among, with_name};

use ent_handle::Memory;
use std::alloc::Global;
use std::collections::BTreeMap;
use std::marker::Model;

/// Whether the text is 1 to 32 letters from `a` to `z`, digits and `_`.
pub(crate) fn is_name(text: &str) -> bool
    ensures { result ≡ is_name text.now }
{
    1 <= text.len() && text.len() <= 32 && are_name_bytes(text.as_bytes())
}

fn are_name_bytes(bytes: &[u8]) -> bool
    ensures { result ≡ list_all is_name_byte bytes.now }
{
    bytes.iter().all(|byte| byte.is_ascii_lowercase() || byte.is_ascii_digit() || *byte == b'_')
}

/// Different names in order, each found in logarithmic time. The last one is found at once, since
/// most names are used soon after they are bound.
#[derive(Drop)]
pub(crate) struct Names<'a> {
    list: Vec<&'a str>,
    numbers: BTreeMap<&'a str, usize>,
    last: Option<&'a str>,
}

impl<'a> Model for Names<'a> {
    ghost use Rattle.std.specs.Prelude.{ℕ, List, map};

    ghost Value = { List (List ℕ) };

    ghost use Rattle.ent_script.specs.Numbers.{HaveNumbers, IsLast};

    ghost view = { λ n. map (λ name. name.now) n.list.items };

    ghost invariant = { λ n. HaveNumbers n.list.items n.numbers × IsLast n.list.items n.last };
}

impl<'a> Names<'a> {
    /// No names. It doesn't allocate.
    pub(crate) fn new(alloc: Global) -> Self
        ensures { result ≡ [] }
    {
        Names {
            list: Vec::new(alloc),
            numbers: BTreeMap::new(alloc),
            last: None,
        }
    }

    /// How many there are.
    pub(crate) fn len(&self) -> usize
        ensures { result ≡ length self.now }
    {
        self.list.len()
    }

    /// The number of a name.
    pub(crate) fn find(&self, name: &str) -> Option<usize>
        ensures value { result ≡ number_among name.now self.now }
        ensures within { IfSome result (λ number. number < length self.now) }
    {
        if self.is_last(name) {
            return Some(self.list.len() - 1);
        }
        self.numbers.get(name).copied()
    }

    /// Whether it is the last name.
    fn is_last(&self, name: &str) -> bool
        ensures last { IsTrue result → number_among name.now self.now ≡ Some (length self.now - 1) }
        ensures some { IsTrue result → 0 < length self.now }
    {
        match self.last {
            Some(last) => last == name,
            None => false,
        }
    }

    /// Puts the name last, unless it is there.
    pub(crate) fn add(&mut self, name: &'a str) -> Result<(), Memory>
        ensures ok { OnOk result (self.new ≡ with_name self.old name.now) }
    {
        if self.is_last(name) || self.numbers.contains_key(name) {
            return Ok(());
        }
        self.list.reserve(1)?;
        let number = self.list.as_slice().len();
        self.numbers.insert(name, number)?;
        self.list.push_reserved(name);
        self.last = Some(name);
        Ok(())
    }

    /// The names.
    pub(crate) fn as_slice(&self) -> &[&'a str]
        ensures { map (λ name. name.now) result.now ≡ self.now }
    {
        &self.list
    }
}
