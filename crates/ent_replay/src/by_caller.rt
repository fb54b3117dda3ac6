ghost use Rattle.std.specs.Prelude.{◌≡◌, ◌↔◌, OnOk, OnErr, IsTrue, IsSome};
ghost use Rattle.std.specs.FinMap as map;

use ent_handle::Memory;
use std::alloc::Global;
use std::collections::BTreeMap;
use std::marker::Model;

/// A value for each of some callers.
#[derive(Drop)]
pub struct ByCaller<V> {
    values: BTreeMap<u32, V>,
}

impl<V> Model for ByCaller<V> {
    ghost use Rattle.std.specs.Ordering.{nat_cmp};
    ghost use Rattle.std.specs.Coded.{coded_ℕ};
    ghost use Rattle.std.specs.FinMap as map;

    ghost Value = { map.FinMap nat_cmp V };

    ghost coded = { map.code coded_ℕ V.code };

    ghost view = { λ m. map.from_entries m.values.entries };
}

impl<V: Copy> ByCaller<V> {
    /// No caller has a value. It doesn't allocate.
    pub fn new(alloc: Global) -> Self
        ensures { result ≡ map.empty }
    {
        ByCaller {
            values: BTreeMap::new(alloc),
        }
    }

    /// Returns `true` if no caller has a value.
    pub fn is_empty(&self) -> bool
        ensures { IsTrue result ↔ (self.now ≡ map.empty) }
    {
        self.values.is_empty()
    }

    /// The caller's value, found in logarithmic time.
    pub fn get(&self, caller: u32) -> Option<V>
        ensures { result ≡ map.get self.now caller }
    {
        self.values.get(&caller).copied()
    }

    /// Writes the caller's value.
    ///
    /// # Errors
    ///
    /// Nothing changes if memory runs out.
    pub fn insert(&mut self, caller: u32, value: V) -> Result<(), Memory>
        ensures ok { OnOk result (self.new ≡ map.insert self.old caller value) }
        ensures err { OnErr result (self.new ≡ self.old) }
    {
        self.values.insert(caller, value)?;
        Ok(())
    }

    /// Writes the value of a caller that has one. It doesn't allocate.
    pub fn replace(&mut self, caller: u32, value: V)
        requires { IsSome (map.get self.old caller) }
        ensures { self.new ≡ map.insert self.old caller value }
    {
        if let Some(old) = self.values.get_mut(&caller) {
            *old = value;
        }
    }

    /// Takes the caller's value out, if there is one.
    pub fn remove(&mut self, caller: u32)
        ensures { self.new ≡ map.remove self.old caller }
    {
        let _ = self.values.remove(&caller);
    }

    /// Takes all values out.
    pub fn clear(&mut self)
        ensures { self.new ≡ map.empty }
    {
        self.values.clear();
    }
}
