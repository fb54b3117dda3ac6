ghost use Rattle.std.specs.Prelude.{◌≡◌, IfOk, OnOk, option_map};
ghost use Rattle.std.specs.Prelude.{ℕ, List};
ghost use Rattle.serde_json.specs.Data.{Data, put};
ghost use Rattle.ent_script.specs.Json.{pairs_of};
ghost use Rattle.ent_script.specs.Reading.{only};
ghost use Rattle.ent_script.specs.Part.{leaf_data, leaves_of, members_of};

use crate::leaf::Leaf;
use ent_handle::Memory;
use std::alloc::Global;
use std::collections::BTreeMap;

/// The members of an object, in the order of their keys. Most objects have one, which takes no
/// memory.
#[derive(Drop)]
pub(crate) enum Object<'a> {
    Empty,
    One(&'a str, Leaf<'a>),
    Many(BTreeMap<&'a str, Leaf<'a>>),
}

/// Puts a member into a map.
fn insert<'a>(
    map: &mut BTreeMap<&'a str, Leaf<'a>>,
    key: &'a str,
    leaf: Leaf<'a>,
) -> Result<(), Memory>
    ensures ok { OnOk result (leaves_of map.new.entries
        ≡ put key.now (leaf_data leaf.entry) (leaves_of map.old.entries)) }
{
    map.insert(key, leaf)?;
    Ok(())
}

impl<'a> Object<'a> {
    /// The members with this one. Of a key that comes twice the last value counts.
    pub(crate) fn with(
        self,
        alloc: Global,
        key: &'a str,
        leaf: Leaf<'a>,
    ) -> Result<Object<'a>, Memory>
        ensures ok { IfOk result (λ new. members_of new
            ≡ put key.now (leaf_data leaf.entry) (members_of self.entry)) }
    {
        match self {
            Object::Empty => Ok(Object::One(key, leaf)),
            Object::One(first, before) => {
                let mut map = BTreeMap::new(alloc);
                insert(&mut map, first, before)?;
                insert(&mut map, key, leaf)?;
                Ok(Object::Many(map))
            }
            Object::Many(before) => {
                let mut map = before;
                insert(&mut map, key, leaf)?;
                Ok(Object::Many(map))
            }
        }
    }

    /// The only member.
    pub(crate) fn only(&self) -> Option<(&str, &Leaf<'a>)>
        ensures { option_map {U = List ℕ × Data} (λ m. (m.0.now, leaf_data m.1.now)) result
            ≡ only (pairs_of (members_of self.now)) }
    {
        match self {
            Object::Empty => None,
            Object::One(key, leaf) => Some((key, leaf)),
            Object::Many(map) => only_of(map),
        }
    }
}

fn only_of<'a, 'b>(members: &'b BTreeMap<&'a str, Leaf<'a>>) -> Option<(&'b str, &'b Leaf<'a>)>
    ensures { option_map {U = List ℕ × Data} (λ m. (m.0.now, leaf_data m.1.now)) result
        ≡ only (pairs_of (leaves_of members.now.entries)) }
{
    if members.len() != 1 {
        return None;
    }
    let (key, leaf) = members.first_key_value()?;
    Some((key, leaf))
}
