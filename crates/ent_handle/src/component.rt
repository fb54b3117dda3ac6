ghost use Rattle.std.proofs.Common.{rules};
ghost use Rattle.std.specs.Cmp.{partial_order_from_own_ties};
ghost use Rattle.std.specs.Cmp.Rules.{comparing};
ghost use Rattle.std.specs.Ordering.{as_partial_cmp};
ghost use Rattle.ent_handle.specs.Component.{component_cmp, component_cmp_total};

use std::cmp::Ordering;

/// The number of a component: a kind of data that an entity may have. What it means is up to its
/// user.
///
/// Components are ordered by number.
///
/// ```
/// use forgeni::{ComponentId, World};
///
/// /// What the numbers mean is said in one place.
/// const MASS: ComponentId = ComponentId(0);
/// const SPEED: ComponentId = ComponentId(1);
///
/// let mut world = World::new();
/// let cart = world.spawn(&[(SPEED, 40), (MASS, 900)])?;
/// assert_eq!(world.get(cart, MASS), Some(900));
/// # Ok::<(), Box<dyn std::error::Error>>(())
/// ```
#[derive(Clone, Copy, Debug, Default, PartialEq, Eq, Hash)]
pub struct ComponentId(pub u8);

impl Ord for ComponentId {
    ghost cmp = { component_cmp };

    ghost total = { component_cmp_total };

    ghost matches_partial_cmp = { Prim.search (comparing, rules) };

    ghost matches_eq = { Prim.search (comparing, rules) };

    fn cmp(&self, other: &Self) -> Ordering {
        self.0.cmp(&other.0)
    }
}

impl PartialOrd for ComponentId {
    ghost partial_cmp = { as_partial_cmp component_cmp };

    ghost laws = { partial_order_from_own_ties
        (Prim.search (comparing, rules)) (Prim.search (comparing, rules)) };

    fn partial_cmp(&self, other: &Self) -> Option<Ordering> {
        Some(self.cmp(other))
    }
}
