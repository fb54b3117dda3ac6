//! Commands of a game's own type. Two systems fill a log each, and at the sync point a closure
//! obeys the orders, in the order of the systems.
use anyhow::Result;
use ent_alloc::{Entities, FreeFault, Limits};
use ent_handle::Handle;
use ent_log::{Entry, Log, SyncPoint};

/// What a system may order: to fell a tree.
#[derive(Clone, Copy, Drop)]
struct Order {
    tree: Handle,
}

/// Two systems and their sync point.
pub fn show<R: Print + AllocGlobal>(rt: &R) -> Result<()> {
    let mut entities = Entities::new(rt.alloc(), Limits::default_limits());
    let oak = entities.alloc()?;
    let mut logs = Vec::with_capacity(rt.alloc(), 2)?;
    logs.push_reserved(sow(rt, &mut entities)?);
    logs.push_reserved(fell(rt, oak)?);
    settle(rt, &mut entities, &mut logs)
}

/// A system that spawns two trees.
fn sow<R: Print + AllocGlobal>(rt: &R, entities: &mut Entities) -> Result<Log<Order>> {
    let mut log = Log::new(rt.alloc());
    let first = log.spawn(entities)?;
    let second = log.spawn(entities)?;
    println!(rt; "{first} and {second} are sown")?;
    Ok(log)
}

/// A system that orders to fell a tree.
fn fell<R: Print + AllocGlobal>(rt: &R, tree: Handle) -> Result<Log<Order>> {
    let mut log = Log::new(rt.alloc());
    log.push(Order { tree })?;
    println!(rt; "{tree} is to be felled")?;
    Ok(log)
}

/// Brings to life what was sown, and obeys the orders.
fn settle<R: Print + AllocGlobal>(
    rt: &R,
    entities: &mut Entities,
    logs: &mut Vec<Log<Order>>,
) -> Result<()> {
    let mut born = Vec::new(rt.alloc());
    let mut sync = SyncPoint::begin(rt.alloc(), entities, logs, &mut born)?;
    println!(rt; "{} born, {} alive", born.len(), entities.len())?;
    sync.apply(entities, |entities, entry| obey(entities, entry))?;
    println!(rt; "all orders are obeyed, {} alive", entities.len())?;
    Ok(())
}

/// Obeys one order. If it can't, the order comes back with the error. A refused spawn has ended its
/// system before.
fn obey(entities: &mut Entities, entry: Entry<Order>) -> Result<(), (Entry<Order>, FreeFault)> {
    match entry {
        Entry::Spawn(_) | Entry::Refused(_) => Ok(()),
        Entry::Command(order) => match entities.free(order.tree) {
            Ok(_) => Ok(()),
            Err(error) => Err((Entry::Command(order), error)),
        },
    }
}
