//! The values of a script.
use ent_handle::{Birth, ComponentId, Handle};
use ent_script::{Bundle, Operation, Script, Target, read_script};
use std::test::Fail;

// Each operation, each target, and names that are bound twice.
const SCRIPT: &[u8] =
    b"{\"slots\":3,\"generations\":9,\"components\":[\"mp\",\"hp\"],\"frames\":[[],[[\
    {\"spawn\":{\"hp\":5,\"mp\":-6},\"as\":\"b\"},\
    {\"spawn_many\":3,\"as\":\"a\"},\
    {\"spawn_many\":4,\"with\":{\"hp\":0},\"as\":\"b\"},\
    {\"insert\":{\"mp\":1},\"on\":{\"name\":\"a\"}},\
    {\"remove\":\"hp\",\"on\":{\"handle\":\"7v8\"}},\
    {\"despawn\":{\"each\":\"mp\"}},\
    {\"despawn\":{\"name\":\"b\"}},\
    {\"spawn\":{}}],[]]]}";

#[test]
fn values_of_a_script(rt: HostRuntime) -> Result<(), Fail> {
    let script = read_script(&rt, rt.alloc(), SCRIPT, 1)?;
    assert!(rt; has_parts(&script) && has_operations(&script));
    Ok(())
}

fn has_parts(script: &Script) -> bool {
    let limits = script.limits();
    let [first, second] = script.components() else {
        return false;
    };
    let [empty, full] = script.frames() else {
        return false;
    };
    let [_, last] = full.systems() else {
        return false;
    };
    (limits.slots(), limits.generations()) == (3, 9)
        && (first.as_str(), second.as_str()) == ("mp", "hp")
        && empty.systems().is_empty()
        && last.operations().is_empty()
}

// The operations of the first system of the last frame.
fn operations(script: &Script) -> &[Operation] {
    match script.frames().last().and_then(|it| it.systems().first()) {
        Some(system) => system.operations(),
        None => &[],
    }
}

const MP: ComponentId = ComponentId(0);

const HP: ComponentId = ComponentId(1);

// Components stand by their numbers, and names are numbered as they are bound first.
fn has_operations(script: &Script) -> bool {
    let [a, b, c, changes @ .., last] = operations(script) else {
        return false;
    };
    is_spawn(a, &[(MP, -6), (HP, 5)], Some(0))
        && is_spawn_many(b, 3, &[], Some(1))
        && is_spawn_many(c, 4, &[(HP, 0)], Some(0))
        && has_changes(changes)
        && is_spawn(last, &[], None)
}

fn has_changes(operations: &[Operation]) -> bool {
    let [a, b, c, d] = operations else {
        return false;
    };
    is_insert(a, &[(MP, 1)], Target::Name(1))
        && is_remove(b, HP, Target::Handle(Handle::from_parts(7, 8)))
        && is_despawn(c, Target::Each(MP))
        && is_despawn(d, Target::Name(0))
}

fn has(bundle: &Bundle, items: &[(ComponentId, i64)]) -> bool {
    bundle.items() == items
}

fn is_spawn(operation: &Operation, items: &[(ComponentId, i64)], name: Option<usize>) -> bool {
    match operation {
        Operation::Spawn { bundle, binds } => has(bundle, items) && *binds == name,
        _ => false,
    }
}

fn is_spawn_many(
    operation: &Operation,
    wanted: u32,
    items: &[(ComponentId, i64)],
    name: Option<usize>,
) -> bool {
    match operation {
        Operation::SpawnMany {
            count,
            bundle,
            binds,
        } => *count == wanted && has(bundle, items) && *binds == name,
        _ => false,
    }
}

fn is_insert(operation: &Operation, items: &[(ComponentId, i64)], on: Target) -> bool {
    match operation {
        Operation::Insert { bundle, target } => has(bundle, items) && *target == on,
        _ => false,
    }
}

fn is_remove(operation: &Operation, id: ComponentId, on: Target) -> bool {
    match operation {
        Operation::Remove { component, target } => *component == id && *target == on,
        _ => false,
    }
}

fn is_despawn(operation: &Operation, on: Target) -> bool {
    match operation {
        Operation::Despawn { target } => *target == on,
        _ => false,
    }
}

#[test]
fn limits_that_are_absent(rt: HostRuntime) -> Result<(), Fail> {
    let script = read_script(&rt, rt.alloc(), b"{\"components\":[],\"frames\":[]}", 1)?;
    assert!(rt; has_default_limits(&script));
    Ok(())
}

fn has_default_limits(script: &Script) -> bool {
    let limits = script.limits();
    (limits.slots(), limits.generations()) == (4_294_967_295, 2_147_483_647)
        && script.components().is_empty()
        && script.frames().is_empty()
}

const BIRTHS: &[u8] = b"{\"format\":2,\"components\":[],\"frames\":[[],[],[[\
    {\"despawn\":{\"birth\":\"0.0.0\"}},{\"despawn\":{\"birth\":\"1.255.4294967295\"}}]]]}";

#[test]
fn births_of_targets(rt: HostRuntime) -> Result<(), Fail> {
    let script = read_script(&rt, rt.alloc(), BIRTHS, 1)?;
    assert!(rt; has_births(&script));
    Ok(())
}

fn has_births(script: &Script) -> bool {
    let [least, greatest] = operations(script) else {
        return false;
    };
    is_despawn(least, birth(0, 0, 0)) && is_despawn(greatest, birth(1, 255, 4_294_967_295))
}

fn birth(frame: u64, system: u32, ordinal: u32) -> Target {
    Target::Birth(Birth {
        frame,
        system,
        ordinal,
    })
}
