//! Scripts that are read, and refusals that are written, which run out of memory.
use ent_script::{ReadFault, read_script, write_refusal};
use std::alloc::Global;
use std::test::Fail;
use std::thread::Threads;

const SCRIPT: &[u8] =
    b"{\"components\":[\"hp\",\"mp\"],\"frames\":[[[{\"spawn\":{\"mp\":1,\"hp\":2},\
    \"as\":\"a\"},{\"despawn\":{\"name\":\"a\"}}]]]}";

// How many frames are read.
fn frames_read<R: Threads + Sync>(rt: &R, alloc: Global) -> Result<usize, ReadFault> {
    let script = read_script(rt, alloc, SCRIPT, 1)?;
    Ok(script.frames().len())
}

// Passes whichever single allocation is refused: `rt try --test --fail-alloc N -- out_of_memory`
// refuses the Nth. Where memory ran out, it is read a second time.
#[test]
fn out_of_memory_of_reading(rt: HostRuntime) {
    let read = match frames_read(&rt, rt.alloc()) {
        Err(ReadFault::Memory) => frames_read(&rt, rt.alloc()),
        read => read,
    };
    assert!(rt; read == Ok(1));
}

// The same of the line of a refusal. A refused call appends nothing.
#[test]
fn out_of_memory_of_a_refusal(rt: HostRuntime) -> Result<(), Fail> {
    let mut out = Vec::new(rt.alloc());
    let fault = ReadFault::System {
        frame: 7,
        system: 8,
    };
    if write_refusal(fault, &mut out).is_err() {
        assert!(rt; out.is_empty());
        write_refusal(fault, &mut out)?;
    }
    assert!(rt; out.as_slice() == b"refused system 7 8\n".as_slice());
    Ok(())
}
