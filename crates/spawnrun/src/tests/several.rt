//! A script that several workers read, and whose world they write: 18,000 entities in two frames.
use super::row::gives;
use spawnrun_lib::Status;
use std::alloc::{AllocError, Global};
use std::test::Fail;

const FRAMES: u32 = 2;

const SYSTEMS: u32 = 9;

const OPERATIONS: u32 = 1_000;

// A system of so many spawns.
fn append_system(
    alloc: Global,
    text: &mut Vec<u8>,
    frame: u32,
    system: u32,
) -> Result<(), AllocError> {
    for number in 0..OPERATIONS {
        let comma = if number == 0 { "" } else { "," };
        let value = value_of(frame, system, number);
        let spawn = format!(in alloc; "{comma}{{\"spawn\":{{\"hp\":{value}}}}}")?;
        text.extend_from_slice(spawn.as_bytes())?;
    }
    Ok(())
}

// No two of them are equal.
fn value_of(frame: u32, system: u32, number: u32) -> u32 {
    (frame << 20) | (system << 12) | number
}

fn script_text(alloc: Global) -> Result<Vec<u8>, AllocError> {
    let mut text = Vec::from_slice(alloc, b"{\"components\":[\"hp\"],\"frames\":[")?;
    for frame in 0..FRAMES {
        text.extend_from_slice(if frame == 0 { b"[[" } else { b",[[" })?;
        for system in 0..SYSTEMS {
            text.extend_from_slice(if system == 0 { b"" } else { b"],[" })?;
            append_system(alloc, &mut text, frame, system)?;
        }
        text.extend_from_slice(b"]]")?;
    }
    text.extend_from_slice(b"]}")?;
    Ok(text)
}

fn report_text(alloc: Global) -> Result<Vec<u8>, AllocError> {
    let mut text = Vec::new(alloc);
    let born = SYSTEMS * OPERATIONS;
    for frame in 0..FRAMES {
        let line = format!(in alloc; "frame {frame} born {born} faults 0\n")?;
        text.extend_from_slice(line.as_bytes())?;
    }
    for place in 0..FRAMES * born {
        let (frame, system, number) = (
            place / born,
            place / OPERATIONS % SYSTEMS,
            place % OPERATIONS,
        );
        let value = value_of(frame, system, number);
        let line = format!(in alloc; "{frame}.{system}.{number} hp={value}\n")?;
        text.extend_from_slice(line.as_bytes())?;
    }
    let last = format!(in alloc; "alive {}\n", FRAMES * born)?;
    text.extend_from_slice(last.as_bytes())?;
    Ok(text)
}

// The report is the same on one worker and on several.
#[test]
fn several_workers_read_and_write(rt: HostRuntime) -> Result<(), Fail> {
    let (script, report) = (script_text(rt.alloc())?, report_text(rt.alloc())?);
    for workers in ["1", "2", "3", "4", "64"] {
        let words = &["run", "--workers", workers];
        let holds = gives(&rt, rt.alloc(), words, &script, Status::Done, &report);
        assert!(rt; holds, "on {}", workers);
    }
    Ok(())
}

// A fault in the system of any of them is found, and of two the first.
#[test]
fn several_workers_find_the_first_fault(rt: HostRuntime) -> Result<(), Fail> {
    let mut script = script_text(rt.alloc())?;
    // Different workers read the systems of these two values.
    let later = place_of(&script, b"hp\":1069063");
    let earlier = place_of(&script, b"hp\":1064968");
    for (place, refusal) in [
        (later, b"refused operation 1 5 7 component\n"),
        (earlier, b"refused operation 1 4 8 component\n"),
    ] {
        if let Some(letter) = script.get_mut(place) {
            *letter = b'x';
        }
        let words = &["run", "--workers", "4"];
        let holds = gives(&rt, rt.alloc(), words, &script, Status::Refused, refusal);
        assert!(rt; holds);
    }
    Ok(())
}

// Where a piece of a text begins, or the text's end if it isn't there.
fn place_of(text: &[u8], piece: &[u8]) -> usize {
    for place in 0..text.len() {
        if text[place..].starts_with(piece) {
            return place;
        }
    }
    text.len()
}
