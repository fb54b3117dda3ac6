//! Texts of handles that run out of memory.

use ent_handle::{Handle, Memory};
use std::test::Fail;

// Passes whichever one allocation is refused: the refused call appends nothing, and is made again.
// `rt try --test --fail-alloc N -- out_of_memory` refuses the Nth.
#[test]
fn out_of_memory_appends_nothing(rt: HostRuntime) -> Result<(), Fail> {
    let mut written = Vec::new(rt.alloc());
    assert!(rt; has_appended(&mut written)?);
    assert!(rt; written.len() == 210 && written.ends_with(b"4294967294v2147483647"));
    Ok(())
}

// Appends the longest text ten times, and says whether a refused call appended nothing each time.
fn has_appended(written: &mut Vec<u8>) -> Result<bool, Memory> {
    let handle = Handle::from_parts(4_294_967_294, 2_147_483_647);
    for count in 0..10usize {
        if !is_appended(handle, written, count * 21)? {
            return Ok(false);
        }
    }
    Ok(true)
}

// Appends the handle's text to so many bytes, once more if memory ran out, and says whether
// nothing was appended then.
fn is_appended(handle: Handle, written: &mut Vec<u8>, len: usize) -> Result<bool, Memory> {
    if handle.write_text(written).is_ok() {
        return Ok(true);
    }
    let is_as_before = written.len() == len;
    handle.write_text(written)?;
    Ok(is_as_before)
}
