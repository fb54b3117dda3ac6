//! The text and the bits of handles.
use ent_handle::{Handle, Memory, TextFault};
use std::alloc::Global;
use std::test::Fail;

const READ: &[(&[u8], u64)] = &[
    (b"0v1", 4_294_967_296),
    (b"1v1", 4_294_967_297),
    (b"4294967294v2147483647", 9_223_372_036_854_775_806),
];

const REFUSED: &[(&[u8], TextFault)] = &[
    (b"00v1", TextFault::Shape),
    (b"0v", TextFault::Shape),
    (b"v1", TextFault::Shape),
    (b"0V1", TextFault::Shape),
    (b"", TextFault::Shape),
    (b"0v1v1", TextFault::Shape),
    (b"99999999999999999999vx", TextFault::Shape),
    (b"0v0", TextFault::Range),
    (b"4294967295v1", TextFault::Range),
    (b"0v2147483648", TextFault::Range),
];

#[test]
fn texts_and_bits(rt: HostRuntime) -> Result<(), Fail> {
    for (text, bits) in READ {
        let handle = Handle::from_bits(*bits).expect(&rt, "a handle");
        assert!(rt; handle.to_bits() == *bits);
        assert!(rt; Handle::read_text(text) == Ok(handle));
        assert!(rt; written(rt.alloc(), handle)?.as_slice() == *text);
    }
    Ok(())
}

// What `write_text` appends to nothing.
fn written(alloc: Global, handle: Handle) -> Result<Vec<u8>, Memory> {
    let mut text = Vec::new(alloc);
    handle.write_text(&mut text)?;
    Ok(text)
}

#[test]
fn texts_that_are_refused(rt: HostRuntime) {
    for (text, fault) in REFUSED {
        assert!(rt; Handle::read_text(text) == Err(*fault));
    }
}

#[test]
fn bits_of_no_handle(rt: HostRuntime) {
    for bits in [0, 8_589_934_591] {
        assert!(rt; Handle::from_bits(bits).is_none());
    }
}
