//! What the program makes of words that can't be read. Devices that fail, and allocations that
//! do, are runs of the program (`examples/fail_each_device.sh`, `refuse_each_allocation.sh`).
use super::memory::{MemorySink, NEVER};
use spawnrun_lib::refuse_words;
use std::io;
use std::io::ErrorKind;

const UNREAD: &[(ErrorKind, u8, &str)] = &[
    (ErrorKind::OutOfMemory, 3, "memory\n"),
    (
        ErrorKind::InvalidData,
        2,
        "error: invalid UTF-8 was detected in one or more arguments\n",
    ),
    (ErrorKind::Other, 4, "device\n"),
];

#[test]
fn words_that_cannot_be_read(rt: HostRuntime) {
    for (kind, status, text) in UNREAD {
        let mut errors = MemorySink::new(rt.alloc(), NEVER);
        assert!(rt; refused(*kind, &mut errors) == *status);
        assert!(rt; errors.bytes.as_slice() == text.as_bytes());
    }
}

// The status for words that can't be read for this reason.
fn refused(kind: ErrorKind, errors: &mut MemorySink) -> u8 {
    refuse_words(&io::Error::from(kind), errors)
}
