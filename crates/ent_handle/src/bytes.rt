//! Numbers as bytes, the lowest byte first: what images are made of.
ghost use Rattle.std.specs.Prelude.{◌≡◌, ◌+◌, ◌≤◌, ◌++◌, length, vec_len, vec_capacity};
ghost use Rattle.ent_handle.specs.Bytes.{word, long};

/// Appends a number in four bytes. There is room for them.
#[tactic(auto, unfolding(crate::specs::Bytes::word))]
pub fn write_word(out: &mut Vec<u8>, number: u32)
    requires { vec_len out.old + 4 ≤ vec_capacity out.old }
    ensures items { out.new.items ≡ out.old.items ++ word number }
    ensures len { vec_len out.new ≡ vec_len out.old + 4 }
    ensures capacity { vec_capacity out.old ≤ vec_capacity out.new }
{
    let _ = out.extend_from_slice(&number.to_le_bytes());
}

/// Appends a number in eight bytes. There is room for them.
#[tactic(auto, unfolding(crate::specs::Bytes::long))]
pub fn write_long(out: &mut Vec<u8>, number: u64)
    requires { vec_len out.old + 8 ≤ vec_capacity out.old }
    ensures items { out.new.items ≡ out.old.items ++ long number }
    ensures len { vec_len out.new ≡ vec_len out.old + 8 }
    ensures capacity { vec_capacity out.old ≤ vec_capacity out.new }
{
    let _ = out.extend_from_slice(&number.to_le_bytes());
}

/// The number in four bytes.
fn word_in(bytes: [u8; 4]) -> u32
    ensures { bytes ≡ word result }
{
    u32::from_le_bytes(bytes)
}

/// The number in eight bytes.
fn long_in(bytes: [u8; 8]) -> u64
    ensures { bytes ≡ long result }
{
    u64::from_le_bytes(bytes)
}

/// The number in the first four bytes, and the bytes after them.
pub fn read_word(bytes: &[u8]) -> (u32, &[u8])
    requires { 4 ≤ length bytes.now }
    ensures bytes { bytes.now ≡ word result.0 ++ result.1.now }
    ensures len { length bytes.now ≡ 4 + length result.1.now }
{
    let (first, rest) = bytes.split_first_chunk().unwrap();
    (word_in(*first), rest)
}

/// The number in the first eight bytes, and the bytes after them.
pub fn read_long(bytes: &[u8]) -> (u64, &[u8])
    requires { 8 ≤ length bytes.now }
    ensures bytes { bytes.now ≡ long result.0 ++ result.1.now }
    ensures len { length bytes.now ≡ 8 + length result.1.now }
{
    let (first, rest) = bytes.split_first_chunk().unwrap();
    (long_in(*first), rest)
}
