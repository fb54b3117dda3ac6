//! What is made of an input: an output, or a refusal. And how long an input may be.
use crate::text::Text;
use ent_script::found::Found;

/// The longest input that the program reads, in bytes.
pub const INPUT_LIMIT: usize = 67_108_864;

/// What is made of an input.
#[derive(Drop)]
pub(crate) enum Product {
    /// The input is accepted, and this is the output.
    Output(Text),
    /// It is refused.
    Refusal(Refusal),
}

/// The message on a refused input.
#[derive(Drop)]
pub(crate) struct Refusal {
    /// The line of output.
    pub line: Vec<u8>,
    /// What the test that the input fails expects.
    pub wants: &'static str,
    /// What the test found.
    pub found: Found,
}
