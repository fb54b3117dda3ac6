//! What a test of an input found, and where, as the end of the line that refuses the input.
#![tactic(auto, using(crate::proofs::FoundLaws::laws))]

ghost use Rattle.std.specs.Prelude.{◌≡◌, ◌+◌, ◌<◌, ◌≤◌, ◌++◌, length};
ghost use Rattle.std.specs.Fmt.{decimal};
ghost use Rattle.std.specs.Fmt.InlineText.{inline_text};

mod first;
mod instead;
mod script;
mod shown;

use itoa::Buffer;
pub use script::script_found;
pub use shown::bytes_shown;
use std::fmt::InlineText;

/// What a test found, and where: one line without its line feed, which follows what the test
/// expects.
///
/// It begins with `; found `, and ends with the place. Of a script of more than 65,536 bytes it has
/// only the place, such as ` at frame 0 (counted from 0)`, and outside of a frame it is empty. It
/// takes no memory itself.
pub type Found = InlineText<256>;

/// Appends a text, for which there is room.
pub fn with(found: Found, text: &str) -> Found
    requires { length (inline_text found) + length text.now < 256 }
    ensures { inline_text result ≡ inline_text found ++ text.now }
{
    found.and_str(text, text.len())
}

/// Appends the decimal of a number, for which there is room.
pub fn with_number(found: Found, number: usize) -> Found
    requires { length (inline_text found) + 20 < 256 }
    ensures text { inline_text result ≡ inline_text found ++ decimal number }
    ensures len { length (inline_text result) ≤ length (inline_text found) + 20 }
{
    with(found, Buffer::new().format(number))
}
