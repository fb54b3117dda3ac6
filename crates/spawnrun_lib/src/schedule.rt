ghost use Rattle.std.specs.Prelude.{◌≡◌};
ghost use Rattle.std.specs.Fmt.InlineText.{inline_text};
ghost use Rattle.spawnrun_lib.specs.Found.{line_at, line_found};
ghost use Rattle.ent_script.specs.Shown.{ArePrintable};

use ent_handle::split_once;
use ent_script::found::{Found, bytes_shown, with, with_number};

/// What a schedule has at its line of this number, from 1.
///
/// It is printable ASCII, whatever the line has. A line that takes more than 60 characters is cut,
/// and ends in three dots.
pub(crate) fn schedule_found(text: &[u8], line: usize) -> Found
    ensures found { inline_text result ≡ line_found text.now line }
    ensures printable { ArePrintable (inline_text result) }
{
    let shown = bytes_shown(line_of(text, line));
    let found = with(Found::new(), "; found \"");
    let found = with(found, shown.as_str());
    let found = with(found, "\" at line ");
    let found = with_number(found, line);
    with(found, " (counted from 1)")
}

// The line of this number, or an empty one.
fn line_of(text: &[u8], line: usize) -> &[u8]
    ensures { result.now ≡ line_at text.now line }
{
    let mut rest = text;
    let mut before = line.saturating_sub(1);
    while 0 < before {
        let Some((_, following)) = split_once(rest, b'\n') else {
            return b"";
        };
        rest = following;
        before -= 1;
    }
    match split_once(rest, b'\n') {
        Some((line, _)) => line,
        None => rest,
    }
}
