ghost use Rattle.std.specs.Prelude.{◌≡◌, ◌<◌, ◌≤◌, ◌∷◌, ◌++◌, [], length};
ghost use Rattle.std.specs.Fmt.InlineText.{inline_text};
ghost use Rattle.std.specs.List.{flat_map};
ghost use Rattle.ent_script.specs.Shown.{IsPrintable, ArePrintable, byte_text, unit_text};
ghost use Rattle.ent_script.specs.Shown.{char_text, plain, front, hex};

use std::fmt::InlineText;

/// How much of a value or of a line is shown, in bytes.
pub const SHOWN: usize = 60;

/// The front of a text, in printable ASCII. What is longer is cut, and ends in three dots.
pub type Shown = InlineText<SHOWN>;

/// The front of a line of a schedule. What is not printable is `\x` and two digits.
pub fn bytes_shown(line: &[u8]) -> Shown
    ensures text { inline_text result ≡ front (flat_map byte_text line.now) }
    ensures printable { ArePrintable (inline_text result) }
{
    // Each byte is a character at least, so no more of them can be shown.
    let front = &line[..line.len().min(SHOWN + 1)];
    let mut shown = InlineText::new();
    for byte in front {
        shown = with_byte(shown, *byte);
    }
    shown
}

fn with_byte(shown: Shown, byte: u8) -> Shown
    requires { ArePrintable (inline_text shown) }
    ensures text { inline_text result ≡ front (inline_text shown ++ byte_text byte) }
    ensures printable { ArePrintable (inline_text result) }
{
    if (b' '..=b'~').contains(&byte) {
        return with_letter(shown, byte);
    }
    let shown = with_letter(shown, b'\\');
    let shown = with_letter(shown, b'x');
    let shown = with_digit(shown, byte / 16);
    with_digit(shown, byte % 16)
}

/// The front of a text in UTF-8.
pub(super) fn text_shown(text: &str) -> Shown
    ensures text { inline_text result ≡ front (plain text.now) }
    ensures printable { ArePrintable (inline_text result) }
{
    with_text(InlineText::new(), text)
}

/// Appends a text. Each character that is not printable is an escape of JSON, so letters that look
/// the same differ.
pub(super) fn with_text(shown: Shown, text: &str) -> Shown
    requires printable { ArePrintable (inline_text shown) }
    requires short { length (inline_text shown) ≤ 60 }
    ensures text { inline_text result ≡ front (inline_text shown ++ plain text.now) }
    ensures printable { ArePrintable (inline_text result) }
    ensures short { length (inline_text result) ≤ 60 }
{
    let mut shown = shown;
    for letter in text.chars() {
        shown = with_char(shown, letter);
    }
    shown
}

/// Appends a character, or its escapes.
pub(super) fn with_char(shown: Shown, letter: char) -> Shown
    requires printable { ArePrintable (inline_text shown) }
    requires short { length (inline_text shown) ≤ 60 }
    ensures text { inline_text result ≡ front (inline_text shown ++ char_text letter) }
    ensures printable { ArePrintable (inline_text result) }
    ensures short { length (inline_text result) ≤ 60 }
{
    if (' '..='~').contains(&letter) {
        return with_letter(shown, letter as u8);
    }
    let mut units = [0; 2];
    let mut shown = shown;
    for unit in &*letter.encode_utf16(&mut units) {
        shown = with_unit(shown, *unit);
    }
    shown
}

// Appends the escape for a unit of UTF-16.
fn with_unit(shown: Shown, unit: u16) -> Shown
    requires { ArePrintable (inline_text shown) }
    ensures text { inline_text result ≡ front (inline_text shown ++ unit_text unit) }
    ensures printable { ArePrintable (inline_text result) }
    ensures short { length (inline_text result) ≤ 60 }
{
    let shown = with_letter(shown, b'\\');
    let shown = with_letter(shown, b'u');
    let shown = with_digit(shown, (unit / 4096) as u8);
    let shown = with_digit(shown, (unit / 256 % 16) as u8);
    let shown = with_digit(shown, (unit / 16 % 16) as u8);
    with_digit(shown, (unit % 16) as u8)
}

// Appends a hexadecimal digit.
fn with_digit(shown: Shown, digit: u8) -> Shown
    requires printable { ArePrintable (inline_text shown) }
    requires digit { digit < 16 }
    ensures text { inline_text result ≡ front (inline_text shown ++ hex digit ∷ []) }
    ensures printable { ArePrintable (inline_text result) }
    ensures short { length (inline_text result) ≤ 60 }
{
    if digit < 10 {
        with_letter(shown, b'0' + digit)
    } else {
        with_letter(shown, b'a' + (digit - 10))
    }
}

/// Appends a character that is printable.
pub(super) fn with_letter(shown: Shown, letter: u8) -> Shown
    requires printable { ArePrintable (inline_text shown) }
    requires letter { IsPrintable letter }
    ensures text { inline_text result ≡ front (inline_text shown ++ letter ∷ []) }
    ensures printable { ArePrintable (inline_text result) }
    ensures short { length (inline_text result) ≤ 60 }
{
    let mut bytes = [0; 4];
    shown.and_str(char::from(letter).encode_utf8(&mut bytes), SHOWN)
}
