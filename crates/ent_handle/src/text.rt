ghost use Rattle.std.specs.Prelude.{◌≡◌, ◌≢◌, ◌+◌, ◌<◌, ◌≤◌, length, vec_len, vec_capacity, ◌∷◌};
ghost use Rattle.std.specs.Prelude.{◌++◌, ◌↔◌, IfOk, IsSome, IfSome, IfNone, OnOk, OnErr, IsErrOf};
ghost use Rattle.std.specs.Prelude.{All};
ghost use Rattle.ent_handle.specs.Handle.{Handle as HandleValue, IsHandle};
ghost use Rattle.ent_handle.specs.Text.{IsDecimal, handle_text, HasHandleForm, written, handle_of};

use crate::decimal::{decimal_value, is_decimal};
use crate::handle::Handle;
use crate::memory::Memory;
use itoa::Buffer;
use std::fmt;
use thiserror::Error;

/// Why a text is not a number, or not a handle.
///
/// ```
/// use forgeni::{Handle, ParseHandleError};
///
/// assert_eq!("12-3".parse::<Handle>(), Err(ParseHandleError::Shape));
/// // No slot has a generation 0.
/// assert_eq!("12v0".parse::<Handle>(), Err(ParseHandleError::Range));
/// ```
#[derive(Clone, Copy, Debug, PartialEq, Eq, Hash, Error)]
pub enum TextFault {
    /// It doesn't have the right form, such as `0v1` for a handle.
    #[error("not of the form of a handle, as 0v1")]
    Shape,
    /// It has the right form, but a number in it is out of range.
    #[error("no handle has these numbers")]
    Range,
}

/// The bytes before the first separator and the bytes after it, or `None` if there is no separator.
pub fn split_once(bytes: &[u8], separator: u8) -> Option<(&[u8], &[u8])>
    ensures found { IfSome result (λ parts. bytes.now ≡ parts.0.now ++ separator ∷ parts.1.now) }
    ensures first { IfSome result (λ parts. All (λ byte. byte ≢ separator) parts.0.now) }
    ensures none { IfNone result (All (λ byte. byte ≢ separator) bytes.now) }
{
    let at = bytes.iter().position(|byte| *byte == separator)?;
    Some((&bytes[..at], &bytes[at + 1..]))
}

impl Handle {
    /// Parses the text of a handle: the index in decimal, the letter `v`, the generation in
    /// decimal. A decimal has no sign and no leading zero.
    ///
    /// It takes time linear in the length of the text, however long that is, and doesn't allocate.
    ///
    /// ```
    /// use forgeni::{Handle, ParseHandleError};
    ///
    /// // A text that came as bytes, without a copy.
    /// let line = b"follow 12v3";
    /// let target = Handle::read_text(&line[7..])?;
    /// assert_eq!(Some(target), Handle::new(12, 3));
    /// assert_eq!(Handle::read_text(b"012v3"), Err(ParseHandleError::Shape));
    /// # Ok::<(), Box<dyn std::error::Error>>(())
    /// ```
    ///
    /// # Errors
    ///
    /// - `Shape`: the text does not have this form.
    /// - `Range`: it has this form, but no handle has these numbers.
    pub fn read_text(bytes: &[u8]) -> Result<Self, TextFault>
        // The text is that of the handle that is read.
        ensures found { IfOk result (λ h. IsHandle h × (bytes.now ≡ handle_text h)) }
        // The text of each handle is read as that handle.
        ensures only { (h : HandleValue) → IsHandle h → bytes.now ≡ handle_text h → result ≡ Ok h }

        ensures shape { IsErrOf result TextFault.Shape ↔ (¬ HasHandleForm bytes.now) }
        ensures range { IsErrOf result TextFault.Range ↔ (HasHandleForm bytes.now
            × ((h : HandleValue) → IsHandle h → bytes.now ≢ handle_text h)) }

        // The whole result, as a function of the text.
        ensures exact { result ≡ handle_of bytes.now }
    {
        let Some((index, generation)) = split_once(bytes, b'v') else {
            return Err(TextFault::Shape);
        };
        if !is_decimal(index) || !is_decimal(generation) {
            return Err(TextFault::Shape);
        }
        Handle::of_decimals(index, generation).ok_or(TextFault::Range)
    }

    fn of_decimals(index: &[u8], generation: &[u8]) -> Option<Self>
        requires index { IsDecimal index.now }
        requires generation { IsDecimal generation.now }
        ensures value { IfSome result (λ h. h ≡ written index.now generation.now) }
        ensures in_range { IsSome result ↔ IsHandle (written index.now generation.now) }
    {
        Handle::new(decimal_value(index)?, decimal_value(generation)?)
    }

    /// Appends the handle's text. It succeeds if `out` has room for the whole text.
    ///
    /// ```
    /// use forgeni::Handle;
    ///
    /// let mut line = b"follow ".to_vec();
    /// "12v3".parse::<Handle>()?.write_text(&mut line)?;
    /// assert_eq!(line, b"follow 12v3");
    /// # Ok::<(), Box<dyn std::error::Error>>(())
    /// ```
    ///
    /// # Errors
    ///
    /// `Memory`: there isn't enough memory for the text. `out` is unchanged.
    pub fn write_text(&self, out: &mut Vec<u8>) -> Result<(), Memory>
        ensures ok { OnOk result (out.new.items ≡ out.old.items ++ handle_text self.now) }
        ensures err { OnErr result (out.new.items ≡ out.old.items) }
        ensures full { OnErr result
            (vec_capacity out.old < vec_len out.old + length (handle_text self.now)) }
        ensures capacity { vec_capacity out.old ≤ vec_capacity out.new }
    {
        let mut index = Buffer::new();
        let index = index.format(self.index()).as_bytes();
        let mut generation = Buffer::new();
        let generation = generation.format(self.generation()).as_bytes();

        out.reserve(index.len() + 1 + generation.len())?;
        out.extend_from_slice(index).unwrap();
        out.push_reserved(b'v');
        out.extend_from_slice(generation).unwrap();
        Ok(())
    }
}

/// The handle's text, as `Handle::write_text` appends it.
impl fmt::Display for Handle {
    ghost use Rattle.std.specs.Prelude.{Some};
    ghost use Rattle.ent_handle.specs.Text.{handle_text};

    ghost output = { λ handle. Some (handle_text handle) };

    fn fmt<W: fmt::Write>(&self, f: &mut fmt::Formatter<W>) -> fmt::Result {
        let index = self.index();
        let generation = self.generation();
        write!(f, "{index}v{generation}")
    }
}

/// As `Display` writes it.
impl fmt::Debug for Handle {
    fn fmt<W: fmt::Write>(&self, f: &mut fmt::Formatter<W>) -> fmt::Result {
        let slot = self.index();
        let occupant = self.generation();
        write!(f, "{slot}v{occupant}")
    }
}
