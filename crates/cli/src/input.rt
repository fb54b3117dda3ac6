//! The input file that the arguments name.
ghost use Rattle.std.specs.Prelude.{◌≡◌, None, Ok, IfErr, IfOk, IfSome, string_bytes};
ghost use Rattle.std.specs.Fn.{FnReturnsAt};
ghost use Rattle.cli.specs.Words.{IsUnknown, NamesFile, NamesNone};

use std::alloc::AllocError;

/// The name of an input file, if the last argument is one: a surplus argument that is no option.
/// `is_line` tells whether arguments are a command line. Those before the last one are, and all of
/// them aren't.
///
/// # Errors
///
/// Memory ran out in `is_line`.
pub fn file_name<F: Fn(&[String]) -> Result<bool, AllocError>>(
    words: &[String],
    is_line: F,
) -> Result<Option<&str>, AllocError>
    requires { F.IsAlwaysCallable is_line }
    ensures named { IfOk result (λ name. IfSome name (λ name.
        NamesFile (FnReturnsAt F.Fn is_line) string_bytes words.now name.now)) }
    ensures none { result ≡ Ok None
        → NamesNone (FnReturnsAt F.Fn is_line) string_bytes words.now }
    ensures memory { IfErr result (λ error.
        IsUnknown (FnReturnsAt F.Fn is_line) words.now error) }
{
    let Some((name, before)) = words.split_last() else {
        return Ok(None);
    };
    if name.starts_with('-') || is_line(words)? || !is_line(before)? {
        return Ok(None);
    }
    Ok(Some(name.as_str()))
}
