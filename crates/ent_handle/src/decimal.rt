ghost use Rattle.std.specs.Prelude.{◌≡◌, ℕ, ◌<◌, ◌≤◌, ◌^◌, ◌↔◌, IsSome, IfSome, IfOk, IsErrOf};
ghost use Rattle.std.specs.Char.{is_ascii_digit};
ghost use Rattle.std.specs.Fmt.{decimal};
ghost use Rattle.std.specs.List.{list_all};
ghost use Rattle.std.specs.Str.Parse.{digits_value};
ghost use Rattle.ent_handle.specs.Text.{is_decimal as is_decimal_of, IsDecimal, number_of};

use crate::text::TextFault;

fn all_digits(bytes: &[u8]) -> bool
    ensures { result ≡ list_all is_ascii_digit bytes.now }
{
    bytes.iter().all(|byte| byte.is_ascii_digit())
}

/// Whether the bytes are `0`, or digits of which the first is not `0`.
#[tactic(auto, using(crate::proofs::Decimals::is_decimal_unless_zero))]
pub(crate) fn is_decimal(bytes: &[u8]) -> bool
    ensures { result ≡ is_decimal_of bytes.now }
{
    let [first, others @ ..] = bytes else {
        return false;
    };
    if *first == b'0' {
        others.is_empty()
    } else {
        all_digits(bytes)
    }
}

/// The number that a decimal writes, or `None` if it is 2^32 or more.
pub(crate) fn decimal_value(bytes: &[u8]) -> Option<u32>
    requires { IsDecimal bytes.now }
    ensures value { IfSome result (λ n. n ≡ digits_value 10 bytes.now) }
    ensures in_range { IsSome result ↔ (digits_value 10 bytes.now < 2 ^ 32) }
{
    let mut value: u32 = 0;
    for byte in bytes {
        value = value.checked_mul(10)?.checked_add(u32::from(*byte - b'0'))?;
    }
    Some(value)
}

/// The number of this text, which is a decimal: `0`, or digits of which the first is not `0`.
///
/// It takes time linear in the length of the text, however long that is, and doesn't allocate.
///
/// # Errors
///
/// - `Shape`: the text is not a decimal.
/// - `Range`: it is a decimal, and its number is 2^32 or more.
pub fn read_decimal(bytes: &[u8]) -> Result<u32, TextFault>
    // The text is the decimal of the number that is read.
    ensures found { IfOk result (λ n. bytes.now ≡ decimal n) }
    // The decimal of each number below 2^32 is read as that number.
    ensures only { (n : ℕ) → n < 2 ^ 32 → bytes.now ≡ decimal n → result ≡ Ok n }

    ensures shape { IsErrOf result TextFault.Shape ↔ (¬ IsDecimal bytes.now) }
    ensures range { IsErrOf result TextFault.Range
        ↔ (IsDecimal bytes.now × (2 ^ 32 ≤ digits_value 10 bytes.now)) }

    // The whole result, as a function of the text.
    ensures exact { result ≡ number_of bytes.now }
{
    if !is_decimal(bytes) {
        return Err(TextFault::Shape);
    }
    decimal_value(bytes).ok_or(TextFault::Range)
}
