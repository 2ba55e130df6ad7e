//! Decimal numbers without a sign or a leading zero. Script lines and the words of the command line have them.
ghost use Rattle.std.specs.Prelude.{IsTrue, ◌↔◌, ◌≡◌, ◌≢◌, ◌+◌, ◌*◌, ◌<◌, ◌≤◌};
ghost use Rattle.std.specs.Prelude.{◌^◌, ℕ, length, slice_index, IfSome, IfNone};
ghost use Rattle.std.specs.Char.{digit_value};
ghost use Rattle.std.specs.Fmt.{decimal};
ghost use Rattle.std.specs.Int.{IsInRange};

/// The number with one digit more at its end. None where the byte is no digit, or the number would be 2^64 or above.
fn with_digit(value: u64, byte: u8) -> Option<u64>
    ensures fits { IfSome result (λ n. n < 2 ^ 64) }
    ensures digit { IfSome result (λ n. IsInRange 48 57 byte × (n ≡ value * 10 + digit_value byte)) }
    ensures none { IfNone result (IsInRange 48 57 byte → 2 ^ 64 ≤ value * 10 + digit_value byte) }
{
    if !byte.is_ascii_digit() {
        return None;
    }
    value.checked_mul(10)?.checked_add(u64::from(byte - b'0'))
}

/// Whether a digit follows a zero in front.
fn has_leading_zero(text: &[u8]) -> bool
    ensures { IsTrue result ↔ ((slice_index text.now 0 ≡ 48) × (1 < length text.now)) }
{
    matches!(text, [b'0', _, ..])
}

/// The number below 2^64 whose decimal digits these are. None exactly where they are those of no such number:
/// no digit, a sign, a leading zero, another byte, or 2^64 and above.
pub fn parse_decimal(text: &[u8]) -> Option<u64>
    ensures found { IfSome result (λ n. text.now ≡ decimal n) }
    ensures none { IfNone result ((n : ℕ) → n < 2 ^ 64 → text.now ≢ decimal n) }
{
    if text.is_empty() || has_leading_zero(text) {
        return None;
    }
    let mut value = 0_u64;
    for byte in text {
        value = with_digit(value, *byte)?;
    }
    Some(value)
}
