//! Numbers that are written in decimal digits.

ghost use Rattle.std.specs.Prelude.{◌≡◌, ◌≤◌, ◌^◌, IsTrue, IfSome, IfNone};
ghost use Rattle.std.specs.Char.{is_ascii_digit};
ghost use Rattle.std.specs.List.{list_all};
ghost use Rattle.std.specs.Str.Parse.{digits_value};

/// Whether all bytes are digits. No bytes are.
pub fn are_digits(bytes: &[u8]) -> bool
    ensures { result ≡ list_all is_ascii_digit bytes.now }
{
    bytes.iter().all(|byte| byte.is_ascii_digit())
}

/// The number that digits write, where it fits 64 bits. No digits write 0.
pub fn digits_value(digits: &[u8]) -> Option<u64>
    requires { IsTrue (list_all is_ascii_digit digits.now) }
    ensures some { IfSome result (λ value. digits_value 10 digits.now ≡ value) }
    ensures none { IfNone result (2 ^ 64 ≤ digits_value 10 digits.now) }
{
    let mut value = 0u64;
    for digit in digits {
        value = value
            .checked_mul(10)?
            .checked_add(u64::from(*digit - b'0'))?;
    }
    Some(value)
}
