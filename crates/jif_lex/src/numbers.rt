//! Numbers.

ghost use Rattle.std.specs.Prelude.{◌≡◌, ◌≤◌, ◌↔◌, ◌≤ℤ◌, ◌<ℤ◌, length, pos, IfSome};
ghost use Rattle.std.specs.Prelude.{IfNone, IsTrue};
ghost use Rattle.std.specs.Char.{is_ascii_digit};
ghost use Rattle.std.specs.List.{prefix_len};
ghost use Rattle.std.specs.Str.Parse.{digits_value};
ghost use Rattle.jif_lex.specs.Tokens.{AreDigits};
ghost use Rattle.jif_lex.specs.Lexing.{BeginsDigits};

use js_base::digits::digits_value;
use js_base::limits::LARGEST_NUMBER;

/// Whether a text begins with a digit.
pub fn begins_digits(text: &[u8]) -> bool
    ensures { IsTrue result ↔ BeginsDigits text.now }
{
    match text.first() {
        Some(first) => first.is_ascii_digit(),
        None => false,
    }
}

/// How many digits a text begins with.
pub fn digits_len(text: &[u8]) -> usize
    ensures len { result ≡ prefix_len is_ascii_digit text.now }
    ensures within { result ≤ length text.now }
{
    text.iter().take_while(|byte| byte.is_ascii_digit()).count()
}

/// The number that digits write, where it is at most `LARGEST_NUMBER`.
pub fn number(digits: &[u8]) -> Option<i64>
    requires { AreDigits digits.now }
    ensures some { IfSome result
        (λ value. (value ≡ pos (digits_value 10 digits.now)) × (value ≤ℤ LARGEST_NUMBER)) }
    ensures none { IfNone result (LARGEST_NUMBER <ℤ pos (digits_value 10 digits.now)) }
{
    i64::try_from(digits_value(digits)?).ok()
}
