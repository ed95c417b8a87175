//! How wide texts are, and how many letters have room. All lengths are in pixels.

ghost use Rattle.std.specs.Prelude.{◌≡◌, ◌≤◌};
ghost use Rattle.drawing_text.specs.Widths as widths;

/// How wide so many letters of 12 pixels are.
pub fn wide_width(letters: u64) -> u64
    requires { letters ≤ 1_000_000 }
    ensures { result ≡ widths.wide_width letters }
{
    (29 * letters + 3) / 4
}

/// How wide so many letters of 10.5 pixels are.
pub fn small_width(letters: u64) -> u64
    requires { letters ≤ 1_000_000 }
    ensures { result ≡ widths.small_width letters }
{
    (13 * letters + 1) / 2
}

/// How many letters of 12 pixels have room in so many pixels.
pub fn wide_room(width: u64) -> u64
    requires { width ≤ 1_000_000 }
    ensures { result ≡ widths.wide_room width }
{
    4 * width / 29
}

/// How many letters of 10.5 pixels have room in so many pixels.
pub fn small_room(width: u64) -> u64
    requires { width ≤ 1_000_000 }
    ensures { result ≡ widths.small_room width }
{
    2 * width / 13
}
