//! Lines and columns of a text.

ghost use Rattle.std.specs.Prelude.{◌≡◌, ◌++◌, ◌+◌, ◌≤◌, ◌<◌, ◌^◌, ◌==◌, length, take, OnOk, if◌then◌else◌};
ghost use Rattle.std.specs.String.{string_bytes};
ghost use Rattle.js_base.specs.declared.limits.TheConstants.{PROGRAM_BYTES};
ghost use Rattle.js_base.specs.declared.text.TheConstants.{LINE_FEED};
ghost use Rattle.text_places.specs.Places.{column_behind, line_behind, place_text};

use js_base::OutOfMemory;
use js_base::text::LINE_FEED;
use std::fmt::Write;

/// A place in a text, and the line and the column of the byte there.
#[derive(Clone, Copy)]
pub struct Place {
    /// From 0.
    pub at: usize,
    /// From 1.
    pub line: usize,
    /// From 1, in bytes.
    pub column: usize,
}

impl Place {
    /// The first place of a text.
    pub fn first() -> Place
        ensures at { result.at ≡ 0 }
        ensures line { result.line ≡ 1 }
        ensures column { result.column ≡ 1 }
    {
        Place {
            at: 0,
            line: 1,
            column: 1,
        }
    }

    /// A later place of the text.
    pub fn moved(self, text: &[u8], to: usize) -> Place
        requires line { self.line ≡ line_behind (take self.at text.now) }
        requires column { self.column ≡ column_behind (take self.at text.now) }
        requires later { self.at ≤ to }
        requires within { to ≤ length text.now }
        requires short { length text.now ≤ PROGRAM_BYTES }
        ensures at { result.at ≡ to }
        ensures line { result.line ≡ line_behind (take to text.now) }
        ensures column { result.column ≡ column_behind (take to text.now) }
    {
        let mut here = self;
        while here.at < to {
            here = here.behind(text[here.at]);
        }
        here
    }

    /// The place behind the byte at this one.
    fn behind(self, byte: u8) -> Place
        requires at { self.at < 2 ^ 32 }
        requires line { self.line < 2 ^ 32 }
        requires column { self.column < 2 ^ 32 }
        ensures at { result.at ≡ self.at + 1 }
        ensures line { result.line ≡ self.line + (if byte == LINE_FEED then 1 else 0) }
        ensures column { result.column ≡ (if byte == LINE_FEED then 1 else self.column + 1) }
    {
        let at = self.at + 1;
        if byte == LINE_FEED {
            Place {
                at,
                line: self.line + 1,
                column: 1,
            }
        } else {
            Place {
                at,
                line: self.line,
                column: self.column + 1,
            }
        }
    }

    /// Adds the line and the column.
    pub fn push(self, words: &mut String, text: &[u8]) -> Result<(), OutOfMemory>
        requires line { self.line ≡ line_behind (take self.at text.now) }
        requires column { self.column ≡ column_behind (take self.at text.now) }
        ensures { OnOk result (string_bytes words.new ≡ string_bytes words.old ++ place_text text.now self.at) }
    {
        let line = self.line;
        let column = self.column;
        write!(words, "line {line} column {column}").map_err(|_| OutOfMemory)
    }
}
