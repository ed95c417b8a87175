//! The file that a node's code comes from.

ghost use Rattle.std.specs.Prelude.{◌≡◌};
ghost use Rattle.node_starts.specs.SourceNames.{most_of, name_of, source_name};

use front_end::Asked as File;
use js_base::limits::{PROGRAM_BYTES, SPLIT_FILE_BYTES};

/// Where a node's code comes from, by the name of its file.
#[derive(Clone, Copy)]
pub enum SourceWord<'a> {
    /// the program that is split
    Program(&'a str),
    /// the split file
    Code(&'a str),
}

/// The file of a node's code.
pub fn source_file(source: SourceWord<'_>) -> File<'_>
    ensures name { result.name.now ≡ name_of (source_name source.entry) }
    ensures most { result.most ≡ most_of (source_name source.entry) }
{
    match source {
        SourceWord::Program(name) => File {
            name,
            most: PROGRAM_BYTES,
        },
        SourceWord::Code(name) => File {
            name,
            most: SPLIT_FILE_BYTES,
        },
    }
}
