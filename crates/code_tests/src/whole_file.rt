//! A split file with one of everything, in which each byte between the labels can be told apart.

use crate::file_bytes::file;
use std::alloc::Global;
use std::test::Fail;

/// Two labels; the fields `x`, an array, and `y`; the variables `main.v` and `f.return`; four entries and a site; and
/// two parts, the first with each of the operations. Each item is a line.
const BEHIND_HOSTS: &str = "\
    0 0 0 2 label label\n\
    0 0 0 2\n\
    0 0 0 1 120 0 0 0 0 0 0 0 3 1 255 255 255 255 255 255 255 255 0\n\
    0 0 0 1 121 0 0 0 1 0 0 0 1 0 0 0 0 0 0 0 0 5 1\n\
    0 0 0 2\n\
    0 0 0 6 109 97 105 110 46 118 0 0 0 0\n\
    0 0 0 8 102 46 114 101 116 117 114 110 0 0 0 1\n\
    0 0 0 4\n\
    0 0 0 0 0 0 0 0 0 0 0 0 0 0 0 0 0\n\
    0 0 0 0 0 0 0 0 1 0 0 0 0 0 0 0 1\n\
    1 0 0 0 0 0 0 0 0 128 0 0 0 0 0 0 0\n\
    0 0 0 0 2 0 0 0 0 0 0 0 0 0 0 0 3\n\
    0 0 0 1 0\n\
    0 0 0 0 1\n\
    0 0 0 15\n\
    0 0 0 0 0 0 0 7 1 0 0 0 0 0 0 0 1 1 0 0 0 0 0 0 0 0\n\
    0 0 0 0 0 0 0 7 2 0 0 0 0 0 0 0 1 3 0 0 0 0\n\
    0 0 0 0 0 0 0 7 1 0 0 0 0 0 0 0 1 2 0 0 0 0\n\
    0 0 0 0 0 0 0 7 1 0 0 0 1 0 0 0 1 1 0 0 0 0 0 0 0 0\n\
    0 0 0 0 0 0 0 7 3 0 0 0 1 0 0 0 1 1 0 0 0 0 0 0 0 0 0 0 0 3 3 0 0 0 0 3 0 0 0 1 14\n\
    0 0 0 0 0 0 0 7 4 0 0 0 0 1\n\
    0 0 0 0 0 0 0 7 5 0 0 0 1\n\
    0 0 0 0 0 0 0 7 6 0 0 0 0 0 0 0 2 1 0 0 0 0 0 0 0 1 4\n\
    0 0 0 0 0 0 0 7 7 0 0 0 0 1\n\
    0 0 0 0 0 0 0 7 8 0 0 0 3\n\
    0 0 0 0 0 0 0 7 9 0 0 0 2 1\n\
    0 0 0 0 0 0 0 7 11 0 0 0 1 0\n\
    0 0 0 0 0 0 0 7 14 0 0 0 2 1 0 0 0 0 0 0 0 1 5 0 0 0 2\n\
    0 0 0 0 0 0 0 7 12 0 0 0 1 0 0 0 1 2 0 0 0 1\n\
    0 0 0 0 0 0 0 7 10 0 0 0 2 1\n\
    0 0 0 1\n\
    0 0 0 0 0 0 0 7 13";

/// The file.
pub fn whole_file(alloc: Global) -> Result<Vec<u8>, Fail> {
    file(alloc, BEHIND_HOSTS)
}
