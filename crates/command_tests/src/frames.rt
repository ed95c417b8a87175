//! Frames of two hosts, A with the number 0 and B with the number 1, and links that have them.

use crate::rows::{bytes, last_line, listed, marked};
use js_base::HostId;
use node_links::MemLinks;
use std::alloc::{AllocError, Global};
use std::test::Fail;

/// The names of frames, and their bytes:
///
/// - `ACK`: B says that it set what A's request 1.0 asked for.
/// - `SET`: A's request 1.0 asks to set the field 1, at the index 0, to 2.
/// - `SET_OF_B`: the same as if it came from B.
/// - `DONE`: A is done.
/// - `DONE_OF_B`: B is done.
/// - `NO_BYTES`: nothing behind its length.
/// - `ONE_BYTE`: its sender alone.
///
/// Those with a number are sealed with it, under the keys of the file `K`, and were computed with another
/// implementation, the module `hmac` of Python. The first four lead from B to A, of which one lacks its last byte, and
/// one has its last bit changed. Then come two that don't: from B to a third host, and from A to itself. The others
/// lead from A to B.
const FRAMES: &str = "\n\
    ACK: 0 0 0 14 1 8 0 0 0 1 0 0 0 0 0 0 0 0\n\
    SET: 0 0 0 34 0 2 0 0 0 1 0 0 0 0 0 0 0 0 0 0 0 1 0 0 0 0 0 0 0 0 0 0 0 0 0 0 0 2\n\
    SET_OF_B: 0 0 0 34 1 2 0 0 0 1 0 0 0 0 0 0 0 0 0 0 0 1 0 0 0 0 0 0 0 0 0 0 0 0 0 0 0 2\n\
    DONE: 0 0 0 2 0 10\n\
    DONE_OF_B: 0 0 0 2 1 10\n\
    NO_BYTES: 0 0 0 0\n\
    ONE_BYTE: 0 0 0 1 0\n\
    ACK_0: 0 0 0 60 1 0 0 0 0 0 0 0 0 0 0 0 0 14 1 8 0 0 0 1 0 0 0 0 0 0 0 0 135 206 198 55 36 41 65 196 71 152 68 \
        24 1 186 217 150 211 217 215 217 243 41 112 107 32 241 195 149 209 29 16 121\n\
    ACK_0_CUT: 0 0 0 60 1 0 0 0 0 0 0 0 0 0 0 0 0 14 1 8 0 0 0 1 0 0 0 0 0 0 0 0 135 206 198 55 36 41 65 196 71 152 \
        68 24 1 186 217 150 211 217 215 217 243 41 112 107 32 241 195 149 209 29 16\n\
    ACK_0_ALTERED: 0 0 0 60 1 0 0 0 0 0 0 0 0 0 0 0 0 14 1 8 0 0 0 1 0 0 0 0 0 0 0 0 135 206 198 55 36 41 65 196 71 \
        152 68 24 1 186 217 150 211 217 215 217 243 41 112 107 32 241 195 149 209 29 16 120\n\
    ACK_1: 0 0 0 60 1 0 0 0 0 0 0 0 0 1 0 0 0 14 1 8 0 0 0 1 0 0 0 0 0 0 0 0 164 124 235 135 86 137 189 64 225 8 \
        119 129 126 187 204 88 86 122 215 254 249 71 145 162 209 186 1 70 230 159 24 19\n\
    ACK_0_TO_C: 0 0 0 60 1 2 0 0 0 0 0 0 0 0 0 0 0 14 1 8 0 0 0 1 0 0 0 0 0 0 0 0 205 115 68 99 201 45 147 34 221 \
        159 73 116 8 115 15 59 90 49 234 165 14 37 204 215 245 45 80 133 44 50 49 237\n\
    ACK_0_FROM_A: 0 0 0 60 0 0 0 0 0 0 0 0 0 0 0 0 0 14 1 8 0 0 0 1 0 0 0 0 0 0 0 0 29 108 73 151 114 4 206 233 8 \
        203 29 206 64 104 51 145 110 142 47 251 82 250 136 18 224 189 234 196 87 164 195 165\n\
    SET_0: 0 0 0 80 0 1 0 0 0 0 0 0 0 0 0 0 0 34 0 2 0 0 0 1 0 0 0 0 0 0 0 0 0 0 0 1 0 0 0 0 0 0 0 0 0 0 0 0 0 0 0 \
        2 220 85 244 195 107 216 151 4 84 36 231 0 171 58 236 17 39 54 158 134 254 230 163 68 229 6 191 32 160 247 \
        46 11\n\
    DONE_1: 0 0 0 48 0 1 0 0 0 0 0 0 0 1 0 0 0 2 0 10 110 49 58 108 47 182 246 145 94 95 233 248 29 217 56 169 215 \
        227 43 17 245 9 38 62 178 31 208 191 95 165 86 185\n\
    NO_BYTES_0: 0 0 0 46 0 1 0 0 0 0 0 0 0 0 0 0 0 0 167 138 36 22 220 84 199 103 218 243 26 0 17 225 170 44 162 \
        179 156 145 110 142 94 210 118 77 8 123 66 245 250 22\n\
    SET_1: 0 0 0 80 0 1 0 0 0 0 0 0 0 1 0 0 0 34 0 2 0 0 0 1 0 0 0 0 0 0 0 0 0 0 0 1 0 0 0 0 0 0 0 0 0 0 0 0 0 0 0 \
        2 238 77 150 241 129 32 126 244 220 82 212 231 225 252 237 165 43 184 26 85 128 242 58 231 156 34 213 216 \
        76 4 206 199\n\
    DONE_OF_B_0: 0 0 0 48 0 1 0 0 0 0 0 0 0 0 0 0 0 2 1 10 196 0 252 77 126 113 141 179 140 5 86 169 39 157 3 76 \
        203 239 192 31 122 203 43 148 11 170 87 171 198 77 248 151\n";

/// The frame of a name.
fn frame(alloc: Global, name: &str) -> Result<Vec<u8>, Fail> {
    let mark = format!(in alloc; "\n{name}:")?;
    bytes(alloc, marked(FRAMES, mark.as_str(), "\n")?)
}

/// What stands behind the name in the line of a frame, with the end of the line.
fn numbers(alloc: Global, frame: &[u8]) -> Result<String, AllocError> {
    let mut line = String::from_str(alloc, ":")?;
    for byte in frame {
        let number = format!(in alloc; " {byte}")?;
        line.push_str(number.as_str())?;
    }
    line.push_str("\n")?;
    Ok(line)
}

/// The name of a frame, or its bytes where it has none.
fn name_of(alloc: Global, frame: &[u8]) -> Result<String, AllocError> {
    let numbers = numbers(alloc, frame)?;
    match FRAMES.split_once(numbers.as_str()) {
        Some((front, _)) => String::from_str(alloc, last_line(front)),
        None => Ok(numbers),
    }
}

/// The name of a host.
fn host_name(host: HostId) -> &'static str {
    match host.0 {
        0 => "A",
        1 => "B",
        _ => "another host",
    }
}

/// A frame that was sent, behind a comma and its host.
fn sent_frame(alloc: Global, host: HostId, frame: &[u8]) -> Result<String, AllocError> {
    let name = name_of(alloc, frame)?;
    format!(in alloc; ", {} {name}", host_name(host))
}

/// The frames that were sent.
pub fn sent_text(alloc: Global, links: &MemLinks) -> Result<String, AllocError> {
    let mut text = String::new(alloc);
    for (host, frame) in links.sent() {
        let one = sent_frame(alloc, *host, frame)?;
        text.push_str(one.as_str())?;
    }
    Ok(text)
}

/// Links that have the frames of these names to give, and fail at the call of this number.
pub fn links(alloc: Global, names: &str, fails: &str) -> Result<MemLinks, Fail> {
    let mut list = Vec::new(alloc);
    for name in names.split_whitespace() {
        list.push(frame(alloc, name)?)?;
    }
    Ok(MemLinks::new(alloc, list, listed(alloc, fails)?))
}
