//! The frames in which hosts send each other messages: one spelling for each.
//!
//! `write` gives the bytes of a frame, and `read` the frame of some bytes. What is no frame is refused at its first
//! fault.
//!
//! A frame is a length of four bytes, and a body of so many bytes. The body has the number of the host that sends it, a
//! byte below 16, then the kind of the message, a byte, and then the fields of that kind:
//!
//! | kind | message | fields |
//! |---|---|---|
//! | 1 | get | the request, the field, the index |
//! | 2 | set | the request, the field, the index, the value |
//! | 3 | forward | the request, the frame, the variable, the value |
//! | 4 | sync | the request, the frame, the entry, the token |
//! | 5 | rgoto | the frame, the entry, the token |
//! | 6 | lgoto | the token |
//! | 7 | value | the request, the value |
//! | 8 | ack | the request |
//! | 9 | token | the request, the token |
//! | 10 | done | none |
//! | 11 | rgoto with | the frame, the entry, the token, the count of pairs, the pairs |
//!
//! A field, a variable and an entry are numbers of four bytes, and an index and a value signed numbers of eight. A
//! request is the place that asks, in four bytes, and a count of eight. A frame of the program is its call site, in
//! four bytes, and a count of eight. A token is its host, a byte below 16, its frame, its entry, its serial number of
//! eight bytes, and the 16 bytes of its tag. A pair is a variable and the value that rides for it, and their count is a
//! byte, 1 to 8. All numbers have their highest byte first, signed ones in two's complement.
//!
//! As in `split_file`, `write` puts each field behind the others, and `read` has one small function for each reader of
//! `specs/Reading`. It takes no memory, so that each refusal is a fault of the bytes. The body is read to its end apart
//! from what follows it (`whole` and `known` of `specs/Reader`).
//!
//! A further kind of message takes a case of `message_bytes`, of `IsMessage` and of `message_at`, a row of
//! `message_layout`, a function in `messages` and one in `message_bytes`, and a case in each of the lemmas over
//! messages. The reader of an rgoto with which values ride has a file of its own, `riding`, since it tests the host of
//! the token and the count before it reads the pairs.
#![tactic(auto)]

mod appending;
mod error;
mod fields;
mod frame;
mod laws;
mod message_bytes;
mod messages;
mod numbers;
mod ranges;
mod reading;
mod riding;
mod writing;

pub use error::WireError;
pub use frame::Frame;
pub use laws::wire_laws;
pub use ranges::message_law;
pub use reading::read;
pub use writing::write;
