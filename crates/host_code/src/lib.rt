//! The code that hosts run and the messages that they send: what is in it, what holds of it, and how it is printed.
//!
//! **Promises.** A code is sound as long as it lives: entries, branches, variables and hosts that it names are there.
//! Its instructions and its messages have one text each.
//!
//! **Begin** with `specs/Code.antt`, and `specs/Sound.antt` for what every code keeps.
//!
//! **Stays.** The order of `Op` and of `Message`, by which their bytes are numbered; the texts, which scripts and
//! journals hold.
//!
//! - `code`, `instruction`, `code_expr`: the code of all hosts with what every code keeps
//! - `riders`: values that ride with a message, and the variables of an instruction whose values ride
//! - `message`: the ten messages, and whether one fits a code
//! - `message_texts`, `instruction_texts`: how both are printed
#![tactic(auto)]

mod code;
mod code_expr;
mod instruction;
mod instruction_texts;
mod message;
mod message_texts;
mod riders;

pub use code::{Code, CodeField, CodeHost, CodeParts, CodeVar, Entry, MOST_ITEMS, Part};
pub use code_expr::{CodeExpr, MOST_NODES, Node, depth_of};
pub use instruction::{Instr, Op};
pub use instruction_texts::instruction_text;
pub use message::Message;
pub use message_texts::{
    ack_text, answer_text, field_name, forward_text, get_text, host_name, lgoto_text, message_text,
    rgoto_text, rgoto_with_text, riders_text, set_text, sync_text, token_text, value_text,
    var_name,
};
pub use riders::{MOST_RIDERS, RiderVars, Riders};
