//! All hosts at once: what each runs, what is in flight between them, and the events that move them on.
//!
//! **Promises.** An event leaves the one world that the definition says, or is refused for its first cause and changes
//! nothing, whoever misbehaves.
//!
//! **Begin** with `specs/World.antt` (`IsStep`, `IsRun`, `refusal_of`); `World::apply` and `replay` are the calls.
//!
//! **Stays.** A world knows who misbehaves, and a host in it does not.
//!
//! - `world`: the public type: start, and what a world tells
//! - `steps`: `apply`: a take, a turn, an act
//! - `refusals`: why an event is refused, and what it finds otherwise
//! - `moves`: the step of one host among all
//! - `mail`: what becomes of an event's messages: room for them, taking out, posting, telling
//! - `flying`: a queue of messages with their labels for each pair of hosts, and how many of them no misbehaving host
//!   may see
//! - `told`: what misbehaving hosts were sent, and the messages that they can make
//! - `choice`: the next event where nobody chooses
//! - `replaying`: events that happen one after the other, up to the first that is refused
//! - `readers`: which labels misbehaving hosts may see
//! - `secrets`: what no misbehaving host may see: whether a label is readable, whether an event is secret, and whether
//!   a world is quiet
//! - `releases`: the values that an event would release
//! - `matching`: whether hosts of a host file are those of a code
//! - `laws`: what an event leaves is determined and fits the code, and lists of events compose
#![tactic(auto)]

mod choice;
mod flying;
pub mod laws;
mod mail;
mod matching;
mod moves;
mod readers;
mod refusals;
mod releases;
mod replaying;
mod secrets;
mod steps;
mod told;
mod world;

pub use matching::are_hosts_of;
pub use replaying::{ReplayError, refused, replay};
pub use world::{EventError, World};
