//! Tests of codes, of the bytes of codes and of messages, and of what a host is made of, through the public calls of
//! their crates: what no command shows.
#![tactic(auto)]

#[cfg(test)]
mod control_stack;
#[cfg(test)]
mod each_frame;
#[cfg(test)]
mod event_lines;
#[cfg(test)]
mod file_bytes;
#[cfg(test)]
mod file_outcomes;
#[cfg(test)]
mod file_round_trips;
#[cfg(test)]
mod frame_refusals;
#[cfg(test)]
mod frame_samples;
#[cfg(test)]
mod played_journal;
#[cfg(test)]
mod read_code;
#[cfg(test)]
mod riding_file;
#[cfg(test)]
mod stores;
#[cfg(test)]
mod tables;
#[cfg(test)]
mod told_host;
#[cfg(test)]
mod whole_file;
