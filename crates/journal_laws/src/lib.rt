//! What the journal of a host tells of it: laws of hosts without the tags of their tokens.
//!
//! **Promises.** The journal of a host determines its fields and variables, whatever its key is and whatever was sent;
//! a journal that was played is that of some host, and where a played host does not go on by a line none has it
//! (`field_laws`).
//!
//! **Begin** with `specs/Plays.antt` (`IsJournalOf`).
//!
//! **Stays.** The lines of steps are those of `event_text`.
//!
//! It has definitions and laws alone, over one host. A journal prints tokens without their tags, so what it tells of a
//! host is what is left of the host without them: the bare host. That the rows of the host table do not look at tags is
//! computed row by row.
//!
//! Which steps a journal tells is read off its lines (`specs/Plays`): a message that is printed is read again but for
//! its tag, so steps with one line are alike. What a journal leaves open is whether a token that is printed as that of
//! the top entry is that one. So two runs with one journal are compared step by step. What is told of both hosts is the
//! same all along, where the entry that ends the program is left out: no message names it, no instruction pushes it,
//! and taking it off starts no thread. Where one host takes an entry off and the other ignores the token, one has a
//! thread then and the other has none. The next line is that of a turn for the one and of a take for the other, so
//! there is none, and fields stay as they are at this step.
//!
//! Both laws on what is played set a third host between the played one and the real one. It makes their steps, and its
//! tags say what each of the two has in their place: its own tokens are right on both, and any other has a mark. That
//! a step does the same on a host with other tags is proved once, row by row (`Retagged`), for each function from
//! tokens to tags.
#![tactic(auto)]

mod laws;

pub use laws::{bare_examples, bare_laws, field_laws, play_examples};
