//! What the messages of a split program cost under a plan, counted over the program's tree.
//!
//! **Promises.** `cost` is what the messages of a plan cost by the definition, and what a move changes of it is counted
//! without the rest (`cost_laws`).
//!
//! **Begin** with `specs/Moves.antt` (how the right to go on passes) and `specs/Terms.antt` (which messages that
//! takes). To count a move, `cost_before` and `cost_after` count the pieces that it touches, in front of it and behind
//! it, and `walks_change` what it changes of walks.
//!
//! **Stays.** The spots of a walk: `split_rules` emits code by the same.
//!
//! `cost`, which takes no memory, and what a move adds to it: `cost_before` and `cost_after` count what it touches
//! before and behind the move, but for walks, and `walks_change` what it changes of these (`settled`, `walk_change`).
//! `specs/Moves` says how the right to go on passes from host to host and which values ride with it, `Terms` which
//! messages that and all else takes, `Cost` adds them up, and `Pieces` parts the sum by what depends on the hosts of
//! few parts, of which `Rows` has those of each part. `Tables` says from where on in a block a host is trusted: that
//! depends on no plan, so `index_of` finds it once for each walk and each body. `Walks` says up to where two walks are
//! the same. `carried` finds where a value rides.
#![tactic(auto)]

mod around;
mod blocks;
mod calls;
mod carried;
mod change;
mod ends;
mod index;
mod kept;
mod laws;
mod messages;
mod piece;
mod piece_cost;
mod pieces;
mod planned;
mod program_cost;
mod seated;
mod settled;
mod spot;
mod step;
mod table;
mod tokens;
mod trust;
mod values;
mod walk;
mod walk_change;
mod weight;

pub use change::{cost_after, cost_before, walks_change};
pub use index::{Index, index_of};
pub use laws::{cost_examples, cost_laws};
pub use piece::Piece;
pub use pieces::program_pieces;
pub use planned::{Planned, called_home, next_spot, reading_hosts};
pub use program_cost::{cost, delta};
pub use spot::{Spot, straight_to};
pub use step::Step;
pub use walk::Walk;
pub use walk_change::Change;
