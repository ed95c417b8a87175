//! What a host keeps: the elements of its fields, and the variables of frames.
//!
//! **Promises.** Two maps: the elements of a host's fields, and the variables of its frames.
//!
//! **Begin** with `specs/Stores.antt`; what is kept is said by `Layout` and `Order` there.
//!
//! **Stays.** That no contract above sees offsets or the order of cells.
//!
//! - `stores`, `rows`, `layout`, `variables`: the two maps. The elements of all fields stand in one vector with a table
//!   of offsets (`specs/Layout`), and the variables in one vector by frame and variable (`specs/Order`), in which they
//!   are found by halving. Both are lent as slices
#![tactic(auto)]

mod layout;
mod rows;
mod stores;
mod variables;

pub use stores::Stores;
pub use variables::VarCell;
