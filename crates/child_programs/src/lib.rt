//! Programs that a program starts and waits for, as a trait, in memory and over the system.
//!
//! **Promises.** A spawner tells what it was asked, gives each child one end, and fails by its counts alone.
//!
//! **Begin** with `specs/Children.antt`.
//!
//! **Stays.** Nobody is left to be waited for without being listed.
//!
//! - `spawner`: the trait `Spawner`: programs are started as children under numbers, and waited for
//! - `mem_spawner`: one in memory, which tells what it was asked, and fails at listed calls
//! - `real_spawner`: the programs of the system. A file may stand for a program of a name (`Stand`), so that `jifrun`
//!   starts the node in its own folder
//! - `live`: the children that are still to be waited for
#![tactic(auto)]

mod live;
mod mem_spawner;
mod real_spawner;
mod spawner;

pub use mem_spawner::MemSpawner;
pub use real_spawner::{RealSpawner, Stand};
pub use spawner::{SpawnError, Spawner};

#[cfg(test)]
mod tests;
