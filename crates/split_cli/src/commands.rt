//! The commands, each from its files to what is due.

pub mod check;
pub mod compare;
pub mod drive;
pub mod make;
pub mod replay;
pub mod run;
pub mod split;
