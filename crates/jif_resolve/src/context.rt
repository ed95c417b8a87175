//! What every place of a method has in common.

use crate::globals::Globals;
use principals::Principals;

/// What every place of a method has in common.
#[derive(Clone, Copy)]
pub struct Context<'a> {
    pub principals: &'a Principals,
    pub globals: &'a Globals,
    /// Whether the method has a result.
    pub gives: bool,
}
