//! What a plan is done with.
use bag_arguments::Plan;
use bag_program::Folders;
use std::alloc::Global;

/// What a plan is done with: where memory comes from, the folders that can be reached, and the
/// plan.
#[derive(Drop)]
pub(crate) struct Work<'w, D> {
    pub(crate) alloc: Global,
    pub(crate) folders: &'w Folders<'w, D>,
    pub(crate) plan: &'w Plan,
}
