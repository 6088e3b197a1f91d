//! The whole program.
ghost use Rattle.bag_cli.specs.Program.{IsProgram};

use crate::performing::perform;
use crate::refuse_words;
use bag_arguments::plan_of;
use bag_arguments::said::PROGRAM;
use bag_program::{Disks, Folders, Program, Visits};
use bag_tree::Out;
use std::alloc::Global;

/// `bagit`, which makes and checks bags.
pub struct Bagit;

impl Program for Bagit {
    const NAME: &'static str = PROGRAM;

    ghost does = { IsProgram };

    /// The status of refused words is 2, and of words for which memory ran out 3, and then nothing
    /// is written to `out`; what `perform` says is that of all others.
    fn run<D: Disks, O: Out, E: Out>(
        alloc: Global,
        folders: &Folders<'_, D>,
        words: &[&str],
        visits: &mut Visits<D>,
        out: &mut O,
        err: &mut E,
    ) -> u8 {
        match plan_of(alloc, words) {
            Ok(plan) => perform(alloc, folders, &plan, visits, out, err),
            Err(refused) => refuse_words(&refused, err),
        }
    }
}
