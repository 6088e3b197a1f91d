//! The whole program.
ghost use Rattle.bag_renew_cli.specs.Program.{IsProgram};

use crate::performing::perform;
use crate::said::PROGRAM;
use crate::{refuse_words, renewal_of};
use bag_program::{Disks, Folders, Program, Visits};
use bag_tree::Out;
use std::alloc::Global;

/// `bagit-renew`, which renews bags.
pub struct BagitRenew;

impl Program for BagitRenew {
    const NAME: &'static str = PROGRAM;

    ghost does = { λ below _ _ _. IsProgram below };

    /// The status of refused words is 2, and of words for which memory ran out 3, and then nothing
    /// is written to `out`; what `perform` says is that of all others.
    fn run<D: Disks, O: Out, E: Out>(
        alloc: Global,
        folders: &Folders<'_, D>,
        words: &[&str],
        visits: &mut Visits<D>,
        out: &mut O,
        err: &mut E,
    ) -> u8 {
        match renewal_of(alloc, words) {
            Ok(plan) => perform(alloc, folders, &plan, visits, out, err),
            Err(refused) => refuse_words(&refused, err),
        }
    }
}
