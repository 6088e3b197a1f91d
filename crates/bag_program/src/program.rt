//! A program: what it does for words, and how it is started.
ghost use Rattle.bag_words.specs.Rows.{texts_of_words};
ghost use Rattle.bag_program.specs.Deeds.{Doing};
ghost use Rattle.bag_program.specs.Folders.{disks_of};
ghost use Rattle.bag_program.specs.InTurn.{Does};
ghost use Rattle.bag_program.specs.ProgramRun.{IsRun};

use crate::words::{asked_words, texts_of};
use crate::{Disks, Folders, NoWords, Visits, Words};
use bag_tree::Out;
use std::alloc::{AllocError, Global};

/// A program, by what it does for words.
pub trait Program {
    /// Its name, as its messages begin.
    const NAME: &'static str;

    /// What it does for words.
    ghost does: { Doing };

    /// Does what the words ask for, without the program's name, and gives the exit status.
    fn run<D: Disks, O: Out, E: Out>(
        alloc: Global,
        folders: &Folders<'_, D>,
        words: &[&str],
        visits: &mut Visits<D>,
        out: &mut O,
        err: &mut E,
    ) -> u8
        ensures { Does O.Out visits.old visits.new out.old out.new result
            (does (D.below (disks_of folders.now)) (D.archived (disks_of folders.now))
            (D.reported (disks_of folders.now)) (D.file (disks_of folders.now))
            (texts_of_words words.now)) };

    /// Does what the words ask for that the program was started with, in folders that are lent, and
    /// gives the exit status.
    ///
    /// A word that isn't UTF-8 is refused.
    fn start<R: Words + AllocGlobal, D: Disks, O: Out, E: Out>(
        rt: &R,
        folders: &Folders<'_, D>,
        visits: &mut Visits<D>,
        out: &mut O,
        err: &mut E,
    ) -> u8
        ensures { Does O.Out visits.old visits.new out.old out.new result
            (IsRun (R.answers rt.now) (does (D.below (disks_of folders.now))
            (D.archived (disks_of folders.now)) (D.reported (disks_of folders.now))
            (D.file (disks_of folders.now)))) }
    {
        let alloc = rt.alloc();
        let words = match asked_words(alloc, rt) {
            Ok(words) => words,
            Err(why) => return why.tell(Self::NAME, err),
        };
        match texts_of(alloc, &words) {
            Ok(texts) => Self::run(alloc, folders, &texts, visits, out, err),
            Err(AllocError) => NoWords::Memory.tell(Self::NAME, err),
        }
    }
}
