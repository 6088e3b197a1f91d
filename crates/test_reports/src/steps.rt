//! Steps on a tree, and trials of them.
ghost use Rattle.std.specs.Prelude.{IsTrue};
ghost use Rattle.bag_text.specs.Path.{is_base_name};

use crate::held::{Place, contents};
use bag_store::{Tree, TreeFault, WriteTree};
use std::alloc::Global;
use std::process::Abort;

/// Names in the base folder.
#[derive(Clone, Copy)]
pub(crate) enum Name {
    D,
    L,
    M,
    N,
    X,
    Y,
    Zero,
    Data,
    New,
    /// Nothing has it.
    Nothing,
    Declaration,
    Blanks,
    Percent,
    LineFeed,
    Return,
    Letter,
    /// Ends in a line feed.
    Line,
    /// Has blanks, line ends, and what looks like one that is escaped.
    Ends,
}

impl Name {
    pub(crate) fn text(self) -> &'static str
        ensures { IsTrue (is_base_name result.now) }
    {
        match self {
            Name::D => "d",
            Name::L => "l",
            Name::M => "m",
            Name::N => "n",
            Name::X => "x",
            Name::Y => "y",
            Name::Zero => "0",
            Name::Data => "data",
            Name::New => "new",
            Name::Nothing => "none",
            Name::Declaration => "bagit.txt",
            Name::Blanks => " b ",
            Name::Percent => "%41",
            Name::LineFeed => "a\nb",
            Name::Return => "c\r",
            Name::Letter => "\u{e9}",
            Name::Line => "n\n",
            Name::Ends => "%0A \r\n",
        }
    }
}

/// A call of a tree.
#[derive(Clone, Copy)]
pub(crate) enum Step {
    MakeFolder(Name),
    MoveIn(Name, Name),
    RenameFolder(Name, Name),
    /// Makes a file with this text.
    Create(Name, &'static str),
    Open(&'static str),
    /// Reads with room for four bytes.
    Read,
}

/// What a call answers: how many files are listed, how many bytes are read, or 0.
pub(crate) type Answer = Result<usize, TreeFault>;

/// Steps, each with its answer, what stands there before them, and what is held then.
pub(crate) struct Trial {
    pub(crate) title: &'static str,
    pub(crate) before: &'static [Place],
    pub(crate) steps: &'static [(Step, Answer)],
    pub(crate) after: &'static str,
}

/// The answer of a call that answers nothing else.
fn answer_of(done: Result<(), TreeFault>) -> Answer {
    match done {
        Ok(()) => Ok(0),
        Err(fault) => Err(fault),
    }
}

/// Moves something into a folder, which is another one.
fn move_in<T: WriteTree>(tree: &mut T, top: &str, folder: &str) -> Result<(), TreeFault>
    requires top { IsTrue (is_base_name top.now) }
    requires folder { IsTrue (is_base_name folder.now) }
{
    if top == folder {
        return Err(TreeFault::Exists);
    }
    tree.move_in(top, folder)
}

/// How many files are listed.
pub(crate) fn count_listed<T: Tree>(tree: &mut T) -> Answer {
    match tree.list() {
        Ok(listing) => Ok(listing.files.len()),
        Err(fault) => Err(fault),
    }
}

/// Takes a step.
pub(crate) fn take<T: WriteTree>(tree: &mut T, step: Step) -> Answer {
    match step {
        Step::MakeFolder(name) => answer_of(tree.make_folder(name.text())),
        Step::MoveIn(top, folder) => answer_of(move_in(tree, top.text(), folder.text())),
        Step::RenameFolder(from, to) => answer_of(tree.rename_folder(from.text(), to.text())),
        Step::Create(name, text) => answer_of(tree.create(name.text(), text.as_bytes())),
        Step::Open(path) => answer_of(tree.open_file(path)),
        Step::Read => tree.read(&mut [0; 4]),
    }
}

/// The steps of a trial are answered so on a tree that holds what stands there before, and it holds
/// what it is to hold then.
pub(crate) fn follow<T: WriteTree>(stop: &impl Abort, alloc: Global, tree: &mut T, trial: &Trial) {
    for (step, answer) in trial.steps {
        let found = take(tree, *step);
        assert!(stop; found == *answer, "{}: {found:?}", trial.title);
    }
    let found = contents(stop, alloc, tree);
    assert!(stop; found.as_str() == trial.after, "{}: {found}", trial.title);
}
