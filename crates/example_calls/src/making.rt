//! A making, and what each refusal asks for.
ghost use Rattle.std.specs.Prelude.{◌≡◌, IfOk};
ghost use Rattle.example_calls.specs.Making.{IsAdvised, advice_of};

use bag_make::{MakeFault, make};
use bag_store::WriteTree;
use bag_text::{Alg, AlgSet, Text};
use std::alloc::{AllocError, Global};

/// What is to be done after a making.
#[derive(Clone, Copy, Debug, PartialEq, Eq)]
pub enum Advice {
    /// The folder is a bag.
    Done,
    /// Nothing was changed: other algorithms or elements are to be given.
    AskOtherwise,
    /// Nothing was changed: `.bagit-new` is to be cleared away.
    ClearTheWay,
    /// Nothing was changed: it may be tried again, once the cause is mended.
    TryAgain,
    /// The steps before this one were taken: the files are to be moved back first.
    MoveBack(u64),
}

/// Makes a bag of a folder, with SHA-256 and SHA-512 and one element, and says what is to be done
/// then: after `Done` the folder is that bag.
pub fn make_bag<T: WriteTree + Drop>(
    alloc: Global,
    tree: T,
    contact: &str,
) -> Result<(T, Advice), AllocError>
    ensures advised { IfOk result (λ done.
        IsAdvised contact.now (T.state tree) (T.state done.0) done.1) }
{
    let label = Text::from_str(alloc, "Contact-Name")?;
    let value = Text::from_str(alloc, contact)?;
    let algs = AlgSet::empty().with(Alg::Sha256).with(Alg::Sha512);
    let (tree, made) = make(alloc, tree, algs, &[(label, value)]);
    Ok((tree, what_follows(&made)))
}

/// What the answer of a making asks for.
fn what_follows(made: &Result<(), MakeFault>) -> Advice
    ensures { result ≡ advice_of made.now }
{
    match made {
        Ok(()) => Advice::Done,
        Err(MakeFault::NoAlgorithm | MakeFault::BadValue) => Advice::AskOtherwise,
        Err(MakeFault::InTheWay) => Advice::ClearTheWay,
        Err(MakeFault::ReadStopped(_) | MakeFault::Memory) => Advice::TryAgain,
        Err(MakeFault::StepRefused(step, _)) => Advice::MoveBack(*step),
    }
}
