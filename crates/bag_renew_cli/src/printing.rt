//! Writing the new manifest of a bag without a fault.
ghost use Rattle.std.specs.Prelude.{◌≡◌, flat_map, OnOk};
ghost use Rattle.bag_renew_cli.specs.Printing.{IsPrinting, is_status_of, text_of};
ghost use Rattle.bag_tree.specs.Pieces.{Writes};

use crate::put_renewal;
use bag_changes::refusal;
use bag_renew::{TagFile, Unchecked, new_manifests};
use bag_text::{Alg, AlgSet};
use bag_tree::{Out, Refused, Tree, put_all};
use std::alloc::Global;

/// Writes the payload manifest of an algorithm, as it is to be for a bag without a fault; of
/// another bag nothing is written, and on `err` the line that says why. The bag stays as it is.
pub fn print_manifest<T: Tree, W: Out, E: Out>(
    alloc: Global,
    tree: &mut T,
    name: &str,
    alg: Alg,
    out: &mut W,
    err: &mut E,
) -> Result<u8, Refused>
    ensures { IsPrinting alg (T.state tree.old) (T.state tree.new)
        (W.state out.old) (W.state out.new) result }
{
    match new_manifests(alloc, tree, AlgSet::empty().with(alg)) {
        Ok(made) => {
            put_texts(made.as_slice(), out)?;
            Ok(0)
        }
        Err(unchecked) => Ok(refuse(name, unchecked, err)),
    }
}

/// Hands the texts to the output, one after the other.
fn put_texts<W: Out>(made: &[TagFile], out: &mut W) -> Result<(), Refused>
    ensures { Writes (W.state out.old) (W.state out.new) (flat_map text_of made.now) result }
{
    for one in made {
        put_all(out, one.content.as_slice())?;
    }
    Ok(())
}

/// Says why there is no manifest, and gives the exit status.
fn refuse<E: Out>(name: &str, unchecked: Unchecked, err: &mut E) -> u8
    ensures { is_status_of unchecked result }
{
    let status = status_of(&unchecked);
    let _ = put_renewal(name, &Err(refusal(unchecked)), false, err);
    status
}

/// 1 for a fault, and else 3.
fn status_of(unchecked: &Unchecked) -> u8
    ensures { is_status_of unchecked.now result }
{
    match unchecked {
        Unchecked::Faulty(_) => 1,
        Unchecked::Stopped(_) => 3,
    }
}
