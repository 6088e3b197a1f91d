//! Making a bag in place.
ghost use Rattle.std.specs.Prelude.{◌≡◌, ◌⊎◌, [], true};
ghost use Rattle.std.specs.List.{list_any};
ghost use Rattle.bag_make.specs.Request.{is_refused};
ghost use Rattle.bag_make.specs.WholeMaking.{IsMake};

use crate::MakeFault;
use crate::reading::read_and_plan;
use crate::request::check_request;
use crate::step::take_steps;
use bag_text::{AlgSet, Text};
use bag_tree::WriteTree;
use std::alloc::Global;

/// Makes a bag of the files of a folder, in place (RFC 8493, 2): they go under `data/`, and the tag
/// files are written beside it, with manifests of all the algorithms and `bag-info.txt` with these
/// elements and, last, `Payload-Oxum`.
///
/// Each file is opened once for all algorithms, and read through one buffer of 65,536 bytes; all
/// texts are composed before the first step that changes the tree. The steps are: the folder
/// `.bagit-new` is made; each entry of the base folder that has a file is moved into it, and `data`
/// where that folder is there, in the order of their bytes; it is renamed to `data`; `bagit.txt`,
/// `bag-info.txt`, the manifests and the tag manifests are written.
///
/// What a refusal leaves may have no fault, as where the folder was a bag, or once a manifest is
/// written. Then all files of the folder are below `data`, or those that were there before are at
/// their places, and `bagit.txt` is the folder's own.
///
/// On a device that notes what it does, and on which what was synced is durable, a power cut at any
/// moment leaves each file of the folder whole: at its path, or at that path in `.bagit-new` or in
/// `data`, be it answered Ok or not; and what it leaves without a fault lacks none of the payload
/// either. After Ok a power cut leaves the bag that was made and nothing else. All this holds where
/// the folder was durable when the call began.
///
/// ```
/// let algs = AlgSet::empty().with(Alg::Sha256).with(Alg::Sha512);
/// let (tree, made) = make(alloc, tree, algs, &[(label, value)]);
/// ```
pub fn make<T: WriteTree>(
    alloc: Global,
    tree: T,
    algs: AlgSet,
    info: &[(Text, Text)],
) -> (T, Result<(), MakeFault>)
    ensures untouched { (algs ≡ []) ⊎ (list_any is_refused info.now ≡ true) → result.0 ≡ tree }
    ensures makes { IsMake algs info.now (T.state tree) (T.state result.0) result.1 }
{
    let mut tree = tree;
    let result = make_in(alloc, &mut tree, algs, info);
    (tree, result)
}

/// Makes a bag in a tree that is lent.
fn make_in<T: WriteTree>(
    alloc: Global,
    tree: &mut T,
    algs: AlgSet,
    info: &[(Text, Text)],
) -> Result<(), MakeFault>
    ensures untouched { (algs ≡ []) ⊎ (list_any is_refused info.now ≡ true) → tree.new ≡ tree.old }
    ensures makes { IsMake algs info.now (T.state tree.old) (T.state tree.new) result }
{
    check_request(algs, info)?;
    let steps = read_and_plan(alloc, tree, algs, info)?;
    take_steps(tree, &steps)?;
    Ok(())
}
