//! Folders that have the name of a file that a renewal puts or removes.
ghost use Rattle.std.specs.Prelude.{◌≡◌, ◌++◌, ◌∷◌, [], false, IfErr, IfOk, IsTrue, OnOk};
ghost use Rattle.bag_text.specs.Path.{is_base_name};
ghost use Rattle.bag_tree.specs.Bag.{has_folder};
ghost use Rattle.bag_tree.specs.Tree.{NothingFailed};
ghost use Rattle.bag_changes.specs.Folders.{IsHinderedBy, OpensNothing};
ghost use Rattle.bag_changes.specs.Reserved.{IsOutOfTheWay, manifest_names, reserved_names};

use crate::RenewFault;
use crate::fault::stopped;
use crate::obstacles::BEGUN_FILE;
use bag_read::{Kind, TagName};
use bag_text::{Alg, Text};
use bag_tree::{ReplaceTree, Stop};
use std::alloc::{AllocError, Global};

/// Whether no folder has a name that a renewal needs; else the first such name. A folder that holds
/// no file isn't listed, so the tree is asked for each name.
pub(crate) fn check_folders<T: ReplaceTree>(alloc: Global, tree: &mut T) -> Result<(), RenewFault>
    ensures still { OpensNothing (T.state tree.old) (T.state tree.new) }
    ensures no_failure { OnOk result (NothingFailed (T.state tree.old) (T.state tree.new)) }
    ensures way { OnOk result
        (IsTrue (T.state tree.old).honest → IsOutOfTheWay (T.state tree.old).bag) }
    ensures hindered { IfErr result
        (IsHinderedBy reserved_names (T.state tree.old) (T.state tree.new)) }
{
    let Ok(names) = reserved_names(alloc) else {
        return Err(RenewFault::Memory);
    };
    for name in names {
        if let Err(fault) = check_name(alloc, tree, name) {
            return Err(fault);
        }
    }
    Ok(())
}

/// Whether no folder has a name.
fn check_name<T: ReplaceTree>(alloc: Global, tree: &mut T, name: Text) -> Result<(), RenewFault>
    requires { IsTrue (is_base_name name) }
    ensures still { OpensNothing (T.state tree.old) (T.state tree.new) }
    ensures no_failure { OnOk result (NothingFailed (T.state tree.old) (T.state tree.new)) }
    ensures free { OnOk result (IsTrue (T.state tree.old).honest
        → has_folder (T.state tree.old).bag name ≡ false) }
    ensures hindered { IfErr result
        (IsHinderedBy (name ∷ []) (T.state tree.old) (T.state tree.new)) }
{
    match tree.has_folder(name.as_str()) {
        Ok(false) => Ok(()),
        Ok(true) => Err(RenewFault::InTheWay(name)),
        Err(cause) => Err(stopped(Stop::of_file(alloc, cause, name))),
    }
}

/// The names of the tag files that a renewal puts or removes, and of one that is begun.
fn reserved_names(alloc: Global) -> Result<Vec<Text>, AllocError>
    ensures { IfOk result (λ names. names.items ≡ reserved_names) }
{
    let mut names = Vec::new(alloc);
    names.push(TagName::Declaration.path(alloc)?)?;
    names.push(TagName::Info.path(alloc)?)?;
    names.push(Text::from_str(alloc, BEGUN_FILE)?)?;
    push_manifest_names(alloc, &mut names, Kind::Payload)?;
    push_manifest_names(alloc, &mut names, Kind::Tag)?;
    Ok(names)
}

/// Adds the names of the manifests of a kind.
fn push_manifest_names(alloc: Global, names: &mut Vec<Text>, kind: Kind) -> Result<(), AllocError>
    ensures { OnOk result (names.new.items ≡ names.old.items ++ manifest_names kind) }
{
    for alg in Alg::ALL {
        names.push(TagName::Manifest(kind, alg).path(alloc)?)?;
    }
    Ok(())
}
