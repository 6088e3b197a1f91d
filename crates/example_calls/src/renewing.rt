//! A renewal.
ghost use Rattle.example_calls.specs.Renewing.{adding_sha512};
ghost use Rattle.bag_renew.specs.Renew.{IsRenewal};

use bag_renew::{RenewFault, Renewal, renew};
use bag_text::{Alg, AlgSet};
use bag_tree::ReplaceTree;
use std::alloc::Global;

/// Gives a bag manifests of SHA-512 beside those that it has: each file of the payload is read once,
/// and a bag with a fault stays as it is.
pub fn add_sha512<T: ReplaceTree>(alloc: Global, tree: &mut T) -> Result<(), RenewFault>
    ensures { IsRenewal adding_sha512 (T.state tree.old) (T.state tree.new) result }
{
    let mut renewal = Renewal::nothing(alloc);
    renewal.added = AlgSet::empty().with(Alg::Sha512);
    renew(alloc, tree, &renewal)
}
