//! Stage 1: the declaration.
ghost use Rattle.std.specs.Prelude.{IfOk};
ghost use Rattle.bag_text.specs.Order.{IsListOf};
ghost use Rattle.bag_tree.specs.Bag.{Bag};
ghost use Rattle.bag_faults.specs.FaultOrder.{fault_cmp};
ghost use Rattle.bag_facts.specs.FactsOfBag.{IsFactsOf};
ghost use Rattle.bag_stages.specs.DeclarationStage.{IsOfDeclaration};

use crate::tag_file::faults_in_file;
use bag_facts::Facts;
use bag_faults::Fault;
use bag_read::TagName;
use bag_text::Code;
use std::alloc::{AllocError, Global};

/// The faults of `bagit.txt` (RFC 8493, 2.1.1). Fails only where memory runs out.
pub fn declaration_faults(alloc: Global, facts: &Facts) -> Result<Vec<Fault>, AllocError>
    ensures { IfOk result (λ faults. (bag : Bag) → IsFactsOf bag facts.now
        → IsListOf fault_cmp (IsOfDeclaration bag) faults.items) }
{
    let path = TagName::Declaration.path(alloc)?;
    match facts.declaration() {
        Some(declaration) => faults_in_file(alloc, &path, None, declaration.faults.as_slice()),
        None => Ok(vec![in alloc; Fault::new(alloc, Code::NoDeclaration, path)]?),
    }
}
