//! A bag that the program checks where it is given no words.
ghost use Rattle.std.specs.Prelude.{◌≡◌, [], None, IfOk, OnOk};
ghost use Rattle.bag_memory.specs.Memory.{memory_state, empty_bag};
ghost use Rattle.bag_memory.specs.MemoryView.{state_of_memory};
ghost use Rattle.bag_cli.specs.Sample.{sample_bag, sample_state};

use bag_memory::MemoryTree;
use bag_tags::DECLARATION_TEXT;
use std::alloc::{AllocError, Global};

/// A bag with an empty payload, held in memory.
pub(crate) fn sample_tree(alloc: Global) -> Result<MemoryTree, AllocError>
    ensures { IfOk result (λ tree. state_of_memory tree ≡ sample_state) }
{
    let mut tree = MemoryTree::new(alloc);
    put_sample(&mut tree)?;
    Ok(tree)
}

/// Puts the sample into a tree without files and folders.
fn put_sample(tree: &mut MemoryTree) -> Result<(), AllocError>
    requires { state_of_memory tree.old ≡ memory_state empty_bag [] None }
    ensures { OnOk result (state_of_memory tree.new ≡ sample_state) }
{
    tree.put_file("bagit.txt", DECLARATION_TEXT.as_bytes())?;
    tree.put_file("manifest-sha256.txt", b"")?;
    tree.put_folder("data")
}
