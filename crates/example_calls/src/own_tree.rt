//! A tree of one's own, over another one.
ghost use Rattle.std.specs.Prelude.{◌≡◌};

use bag_store::{Listing, Tree, TreeFault};

/// A tree of files that counts the bytes that were read of it.
#[derive(Drop)]
pub struct CountingTree<T> {
    tree: T,
    count: u64,
}

impl<T: Tree + Drop> CountingTree<T> {
    /// The tree that counts the bytes of this one, none so far.
    pub fn over(tree: T) -> CountingTree<T>
        ensures same { ⟦<CountingTree<T> as Tree>⟧.state result ≡ T.state tree }
        ensures none { result.count ≡ 0 }
    {
        CountingTree { tree, count: 0 }
    }

    /// How many bytes were read.
    pub fn count(&self) -> u64
        ensures { result ≡ self.now.count }
    {
        self.count
    }
}

impl<T: Tree + Drop> Tree for CountingTree<T> {
    ghost state = { λ tree. T.state tree.tree };

    ghost is_bag = { λ tree. T.is_bag tree.tree };

    fn list(&mut self) -> Result<Listing, TreeFault> {
        self.tree.list()
    }

    fn open_file(&mut self, path: &str) -> Result<(), TreeFault> {
        self.tree.open_file(path)
    }

    fn read(&mut self, buffer: &mut [u8]) -> Result<usize, TreeFault> {
        let count = self.tree.read(buffer)?;
        self.count = self.count.saturating_add(count as u64);
        Ok(count)
    }
}
