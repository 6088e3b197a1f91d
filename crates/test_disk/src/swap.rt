//! What a file holds in place of its bytes.
use bag_text::Text;

/// What a file holds when it is opened, in place of what is listed.
#[derive(Drop)]
pub(crate) struct Swap {
    pub(crate) path: Text,
    pub(crate) bytes: Vec<u8>,
}

impl Swap {
    ghost use Rattle.std.specs.Prelude.{◌≡◌, Some};
    ghost use Rattle.test_disk.specs.MemoryDisk.{bytes_with};

    /// What is read in place of a file's bytes.
    pub(crate) fn in_place_of<'a>(&'a self, path: &str, bytes: &'a [u8]) -> &'a [u8]
        ensures { result.now ≡ bytes_with (Some self.now) path.now bytes.now }
    {
        if self.path.as_str() == path {
            self.bytes.as_slice()
        } else {
            bytes
        }
    }
}
