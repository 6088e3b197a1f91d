//! Tag files that are made.
use bag_text::{Items, Text};
use std::marker::Model;

/// A tag file that is made.
#[derive(Debug, Drop)]
pub struct TagFile {
    /// Its path in the bag.
    pub path: Text,
    /// Its bytes.
    pub content: Items<u8>,
}

impl Model for TagFile {
    ghost use Rattle.std.specs.Prelude.{List, ℕ};

    ghost Value = { List ℕ × List ℕ };

    ghost view = { λ file. (file.path, file.content) };
}
