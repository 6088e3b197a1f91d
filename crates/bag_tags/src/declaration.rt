//! The declaration, `bagit.txt` (RFC 8493, 2.1.1).
ghost use Rattle.std.specs.Prelude.{◌≡◌, IfOk, IsErrOf};
ghost use Rattle.bag_read.specs.ManifestName.{tag_path};
ghost use Rattle.bag_tags.specs.Declaration.{declaration_text};

use crate::{TagFile, WriteFault};
use bag_read::TagName;
use bag_text::Items;
use std::alloc::{AllocError, Global};

/// The text of `bagit.txt`: version 1.0 and UTF-8.
pub const DECLARATION_TEXT: &str = "BagIt-Version: 1.0\nTag-File-Character-Encoding: UTF-8\n";

/// The bytes of `bagit.txt`: version 1.0 and UTF-8 (RFC 8493, 2.1.1). Fails only where
/// memory runs out.
pub fn write_declaration(alloc: Global) -> Result<Vec<u8>, WriteFault>
    ensures text { IfOk result (λ bytes. bytes.items ≡ declaration_text) }
    ensures never_bad { IsErrOf result WriteFault.BadValue → ⊥ }
{
    Ok(Vec::from_slice(alloc, DECLARATION_TEXT.as_bytes())?)
}

/// `bagit.txt`, with its name. Fails only where memory runs out.
pub fn declaration_file(alloc: Global) -> Result<TagFile, AllocError>
    ensures { IfOk result (λ file. file ≡ (tag_path TagName.Declaration, declaration_text)) }
{
    let path = TagName::Declaration.path(alloc)?;
    match write_declaration(alloc) {
        Ok(bytes) => Ok(TagFile {
            path,
            content: Items::from_vec(bytes),
        }),
        Err(_) => Err(AllocError),
    }
}
