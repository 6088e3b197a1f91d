//! Paths below a base folder, and where they stand for the system.
ghost use Rattle.std.specs.Prelude.{◌≡◌, ◌≢◌, [], IfOk, IsTrue};
ghost use Rattle.bag_disk.specs.Location.{path_in, location_below};
ghost use Rattle.bag_text.specs.Path as spec;

use bag_text::Text;
use std::alloc::{AllocError, Global};

/// What stands between the components of a path.
const SEPARATOR: u8 = b'/';

/// The path of what stands in a folder, where the empty folder is the base folder.
pub fn path_in(alloc: Global, folder: &str, name: &str) -> Result<Text, AllocError>
    ensures { IfOk result (λ path. path ≡ path_in folder.now name.now) }
{
    if folder.is_empty() {
        return Text::from_str(alloc, name);
    }
    joined(alloc, folder, name)
}

/// The path under a folder.
fn joined(alloc: Global, folder: &str, path: &str) -> Result<Text, AllocError>
    ensures { IfOk result (λ text. text ≡ spec.under folder.now path.now) }
{
    let length = folder.len().saturating_add(path.len()).saturating_add(1);
    let mut text = String::with_capacity(alloc, length)?;
    text.push_str(folder)?;
    text.push('/')?;
    text.push_str(path)?;
    Ok(Text::from_string(text))
}

/// Where a path below a base folder stands for the system; the empty path is the base folder.
pub fn location_below(alloc: Global, base: &str, path: &str) -> Result<Text, AllocError>
    ensures { IfOk result (λ text. text ≡ location_below base.now path.now) }
{
    if path.is_empty() {
        return Text::from_str(alloc, base);
    }
    joined(alloc, base, path)
}

/// Whether a text is where a path below a base folder stands for the system; below an empty base
/// folder nothing does.
pub fn is_location(text: &str, base: &str, path: &str) -> bool
    ensures below_some { IsTrue result → base.now ≢ [] }
    ensures location { IsTrue result → text.now ≡ location_below base.now path.now }
{
    if base.is_empty() || path.is_empty() {
        return false;
    }
    let Some(below) = text.as_bytes().strip_prefix(base.as_bytes()) else {
        return false;
    };
    let Some((separator, rest)) = below.split_first() else {
        return false;
    };
    *separator == SEPARATOR && rest == path.as_bytes()
}
