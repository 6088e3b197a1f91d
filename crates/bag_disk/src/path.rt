//! Which texts are paths.
ghost use Rattle.std.specs.Prelude.{◌≡◌};
ghost use Rattle.bag_text.specs.Path as spec;

use bag_text::check_path;

/// Whether a text is a path (RFC 8493, 2 and 5.1).
pub(crate) fn is_path(text: &str) -> bool
    ensures { result ≡ spec.is_path text.now }
{
    check_path(text).is_ok()
}
