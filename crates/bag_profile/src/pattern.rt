//! Patterns of file names.
ghost use Rattle.std.specs.Prelude.{◌≡◌};
ghost use Rattle.bag_profile.specs.Pattern as spec;
ghost use Rattle.bag_profile.specs.Star as star;

/// Whether a name matches a pattern, in which `*` stands for any characters, `/` among them, and
/// every other character for itself (BagIt Profiles Specification, Tag-Files-Allowed). Each piece
/// between stars is sought once, from the left.
pub fn matches(pattern: &str, name: &str) -> bool
    ensures { result ≡ spec.matches pattern.now name.now }
{
    let Some((first, rest)) = pattern.split_once('*') else {
        return pattern == name;
    };
    match name.strip_prefix(first) {
        Some(left) => matches_after_star(rest, left),
        None => false,
    }
}

/// Whether a text is some characters and then what the pattern stands for.
fn matches_after_star(pattern: &str, text: &str) -> bool
    ensures { result ≡ star.matches_after_star pattern.now text.now }
{
    let mut rest = pattern;
    let mut left = text;
    while let Some((piece, more)) = rest.split_once('*') {
        let Some((_, after)) = left.split_once(piece) else {
            return false;
        };
        rest = more;
        left = after;
    }
    left.ends_with(rest)
}
