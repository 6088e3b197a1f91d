//! What follows a path in those below it.
ghost use Rattle.std.specs.Prelude.{◌≡◌, ◌≢◌, ◌⊎◌, ◌++◌, [], ◌∷◌, ℕ, List, MatchBool, MatchOption};
ghost use Rattle.std.specs.Prelude.{true, false, nat_eq};
ghost use Rattle.std.specs.List.{starts_with};
ghost use Rattle.bag_text.specs.Path.{slash};
ghost use Rattle.bag_tree.specs.Moved as moving;

/// What follows a path in one that is the same or below it: nothing, or a `/` and more.
pub fn rest_within<'a>(top: &str, path: &'a str) -> Option<&'a str>
    ensures { MatchOption result (moving.is_within top.now path.now ≡ false) (λ rest.
        (moving.is_within top.now path.now ≡ true) × (path.now ≡ top.now ++ rest.now)) }
{
    let Some(rest) = rest_after(top, path) else {
        return None;
    };
    if is_below(rest) { Some(rest) } else { None }
}

/// What follows a text in one that begins with it.
fn rest_after<'a>(front: &str, text: &'a str) -> Option<&'a str>
    ensures { MatchOption result ((rest : List ℕ) → text.now ≢ front.now ++ rest) (λ rest.
        text.now ≡ front.now ++ rest.now) }
{
    text.strip_prefix(front)
}

/// Whether what follows a path is nothing, or below it.
fn is_below(rest: &str) -> bool
    ensures { MatchBool result ((rest.now ≡ []) ⊎ (starts_with nat_eq rest.now (slash ∷ []) ≡ true))
        ((rest.now ≢ []) × (starts_with nat_eq rest.now (slash ∷ []) ≢ true)) }
{
    rest.is_empty() || rest.as_bytes().starts_with(b"/".as_slice())
}
