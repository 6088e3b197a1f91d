//! What a profile's lists say of a name, and which files its patterns are asked of.
ghost use Rattle.std.specs.Prelude.{◌≡◌, ◌↔◌, ℕ, List, Contains, IsTrue};
ghost use Rattle.std.specs.List.{list_any};
ghost use Rattle.bag_profile.specs.Pattern as pattern;
ghost use Rattle.bag_profile.specs.TextSet.{IsAscending};
ghost use Rattle.bag_report.specs.ProfileRules.{Lists, Excludes, MatchesNone, IsFreeTagFile};

use bag_profile::{ListRule, Profile, matches};
use bag_read::{Kind, TagName, manifest_alg};
use bag_text::{Text, is_payload};

/// The names of a list, in the order of their bytes; none where the list is absent.
pub(crate) fn listed(profile: &Profile, rule: ListRule) -> &[Text]
    ensures { (name : List ℕ) → Contains result.now name ↔ Lists profile.now rule name }
{
    match profile.names(rule) {
        Some(names) => names,
        None => &[],
    }
}

/// Whether a list is there and lacks a name: an empty list allows none, and a list that is absent
/// all.
pub(crate) fn excludes(profile: &Profile, rule: ListRule, name: &str) -> bool
    ensures { IsTrue result ↔ Excludes profile.now rule name.now }
{
    match profile.names(rule) {
        Some(names) => !has_name(names, name),
        None => false,
    }
}

/// Whether a list of patterns is there and none of them matches a name.
pub(crate) fn matches_none(profile: &Profile, rule: ListRule, name: &str) -> bool
    ensures { IsTrue result ↔ MatchesNone profile.now rule name.now }
{
    let Some(patterns) = profile.names(rule) else {
        return false;
    };
    !matches_some(patterns, name)
}

/// Whether a file is a tag file of which no other rule speaks.
pub(crate) fn is_free_tag_file(path: &str) -> bool
    ensures { IsTrue result ↔ IsFreeTagFile path.now }
{
    !is_payload(path)
        && TagName::at(path).is_none()
        && manifest_alg(Kind::Payload, path).is_none()
        && manifest_alg(Kind::Tag, path).is_none()
}

/// Whether a name is among names in the order of their bytes, found in time log n of these.
fn has_name(names: &[Text], name: &str) -> bool
    ensures { IsAscending names.now → IsTrue result ↔ Contains names.now name.now }
{
    names
        .binary_search_by(|listed| listed.as_str().cmp(name))
        .is_ok()
}

/// Whether one of these patterns matches a name.
fn matches_some(patterns: &[Text], name: &str) -> bool
    ensures { result ≡ list_any (λ some. pattern.matches some name.now) patterns.now }
{
    patterns
        .iter()
        .any(|pattern| matches(pattern.as_str(), name))
}
