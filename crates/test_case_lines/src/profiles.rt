//! What profiles say.
use crate::bytes::Bytes;
use crate::shown::Shown;
use bag_profile::{LabelRule, ListRule, Profile, Serialization};
use bag_text::Text;

/// The lists of names, each with a letter.
const LISTS: &[(&str, ListRule)] = &[
    ("m", ListRule::ManifestsRequired),
    ("M", ListRule::ManifestsAllowed),
    ("t", ListRule::TagManifestsRequired),
    ("T", ListRule::TagManifestsAllowed),
    ("f", ListRule::TagFilesRequired),
    ("F", ListRule::TagFilesAllowed),
    ("V", ListRule::AcceptBagItVersion),
];

/// Values, each after a mark and before another one.
fn put_values(mark: &str, values: &[Text], after: &str, out: &mut Bytes) {
    for value in values {
        out.put(mark);
        out.show(value, after);
    }
}

/// The rules of labels: `!` where one is required, `1` where it isn't repeatable, and its values.
fn put_rules(rules: &[LabelRule], out: &mut Bytes) {
    for rule in rules {
        out.show(&rule.label, if rule.required { "!" } else { "" });
        out.put(if rule.repeatable { "" } else { "1" });
        put_values("=", rule.values.as_slice(), "", out);
        out.put("|");
    }
}

/// The lists of names that are there.
fn put_lists(profile: &Profile, out: &mut Bytes) {
    for (letter, list) in LISTS {
        if let Some(names) = profile.names(*list) {
            out.put(*letter);
            put_values("=", names, "", out);
            out.put("|");
        }
    }
}

/// What a profile says: its labels and lists, what it says of whole bags, and its keys that aren't
/// checked.
impl Shown for Profile {
    fn put_in(&self, out: &mut Bytes) {
        out.show(&self.identifier(), "|");
        put_rules(self.labels(), out);
        put_lists(self, out);
        out.put(if self.allow_fetch() {
            "fetch|"
        } else {
            "no fetch|"
        });
        out.put(match self.serialization() {
            Serialization::Forbidden => "forbidden|",
            Serialization::Required => "required|",
            Serialization::Optional => "optional|",
        });
        put_values("?", self.unchecked(), "|", out);
    }
}
