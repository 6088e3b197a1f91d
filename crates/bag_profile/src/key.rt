//! The keys of a profile that are checked.
ghost use Rattle.std.specs.Prelude.{◌≡◌, Some};
ghost use Rattle.bag_profile.specs.Key as spec;

use std::fmt;

/// Where a profile can have a wrong shape (BagIt Profiles Specification, Implementation Details).
#[derive(Clone, Copy, Debug, PartialEq, Eq)]
pub enum Key {
    /// The whole text, which is to be an object.
    Whole,
    ProfileInfo,
    ProfileIdentifier,
    BagInfo,
    ManifestsRequired,
    ManifestsAllowed,
    TagManifestsRequired,
    TagManifestsAllowed,
    TagFilesRequired,
    TagFilesAllowed,
    AllowFetch,
    AcceptBagItVersion,
    Serialization,
}

/// The keys of the profile's object that are checked, in the order in which they are read.
const CHECKED: [Key; 11] = [
    Key::ProfileInfo,
    Key::BagInfo,
    Key::ManifestsRequired,
    Key::ManifestsAllowed,
    Key::TagManifestsRequired,
    Key::TagManifestsAllowed,
    Key::TagFilesRequired,
    Key::TagFilesAllowed,
    Key::AllowFetch,
    Key::AcceptBagItVersion,
    Key::Serialization,
];

impl Key {
    /// The key as it stands in a profile: ASCII, with its case; empty for the whole text.
    #[tactic(auto, unfolding(crate::specs::Key::key_name))]
    pub fn name(self) -> &'static str
        ensures { result.now ≡ spec.key_name self }
    {
        match self {
            Key::Whole => "",
            Key::ProfileInfo => "BagIt-Profile-Info",
            Key::ProfileIdentifier => "BagIt-Profile-Identifier",
            Key::BagInfo => "Bag-Info",
            Key::ManifestsRequired => "Manifests-Required",
            Key::ManifestsAllowed => "Manifests-Allowed",
            Key::TagManifestsRequired => "Tag-Manifests-Required",
            Key::TagManifestsAllowed => "Tag-Manifests-Allowed",
            Key::TagFilesRequired => "Tag-Files-Required",
            Key::TagFilesAllowed => "Tag-Files-Allowed",
            Key::AllowFetch => "Allow-Fetch.txt",
            Key::AcceptBagItVersion => "Accept-BagIt-Version",
            Key::Serialization => "Serialization",
        }
    }
}

impl fmt::Display for Key {
    ghost output = { λ key. Some (spec.key_name key) };

    fn fmt<W: fmt::Write>(&self, f: &mut fmt::Formatter<W>) -> fmt::Result {
        write!(f, "{}", self.name())
    }
}

/// Whether a key of the profile's object is one that is checked.
#[tactic(auto, unfolding(crate::specs::Key::is_checked))]
pub(crate) fn is_checked(name: &str) -> bool
    ensures { result ≡ spec.is_checked name.now }
{
    CHECKED.iter().any(|key| key.name() == name)
}
