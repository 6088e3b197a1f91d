//! The lists of names in a profile.

/// A list of names in a profile: of algorithms, of tag files, of patterns of tag files, of versions
/// (BagIt Profiles Specification, Implementation Details, the keys that are spelled alike).
#[derive(Clone, Copy, Debug, PartialEq, Eq)]
pub enum ListRule {
    ManifestsRequired,
    ManifestsAllowed,
    TagManifestsRequired,
    TagManifestsAllowed,
    TagFilesRequired,
    TagFilesAllowed,
    AcceptBagItVersion,
}
