//! The labels of `bag-info.txt` that have an option.
ghost use Rattle.std.specs.Prelude.{◌≡◌};
ghost use Rattle.bag_arguments.specs.Labels as spec;

/// A label of `bag-info.txt` that has an option: those of RFC 8493, 2.2.2, and the one that names a
/// profile.
#[derive(Clone, Copy, Debug, PartialEq, Eq)]
pub enum Label {
    SourceOrganization,
    OrganizationAddress,
    ContactName,
    ContactPhone,
    ContactEmail,
    ExternalDescription,
    ExternalIdentifier,
    BagSize,
    BagGroupIdentifier,
    BagCount,
    InternalSenderIdentifier,
    InternalSenderDescription,
    BagItProfileIdentifier,
    BaggingDate,
}

/// All labels, in the order in which their elements are written.
pub(crate) const LABELS: [Label; 14] = [
    Label::SourceOrganization,
    Label::OrganizationAddress,
    Label::ContactName,
    Label::ContactPhone,
    Label::ContactEmail,
    Label::ExternalDescription,
    Label::ExternalIdentifier,
    Label::BagSize,
    Label::BagGroupIdentifier,
    Label::BagCount,
    Label::InternalSenderIdentifier,
    Label::InternalSenderDescription,
    Label::BagItProfileIdentifier,
    Label::BaggingDate,
];

impl Label {
    /// The label as it is written.
    pub fn name(self) -> &'static str
        ensures { result.now ≡ spec.label_name self }
    {
        match self {
            Label::SourceOrganization => "Source-Organization",
            Label::OrganizationAddress => "Organization-Address",
            Label::ContactName => "Contact-Name",
            Label::ContactPhone => "Contact-Phone",
            Label::ContactEmail => "Contact-Email",
            Label::ExternalDescription => "External-Description",
            Label::ExternalIdentifier => "External-Identifier",
            Label::BagSize => "Bag-Size",
            Label::BagGroupIdentifier => "Bag-Group-Identifier",
            Label::BagCount => "Bag-Count",
            Label::InternalSenderIdentifier => "Internal-Sender-Identifier",
            Label::InternalSenderDescription => "Internal-Sender-Description",
            Label::BagItProfileIdentifier => "BagIt-Profile-Identifier",
            Label::BaggingDate => "Bagging-Date",
        }
    }

    /// The name of its option, without the hyphens: the label in lower case.
    pub fn option(self) -> &'static str
        ensures { result.now ≡ spec.label_option self }
    {
        match self {
            Label::SourceOrganization => "source-organization",
            Label::OrganizationAddress => "organization-address",
            Label::ContactName => "contact-name",
            Label::ContactPhone => "contact-phone",
            Label::ContactEmail => "contact-email",
            Label::ExternalDescription => "external-description",
            Label::ExternalIdentifier => "external-identifier",
            Label::BagSize => "bag-size",
            Label::BagGroupIdentifier => "bag-group-identifier",
            Label::BagCount => "bag-count",
            Label::InternalSenderIdentifier => "internal-sender-identifier",
            Label::InternalSenderDescription => "internal-sender-description",
            Label::BagItProfileIdentifier => "bagit-profile-identifier",
            Label::BaggingDate => "bagging-date",
        }
    }

    /// What help says of its option.
    pub(crate) fn help(self) -> &'static str {
        match self {
            Label::SourceOrganization => "The organization that sends the bag",
            Label::OrganizationAddress => "Its mailing address",
            Label::ContactName => "Who to ask about the bag",
            Label::ContactPhone => "Their telephone number",
            Label::ContactEmail => "Their email address",
            Label::ExternalDescription => "What the bag holds, in a few words",
            Label::ExternalIdentifier => "The sender's identifier of the bag",
            Label::BagSize => "The size for people, as 42.6 GB",
            Label::BagGroupIdentifier => "The group that the bag belongs to",
            Label::BagCount => "Which of how many bags, as 1 of 2",
            Label::InternalSenderIdentifier => "Another identifier of the sender",
            Label::InternalSenderDescription => "Another description of the sender",
            Label::BagItProfileIdentifier => "The profile that the bag keeps to",
            Label::BaggingDate => "The day of making, as 2026-11-22",
        }
    }
}
