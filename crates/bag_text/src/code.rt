//! The codes of faults.
ghost use Rattle.std.specs.Prelude.{◌≡◌, ◌≢◌, ◌==◌, MatchOption, find, map};
ghost use Rattle.bag_text.specs.Code as spec;
ghost use Rattle.bag_text.specs.CodeWord as words;
ghost use Rattle.bag_text.specs.CodeList as list;
ghost use Rattle.bag_text.specs.declared.code.Code.{Code};

use std::fmt;

/// What a fault says. The first digit of its number is the stage of the check that finds it.
#[derive(Clone, Copy, PartialEq, Eq, PartialOrd, Ord)]
pub enum Code {
    /// There is no `bagit.txt` (RFC 8493, 2.1.1).
    NoDeclaration = 101,
    /// `bagit.txt` isn't UTF-8, or begins with a byte order mark (RFC 8493, 2.1.1).
    DeclarationNotUtf8 = 102,
    /// `bagit.txt` hasn't exactly two lines (RFC 8493, 2.1.1).
    DeclarationLineCount = 103,
    /// Line 1 of `bagit.txt` declares no version, or line 2 no encoding (RFC 8493, 2.1.1).
    DeclarationLine = 104,
    /// `bagit.txt` declares a version other than 1.0 and 0.97 (RFC 8493, 2.1.1).
    VersionUnsupported = 105,
    /// `bagit.txt` declares an encoding of tag files other than UTF-8 (RFC 8493, 2.1.1).
    EncodingUnsupported = 106,
    /// There is no folder `data` (RFC 8493, 2.1.2).
    NoPayloadFolder = 201,
    /// There is no payload manifest of any algorithm (RFC 8493, 2.1.3).
    NoPayloadManifest = 202,
    /// The algorithm in a manifest's name is none that can be computed (RFC 8493, 2.4).
    AlgorithmUnsupported = 203,
    /// `bag-info.txt`, `fetch.txt` or a manifest isn't UTF-8 (RFC 8493, 2.3).
    NotUtf8 = 204,
    /// A line of `bag-info.txt` has no label and value, and continues no element (RFC 8493, 2.2.2).
    InfoLine = 301,
    /// The first `Payload-Oxum` isn't two numbers with a dot between (RFC 8493, 2.2.2).
    OxumMalformed = 302,
    /// `Payload-Oxum` is given more than once (RFC 8493, 2.2.2).
    OxumAgain = 303,
    /// The payload has another number of bytes or of files than `Payload-Oxum` says (RFC 8493,
    /// 2.2.2).
    OxumDiffers = 304,
    /// There is no `Payload-Oxum` to compare the payload with (RFC 8493, 2.2.2).
    NoOxum = 305,
    /// A line of `fetch.txt` isn't a URL, a length and a path (RFC 8493, 2.2.3).
    FetchLine = 401,
    /// A path in `fetch.txt` has a `%` that begins no escape of LF, CR or `%` (RFC 8493, 2.2.3).
    FetchEscape = 402,
    /// A path in `fetch.txt` is no path inside the bag (RFC 8493, 2.2.3 and 5.1).
    FetchUnsafePath = 403,
    /// A path in `fetch.txt` isn't that of a payload file (RFC 8493, 2.2.3).
    FetchOutsidePayload = 404,
    /// A payload manifest doesn't name a path that is in `fetch.txt`; by the rules of 0.97 none
    /// does (RFC 8493, 2.2.3).
    FetchNotInManifest = 405,
    /// A line of a manifest isn't a digest in hex and a path (RFC 8493, 2.1.3).
    ManifestLine = 501,
    /// A digest in a manifest hasn't the length of its algorithm's (RFC 8493, 2.1.3 and 2.4).
    DigestLength = 502,
    /// A path in a manifest has a `%` that begins no escape of LF, CR or `%` (RFC 8493, 2.1.3).
    ManifestEscape = 503,
    /// A path in a manifest is no path inside the bag (RFC 8493, 2.1.3 and 5.1).
    ManifestUnsafePath = 504,
    /// A payload manifest names what isn't a payload file (RFC 8493, 2.1.3).
    ManifestOutsidePayload = 505,
    /// A tag manifest names a payload file (RFC 8493, 2.2.1).
    TagmanifestNamesPayload = 506,
    /// A tag manifest names a tag manifest (RFC 8493, 2.2.1).
    TagmanifestNamesTagmanifest = 507,
    /// A manifest names a path that an earlier line of it names (RFC 8493, 2.1.3).
    NamedAgain = 508,
    /// A tag manifest doesn't name a payload manifest of the bag (RFC 8493, 2.2.1).
    PayloadManifestNotListed = 509,
    /// A payload manifest names a file that isn't there (RFC 8493, 3).
    PayloadFileMissing = 601,
    /// A tag manifest names a file that isn't there (RFC 8493, 3).
    TagFileMissing = 602,
    /// A payload manifest doesn't name a payload file that is there; by the rules of 0.97 none
    /// does (RFC 8493, 3).
    PayloadFileNotListed = 603,
    /// The path differs from a lesser name of the payload, or that a payload manifest names, by
    /// Unicode normal form alone (RFC 8493, 6.1.1.3).
    NameClash = 604,
    /// A payload file hasn't the digest that a payload manifest gives it (RFC 8493, 3).
    PayloadSumDiffers = 701,
    /// A tag file hasn't the digest that a tag manifest gives it (RFC 8493, 3).
    TagSumDiffers = 702,
    /// No `BagIt-Profile-Identifier` of `bag-info.txt` is the profile's (BagIt Profiles
    /// specification).
    ProfileIdentifier = 801,
    /// `bag-info.txt` lacks a label that the profile requires (BagIt Profiles specification).
    LabelRequired = 802,
    /// `bag-info.txt` repeats a label that the profile has only once (BagIt Profiles
    /// specification).
    LabelRepeated = 803,
    /// A value in `bag-info.txt` is none that the profile allows for its label (BagIt Profiles
    /// specification).
    ValueNotAllowed = 804,
    /// There is no payload manifest of an algorithm that the profile requires (BagIt Profiles
    /// specification).
    ManifestRequired = 805,
    /// The profile doesn't allow the algorithm of a payload manifest (BagIt Profiles
    /// specification).
    ManifestNotAllowed = 806,
    /// There is no tag manifest of an algorithm that the profile requires (BagIt Profiles
    /// specification).
    TagmanifestRequired = 807,
    /// The profile doesn't allow the algorithm of a tag manifest (BagIt Profiles specification).
    TagmanifestNotAllowed = 808,
    /// There is no such tag file, which the profile requires (BagIt Profiles specification).
    TagFileRequired = 809,
    /// No pattern of the profile allows this tag file (BagIt Profiles specification).
    TagFileNotAllowed = 810,
    /// There is a `fetch.txt`, which the profile doesn't allow (BagIt Profiles specification).
    FetchNotAllowed = 811,
    /// The profile doesn't accept the declared version of BagIt (BagIt Profiles specification).
    VersionNotAccepted = 812,
    /// The profile requires a serialized bag, and this is a folder (BagIt Profiles specification).
    SerializationRequired = 813,
    /// The profile forbids a serialized bag, and this is an archive (BagIt Profiles specification).
    SerializationForbidden = 814,
}

/// Every code with its word, in the order of the numbers.
const CODES: [(Code, &str); 49] = [
    (Code::NoDeclaration, "no-declaration"),
    (Code::DeclarationNotUtf8, "declaration-not-utf8"),
    (Code::DeclarationLineCount, "declaration-line-count"),
    (Code::DeclarationLine, "declaration-line"),
    (Code::VersionUnsupported, "version-unsupported"),
    (Code::EncodingUnsupported, "encoding-unsupported"),
    (Code::NoPayloadFolder, "no-payload-folder"),
    (Code::NoPayloadManifest, "no-payload-manifest"),
    (Code::AlgorithmUnsupported, "algorithm-unsupported"),
    (Code::NotUtf8, "not-utf8"),
    (Code::InfoLine, "info-line"),
    (Code::OxumMalformed, "oxum-malformed"),
    (Code::OxumAgain, "oxum-again"),
    (Code::OxumDiffers, "oxum-differs"),
    (Code::NoOxum, "no-oxum"),
    (Code::FetchLine, "fetch-line"),
    (Code::FetchEscape, "fetch-escape"),
    (Code::FetchUnsafePath, "fetch-unsafe-path"),
    (Code::FetchOutsidePayload, "fetch-outside-payload"),
    (Code::FetchNotInManifest, "fetch-not-in-manifest"),
    (Code::ManifestLine, "manifest-line"),
    (Code::DigestLength, "digest-length"),
    (Code::ManifestEscape, "manifest-escape"),
    (Code::ManifestUnsafePath, "manifest-unsafe-path"),
    (Code::ManifestOutsidePayload, "manifest-outside-payload"),
    (Code::TagmanifestNamesPayload, "tagmanifest-names-payload"),
    (
        Code::TagmanifestNamesTagmanifest,
        "tagmanifest-names-tagmanifest",
    ),
    (Code::NamedAgain, "named-again"),
    (
        Code::PayloadManifestNotListed,
        "payload-manifest-not-listed",
    ),
    (Code::PayloadFileMissing, "payload-file-missing"),
    (Code::TagFileMissing, "tag-file-missing"),
    (Code::PayloadFileNotListed, "payload-file-not-listed"),
    (Code::NameClash, "name-clash"),
    (Code::PayloadSumDiffers, "payload-sum-differs"),
    (Code::TagSumDiffers, "tag-sum-differs"),
    (Code::ProfileIdentifier, "profile-identifier"),
    (Code::LabelRequired, "label-required"),
    (Code::LabelRepeated, "label-repeated"),
    (Code::ValueNotAllowed, "value-not-allowed"),
    (Code::ManifestRequired, "manifest-required"),
    (Code::ManifestNotAllowed, "manifest-not-allowed"),
    (Code::TagmanifestRequired, "tagmanifest-required"),
    (Code::TagmanifestNotAllowed, "tagmanifest-not-allowed"),
    (Code::TagFileRequired, "tag-file-required"),
    (Code::TagFileNotAllowed, "tag-file-not-allowed"),
    (Code::FetchNotAllowed, "fetch-not-allowed"),
    (Code::VersionNotAccepted, "version-not-accepted"),
    (Code::SerializationRequired, "serialization-required"),
    (Code::SerializationForbidden, "serialization-forbidden"),
];

impl Code {
    /// The three digits that a fault line begins with.
    pub fn number(self) -> u16
        ensures { result ≡ spec.number self }
    {
        self as u16
    }

    /// The word that stands after the number in a fault line: ASCII, in lower case, with hyphens.
    pub fn word(self) -> &'static str
        ensures { result.now ≡ words.word self }
    {
        word_in(&CODES, self)
    }

    /// The code of a number, or `None` where no code has it.
    pub fn from_number(number: u16) -> Option<Code>
        ensures { MatchOption result ((code : Code) → spec.number code ≢ number) (λ code.
            spec.number code ≡ number) }
    {
        let Some((code, _)) = first_numbered(&CODES, number) else {
            return None;
        };
        Some(code)
    }
}

impl fmt::Debug for Code {
    fn fmt<W: fmt::Write>(&self, f: &mut fmt::Formatter<W>) -> fmt::Result {
        f.write_str(self.word())
    }
}

/// The first of these codes that has the number, with its word.
fn first_numbered(codes: &[(Code, &'static str)], number: u16) -> Option<(Code, &'static str)>
    ensures { result ≡ find (λ pair. spec.number pair.0 == number) codes.now }
{
    codes
        .iter()
        .copied()
        .find(|(code, _)| code.number() == number)
}

/// The word beside a code in the table of every code.
fn word_in(codes: &[(Code, &'static str)], code: Code) -> &'static str
    requires { map (λ pair. (pair.0, pair.1.now)) codes.now ≡ list.words }
    ensures { result.now ≡ words.word code }
{
    let Some((_, word)) = first_numbered(codes, code.number()) else {
        unreachable!()
    };
    word
}
