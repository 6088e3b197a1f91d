//! The checksum algorithms.
ghost use Rattle.std.specs.Prelude.{◌≡◌};
ghost use Rattle.bag_text.specs.Alg as spec;
ghost use Rattle.bag_text.specs.CodeWord as words;

/// A checksum algorithm (RFC 8493, 2.4).
#[derive(Clone, Copy, Debug, PartialEq, Eq, PartialOrd, Ord)]
pub enum Alg {
    Md5,
    Sha1,
    Sha224,
    Sha256,
    Sha384,
    Sha512,
}

impl Alg {
    /// Every algorithm, in the order of the ranks.
    pub const ALL: [Alg; 6] = [
        Alg::Md5,
        Alg::Sha1,
        Alg::Sha224,
        Alg::Sha256,
        Alg::Sha384,
        Alg::Sha512,
    ];

    /// The name in the names of manifests: ASCII, in lower case, without a hyphen.
    pub fn name(self) -> &'static str
        ensures { result.now ≡ spec.name self }
    {
        match self {
            Alg::Md5 => "md5",
            Alg::Sha1 => "sha1",
            Alg::Sha224 => "sha224",
            Alg::Sha256 => "sha256",
            Alg::Sha384 => "sha384",
            Alg::Sha512 => "sha512",
        }
    }

    /// The name as its standard writes it, for people.
    pub fn title(self) -> &'static str
        ensures { result.now ≡ words.title self }
    {
        match self {
            Alg::Md5 => "MD5",
            Alg::Sha1 => "SHA-1",
            Alg::Sha224 => "SHA-224",
            Alg::Sha256 => "SHA-256",
            Alg::Sha384 => "SHA-384",
            Alg::Sha512 => "SHA-512",
        }
    }

    /// The algorithm of this name, or `None` where it is none of these.
    pub fn from_name(name: &str) -> Option<Alg>
        ensures { result ≡ spec.alg_named name.now }
    {
        Alg::ALL.iter().copied().find(|alg| alg.name() == name)
    }

    /// How many hex digits a digest has.
    pub fn hex_len(self) -> usize
        ensures { result ≡ spec.hex_len self }
    {
        match self {
            Alg::Md5 => 32,
            Alg::Sha1 => 40,
            Alg::Sha224 => 56,
            Alg::Sha256 => 64,
            Alg::Sha384 => 96,
            Alg::Sha512 => 128,
        }
    }

    /// The place in the order of algorithms, from 1.
    pub fn rank(self) -> u8
        ensures { result ≡ spec.rank self }
    {
        self as u8 + 1
    }
}
