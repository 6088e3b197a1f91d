//! What manifests give for a file, in one piece of memory.
ghost use Rattle.std.specs.Prelude.{◌≡◌, ◌↔◌, ◌++◌, [], ◌∷◌, IsTrue, MatchOption, OnOk, take};
ghost use Rattle.std.specs.Iterator.{YieldsFirstBy, item_count};
ghost use Rattle.bag_stages.specs.Expected.{given};
ghost use Rattle.bag_stages.specs.Packed.{alg_ranked, packed_one, unpacked};

use bag_text::Alg;
use std::alloc::AllocError;
use std::marker::Model;

/// How many bytes a digest may have.
const MOST_BYTES: usize = 255;

/// What manifests give for a file, seen by contracts as the list of it. Each digest takes as much
/// memory as it has bytes, and two bytes more.
#[derive(Debug, Drop)]
pub struct Packed {
    /// Of each algorithm its rank, how many bytes its digest has, and these.
    bytes: Vec<u8>,
}

impl Model for Packed {
    ghost use Rattle.std.specs.Prelude.{List};
    ghost use Rattle.bag_stages.specs.Expected.{Expected};
    ghost use Rattle.bag_stages.specs.Packed.{unpacked};

    ghost Value = { List Expected };

    ghost view = { λ packed. unpacked packed.bytes.items };
}

impl Packed {
    ghost use Rattle.bag_stages.specs.Unpacking.{still_packed};

    /// What these bytes give.
    pub(crate) fn of(bytes: Vec<u8>) -> Packed
        ensures { result ≡ unpacked bytes.items }
    {
        Packed { bytes }
    }

    /// Whether no manifest names the file.
    pub fn is_empty(&self) -> bool
        ensures { IsTrue result ↔ (self.now ≡ []) }
    {
        split_packed(self.bytes.as_slice()).is_none()
    }

    /// The algorithm of each manifest and the bytes of its digest, in the order of the algorithms.
    pub fn iter(&self) -> Unpacking<'_>
        ensures { still_packed result ≡ self.now }
    {
        Unpacking {
            rest: self.bytes.as_slice(),
        }
    }
}

/// What is still packed of what manifests give for a file.
#[derive(Debug, Drop)]
pub struct Unpacking<'a> {
    rest: &'a [u8],
}

impl<'a> Iterator for Unpacking<'a> {
    type Item = (Alg, &'a [u8]);

    ghost use Rattle.bag_stages.specs.Unpacking.{still_packed};

    ghost next_gives = { YieldsFirstBy (λ item. given item.0 item.1.now) still_packed };

    ghost remaining = { item_count still_packed };

    fn next(&mut self) -> Option<(Alg, &'a [u8])> {
        let Some((alg, digest, rest)) = split_packed(self.rest) else {
            return None;
        };
        self.rest = rest;
        Some((alg, digest))
    }
}

/// Puts what a manifest gives after what others give: of more bytes than a digest may have, the
/// first.
pub(crate) fn push_packed(bytes: &mut Vec<u8>, alg: Alg, digest: &[u8]) -> Result<(), AllocError>
    ensures { OnOk result
        (bytes.new.items ≡ bytes.old.items ++ packed_one (given alg (take 255 digest.now))) }
{
    let count = digest.len().min(MOST_BYTES);
    bytes.push(alg.rank())?;
    bytes.push(count as u8)?;
    bytes.extend_from_slice(&digest[..count])?;
    Ok(())
}

/// The first of what manifests give, and what follows it.
fn split_packed(bytes: &[u8]) -> Option<(Alg, &[u8], &[u8])>
    ensures { MatchOption result (unpacked bytes.now ≡ [])
        (λ split. unpacked bytes.now ≡ given split.0 split.1.now ∷ unpacked split.2.now) }
{
    let [rank, count, rest @ ..] = bytes else {
        return None;
    };
    let count = usize::from(*count).min(rest.len());
    let (digest, after) = rest.split_at(count);
    Some((alg_ranked(*rank), digest, after))
}

/// The algorithm of a rank; MD5 of what is none.
fn alg_ranked(rank: u8) -> Alg
    ensures { result ≡ alg_ranked rank }
{
    match Alg::ALL.get(usize::from(rank.saturating_sub(1))) {
        Some(alg) => *alg,
        None => Alg::Md5,
    }
}
