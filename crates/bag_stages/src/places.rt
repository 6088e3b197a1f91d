//! Where entries of manifests are looked for.
ghost use Rattle.std.specs.Prelude.{◌≡◌, All};

use bag_text::Alg;

/// Where to look first for what manifests give for a file: after what they gave for the file
/// before. In path order most files are found there, without a search. The places decide nothing:
/// whatever they are, the same entries are found.
#[derive(Debug, Drop)]
pub struct Places {
    next: [usize; Alg::ALL.len()],
    /// How many bytes what they gave for the file before takes.
    pub(crate) room: usize,
}

impl Places {
    /// At the front of all manifests.
    pub fn new() -> Places
        ensures next { All (λ place. place ≡ 0) result.next }
        ensures room { result.room ≡ 0 }
    {
        Places {
            next: [0; Alg::ALL.len()],
            room: 0,
        }
    }

    /// The place in the manifest of an algorithm.
    pub(crate) fn of(&mut self, alg: Alg) -> &mut usize {
        &mut self.next[usize::from(alg.rank()) - 1]
    }
}
