//! Where the parts of a report begin and end, and of what files they are cut.
ghost use Rattle.std.specs.Prelude.{◌≡◌, ◌<◌, ◌^◌, IfOk};
ghost use Rattle.bag_sources.specs.Parts as spec;

use bag_faults::Part;
use bag_text::Text;
use bag_tree::FileEntry;
use std::alloc::{AllocError, Global};

/// The part 1 of 1, which is the whole.
pub fn only_part() -> Part
    ensures { result ≡ spec.only_part }
{
    match Part::new(0, 1) {
        Some(part) => part,
        None => unreachable!(),
    }
}

/// What opening a file costs, in bytes: as many as one read takes.
const OPENING_BYTES: u128 = 65_536;

/// Where a part of a report begins or ends.
#[derive(Drop)]
pub enum Bound {
    /// Before all faults.
    Start,
    /// Before the faults of digests that the file of this path has, and after those of the files
    /// before it.
    File(Text),
    /// After all faults.
    End,
}

impl Bound {
    /// Whether a file stands before it.
    fn is_past_file(&self, path: &Text) -> bool
        ensures { result ≡ spec.is_file_before self.now path.now }
    {
        match self {
            Bound::Start => false,
            Bound::File(first) => *path < *first,
            Bound::End => true,
        }
    }

    /// Whether the faults of the stages before that of digests do.
    fn is_past_early(&self) -> bool
        ensures { result ≡ spec.is_early_before self.now }
    {
        match self {
            Bound::Start => false,
            Bound::File(_) | Bound::End => true,
        }
    }

    /// Whether those of the stages after it do.
    fn is_past_late(&self) -> bool
        ensures { result ≡ spec.is_late_before self.now }
    {
        match self {
            Bound::Start | Bound::File(_) => false,
            Bound::End => true,
        }
    }
}

/// Where a part begins and ends.
#[derive(Drop)]
pub struct Bounds {
    from: Bound,
    until: Bound,
}

impl Bounds {
    /// Those of a part, by the files of a bag in path order. Fails only where memory runs out.
    pub(crate) fn of(alloc: Global, files: &[FileEntry], part: Part) -> Result<Bounds, AllocError>
        ensures { IfOk result (λ bounds. bounds ≡ spec.bounds_of files.now part) }
    {
        let parts = part.of();
        let number = part.number();
        Ok(Bounds {
            from: begin_of(alloc, files, parts, number)?,
            until: begin_of(alloc, files, parts, number + 1)?,
        })
    }

    /// Those of the whole report.
    pub(crate) fn whole() -> Bounds
        ensures { result ≡ spec.whole }
    {
        Bounds {
            from: Bound::Start,
            until: Bound::End,
        }
    }

    /// Whether a file stands between them.
    pub(crate) fn has_file(&self, path: &Text) -> bool
        ensures { result ≡ spec.is_file_within self.now path.now }
    {
        !self.from.is_past_file(path) && self.until.is_past_file(path)
    }

    /// Whether the faults of the stages before that of digests stand between them.
    pub(crate) fn has_early(&self) -> bool
        ensures { result ≡ spec.has_early self.now }
    {
        !self.from.is_past_early() && self.until.is_past_early()
    }

    /// Whether those of the stages after it do.
    pub(crate) fn has_late(&self) -> bool
        ensures { result ≡ spec.has_late self.now }
    {
        !self.from.is_past_late() && self.until.is_past_late()
    }
}

/// Where the part with this number begins, of so many.
fn begin_of(
    alloc: Global,
    files: &[FileEntry],
    parts: u64,
    number: u64,
) -> Result<Bound, AllocError>
    requires { 0 < parts }
    ensures { IfOk result (λ bound. bound ≡ spec.begin_of files.now parts number) }
{
    if number == 0 {
        return Ok(Bound::Start);
    }
    if number >= parts {
        return Ok(Bound::End);
    }
    let share = weight_of(files) / u128::from(parts);
    first_after(alloc, files, share * u128::from(number))
}

/// The first file by whose middle this much has come.
fn first_after(alloc: Global, files: &[FileEntry], least: u128) -> Result<Bound, AllocError>
    ensures { IfOk result (λ bound. bound ≡ spec.first_after least 0 files.now) }
{
    let mut before: u128 = 0;
    for file in files {
        if before + weight(file) / 2 >= least {
            return Ok(Bound::File(file.path.copy(alloc)?));
        }
        before += weight(file);
    }
    Ok(Bound::End)
}

/// What files cost together.
fn weight_of(files: &[FileEntry]) -> u128
    ensures { result ≡ spec.weight_of files.now }
{
    let mut weight_of: u128 = 0;
    for file in files {
        weight_of += weight(file);
    }
    weight_of
}

/// What a file costs: its bytes, and as many as one read takes.
fn weight(file: &FileEntry) -> u128
    ensures weight { result ≡ spec.weight file.now }
    ensures small { result < 2 ^ 65 }
{
    u128::from(file.size) + OPENING_BYTES
}

/// Of what files the parts of a report were cut. Parts for which they differ aren't parts of one
/// report: the bag was changed in between. Where they are the same it may have been changed too.
#[derive(Clone, Copy, Debug)]
pub struct Listed {
    /// How many files the bag has.
    pub files: u64,
    /// How many bytes they have together. Sizes that each fit 64 bits need not fit them together.
    pub bytes: u128,
}

impl Listed {
    /// Those of listed files.
    pub(crate) fn of(files: &[FileEntry]) -> Listed
        ensures { result ≡ spec.listed_of files.now }
    {
        let mut bytes: u128 = 0;
        for file in files {
            bytes += u128::from(file.size);
        }
        Listed {
            files: files.len() as u64,
            bytes,
        }
    }
}
