//! The closing line of a part that is done, read back.
ghost use Rattle.std.specs.Prelude.{◌≡◌, ◌↔◌, IfOk, IsTrue, List, ℕ, MatchOption, Some, ⊤};
ghost use Rattle.std.specs.Prelude.{Bool, IsUtf8, Option, ◌+◌};
ghost use Rattle.std.specs.Option.{option_copied};
ghost use Rattle.bag_faults.specs.Part.{IsPart, Part as PartValue};
ghost use Rattle.bag_faults.specs.FaultLine.{field};
ghost use Rattle.bag_reports.specs.DoneLine.{AreNumbersOf, AreRead, IsDoneLineOf, IsProfileSum, IsSum};
ghost use Rattle.bag_reports.specs.DoneLine.{behind_bytes, behind_clashes, behind_comma, is_sum_digit};
ghost use Rattle.bag_reports.specs.DoneLine.{line_for};
ghost use Rattle.std.specs.List.{list_all};
ghost use Rattle.bag_reports.specs.declared.done_line.DoneLine.{DoneLine as DoneLineValue};

use crate::numbers::{count_after, number_after};
use bag_faults::Part;
use bag_text::Text;
use bag_tree::{Refused, WriterOut};
use bag_walk::{Listed, put_done_line};
use percent_encoding::{DecodeError, percent_decode};
use std::alloc::{AllocError, Global};

/// What the closing lines of all parts of a check say alike: what was checked, and how.
#[derive(Debug, Drop)]
pub struct Subject {
    /// What they call the bag.
    pub name: Text,
    /// Of what files the parts were cut.
    pub listed: Listed,
    /// Whether names that clash were looked for.
    pub clashes: bool,
    /// The SHA-256 of the profile's bytes, if there was a profile: 64 hex digits in lower case.
    pub profile: Option<Text>,
}

/// What the closing line of a part says that is done.
#[derive(Debug, Drop)]
pub struct DoneLine {
    /// What it says as the lines of the other parts do.
    pub subject: Subject,
    /// Which part it is of.
    pub part: Part,
    /// How many faults' lines stand before it.
    pub count: u64,
}

impl DoneLine {
    /// What a line says, with its end, if it is the closing line of a part that is done. Every text
    /// that a run over a part doesn't write so is refused. Fails only where memory runs out.
    pub fn from_line(alloc: Global, line: &str) -> Result<Option<DoneLine>, AllocError>
        ensures is { IfOk result (λ found. MatchOption found
            ((said : DoneLineValue) → ¬ (IsDoneLineOf line.now said)) (IsDoneLineOf line.now)) }
        ensures reads { (said : DoneLineValue) → IsDoneLineOf line.now said
            → IfOk result (λ found. found ≡ Some said) }
    {
        let Some(said) = read(alloc, line)? else {
            return Ok(None);
        };
        if is_done_line(alloc, &said.subject, said.part, said.count, line.as_bytes())? {
            Ok(Some(said))
        } else {
            Ok(None)
        }
    }
}

/// Whether these bytes are the closing line, with its end, of such a part that is done.
pub fn is_done_line(
    alloc: Global,
    subject: &Subject,
    part: Part,
    count: u64,
    bytes: &[u8],
) -> Result<bool, AllocError>
    ensures { IfOk result (λ same.
        IsTrue same ↔ (bytes.now ≡ line_for subject.now part count)) }
{
    let mut out = WriterOut::new(Vec::new(alloc));
    let name = subject.name.as_str();
    let profile = text_in(subject.profile.as_ref());
    let clashes = subject.clashes;
    match put_done_line(
        name,
        part,
        subject.listed,
        clashes,
        profile,
        count,
        &mut out,
    ) {
        Ok(()) => Ok(out.into_inner().as_slice() == bytes),
        Err(Refused) => Err(AllocError),
    }
}

/// The bytes of a text, if there is one.
fn text_in<'a>(text: Option<&'a Text>) -> Option<&'a str>
    ensures { option_copied result ≡ option_copied text.entry }
{
    match text {
        Some(text) => Some(text.as_str()),
        None => None,
    }
}

/// What the line says, if it is a closing line, or something else where it isn't.
fn read(alloc: Global, line: &str) -> Result<Option<DoneLine>, AllocError>
    ensures name { IfOk result (λ found. MatchOption found ⊤ (λ said. IsUtf8 said.subject.name)) }
    ensures sum { IfOk result (λ found. MatchOption found ⊤
        (λ said. IsProfileSum said.subject.profile)) }
    ensures reads { (said : DoneLineValue) → IsDoneLineOf line.now said
        → IfOk result (λ found. found ≡ Some said) }
{
    let Some((field, rest)) = line.split_once(' ') else {
        return Ok(None);
    };
    let Some(numbers) = numbers_of(rest) else {
        return Ok(None);
    };
    let Some(name) = text_of_field(alloc, field)? else {
        return Ok(None);
    };
    let profile = owned(alloc, numbers.profile)?;
    let subject = Subject {
        name,
        listed: numbers.listed,
        clashes: numbers.clashes,
        profile,
    };
    Ok(Some(DoneLine {
        subject,
        part: numbers.part,
        count: numbers.count,
    }))
}

/// A text of its own, if there is one.
fn owned(alloc: Global, text: Option<&str>) -> Result<Option<Text>, AllocError>
    ensures { IfOk result (λ owned. owned ≡ option_copied text.entry) }
{
    match text {
        Some(text) => Ok(Some(Text::from_str(alloc, text)?)),
        None => Ok(None),
    }
}

/// What stands behind the name.
#[derive(Clone, Copy)]
struct Numbers<'a> {
    part: Part,
    listed: Listed,
    clashes: bool,
    profile: Option<&'a str>,
    count: u64,
}

/// The numbers of a text that stands behind a name in a closing line, and what was asked for.
fn numbers_of<'a>(text: &'a str) -> Option<Numbers<'a>>
    ensures sum { MatchOption result ⊤ (λ numbers. IsProfileSum (option_copied numbers.profile)) }
    ensures reads { (said : DoneLineValue) → AreNumbersOf text.now said
        → MatchOption result ⊥ (λ numbers. AreRead numbers said) }
{
    let Some((place, rest)) = count_after(text, "part ", ' ') else {
        return None;
    };
    let Some((of, rest)) = count_after(rest, "of ", ' ') else {
        return None;
    };
    let Some((files, rest)) = count_after(rest, "done, files: ", ',') else {
        return None;
    };
    let Some((bytes, rest)) = number_after(rest, " bytes: ", ',') else {
        return None;
    };
    let (clashes, rest) = clashes_after(rest);
    let Some((profile, rest)) = profile_after(rest) else {
        return None;
    };
    let Some((count, _)) = count_after(rest, " faults: ", '\n') else {
        return None;
    };
    let Some(part) = part_at(place, of) else {
        return None;
    };
    let listed = Listed { files, bytes };
    Some(Numbers {
        part,
        listed,
        clashes,
        profile,
        count,
    })
}

/// Whether names that clash were looked for, and what stands behind that.
fn clashes_after<'a>(text: &'a str) -> (bool, &'a str)
    ensures { (clashes : Bool) (sum : Option (List ℕ)) (n : ℕ)
        → text.now ≡ behind_bytes clashes sum n
        → (result.0 ≡ clashes) × (result.1.now ≡ behind_clashes sum n) }
{
    match text.strip_prefix(" clashes,") {
        Some(rest) => (true, rest),
        None => (false, text),
    }
}

/// The SHA-256 of a profile, if there is one, and what stands behind that.
fn profile_after<'a>(text: &'a str) -> Option<(Option<&'a str>, &'a str)>
    ensures sum { MatchOption result ⊤ (λ found. IsProfileSum (option_copied found.0)) }
    ensures reads { (sum : Option (List ℕ)) (n : ℕ) → IsProfileSum sum
        → text.now ≡ behind_clashes sum n → MatchOption result ⊥ (λ found.
        (option_copied found.0 ≡ sum) × (found.1.now ≡ behind_comma n)) }
{
    let Some(after) = text.strip_prefix(" profile: ") else {
        return Some((None, text));
    };
    let Some((sum, rest)) = after.split_once(',') else {
        return None;
    };
    if is_sum(sum) {
        Some((Some(sum), rest))
    } else {
        None
    }
}

/// Whether a text is a SHA-256 in hex: 64 digits in lower case.
fn is_sum(text: &str) -> bool
    ensures { IsTrue result ↔ IsSum text.now }
{
    text.len() == 64 && has_sum_digits(text)
}

fn has_sum_digits(text: &str) -> bool
    ensures { result ≡ list_all is_sum_digit text.now }
{
    text.as_bytes().iter().all(|byte| byte.is_ascii_hexdigit() && !byte.is_ascii_uppercase())
}

/// The part with this number, counted from 1, where there are so many.
fn part_at(place: u64, of: u64) -> Option<Part>
    ensures { (part : PartValue) → IsPart part → place ≡ part.number + 1 → of ≡ part.of
        → result ≡ Some part }
{
    match place.checked_sub(1) {
        Some(number) => Part::new(number, of),
        None => None,
    }
}

/// The text of a field, or another text, or none, where it isn't written as a field.
fn text_of_field(alloc: Global, field_text: &str) -> Result<Option<Text>, AllocError>
    ensures text { IfOk result (λ found. MatchOption found ⊤ (λ text. IsUtf8 text)) }
    ensures reads { (text : List ℕ) → IsUtf8 text → field text ≡ field_text.now
        → IfOk result (λ found. found ≡ Some text) }
{
    if field_text == "-" {
        return Ok(Some(Text::empty(alloc)));
    }
    match percent_decode(field_text.as_bytes()).decode_utf8(alloc) {
        Ok(text) => Ok(Some(Text::from_string(text.into_owned(alloc)?))),
        Err(DecodeError::Utf8(_)) => Ok(None),
        Err(DecodeError::OutOfMemory) => Err(AllocError),
    }
}
