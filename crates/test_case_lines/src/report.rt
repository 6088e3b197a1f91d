//! What was compared, and how it differs.
use crate::answers::Answer;
use crate::bytes::Bytes;
use crate::lines::{Entry, Word};
use crate::texts::Texts;
use bag_text::common_front;
use memchr::memrchr;
use std::alloc::Global;
use std::str;

/// How many cases there were, how often an answer was compared, how often it differed, and what is
/// reported of that; and the mistake that keeps the files from being followed further.
#[derive(Drop)]
pub struct Report {
    pub text: Bytes,
    pub cases: u64,
    pub answers: u64,
    pub differ: u64,
}

/// Where an answer is wanted: the file, the entry with what is wanted of it, and the texts that
/// have a name there.
#[derive(Clone, Copy)]
pub struct Sight<'a> {
    pub file: &'a str,
    pub texts: &'a Texts,
    pub entry: Entry<'a>,
}

impl Report {
    /// Nothing was compared yet.
    pub fn new(alloc: Global) -> Report {
        Report {
            text: Bytes::new(alloc),
            cases: 0,
            answers: 0,
            differ: 0,
        }
    }

    /// Notes the mistake of bytes, where there is one.
    pub fn note(&mut self, bytes: &Bytes) {
        if let Some(mistake) = bytes.mistake {
            self.text.fail(mistake);
        }
    }

    /// Compares an answer of one side with the one that an entry wants; its status is 0 where none
    /// is given.
    pub fn see(&mut self, sight: &Sight<'_>, side: &str, found: &Answer) {
        let wanted = sight.texts.wanted(sight.entry.below, 0);
        self.compare(sight, side, &wanted, found);
    }

    /// Compares an answer of one side with another one.
    pub fn compare(&mut self, sight: &Sight<'_>, side: &str, wanted: &Answer, found: &Answer) {
        self.answers = self.answers.saturating_add(1);
        if !found.is_same(wanted) {
            self.note(&wanted.written);
            self.note(&wanted.told);
            self.note(&found.written);
            self.tell(sight, side, wanted, found);
        }
    }

    /// ExposesBytes how an answer differs, unless there is a mistake.
    fn tell(&mut self, sight: &Sight<'_>, side: &str, wanted: &Answer, found: &Answer) {
        self.differ = self.differ.saturating_add(1);
        if self.text.mistake.is_none() {
            let text = &mut self.text;
            text.show(&sight.file, ":");
            text.show(&sight.number(wanted, found), ": ");
            text.show(&side, "\n");
            put_differences(text, wanted, found);
        }
    }

    /// Adds the counts to bytes, in a line.
    pub fn put_counts(&self, bytes: &mut Bytes) {
        bytes.show(&self.cases, " cases, ");
        bytes.show(&self.answers, " answers, ");
        bytes.show(&self.differ, " differ\n");
    }
}

impl Sight<'_> {
    /// The number of the line that says what differs: the first whose bytes aren't found, or else
    /// the entry's.
    fn number(&self, wanted: &Answer, found: &Answer) -> usize {
        let written = front(&wanted.written.held, &found.written.held);
        let told = front(&wanted.told.held, &found.told.held);
        if !wanted.written.is_same(&found.written) {
            self.number_at(Word::Written, written)
        } else if !wanted.told.is_same(&found.told) {
            self.number_at(Word::Told, told)
        } else {
            self.number_at(Word::Status, 0)
        }
    }

    /// The number of the line that begins with a word and has the byte at a place.
    fn number_at(&self, word: Word, place: usize) -> usize {
        let mut number = self.entry.line.number;
        let mut bytes = Bytes::new(self.texts.alloc);
        for line in self.entry.below {
            if line.word == word && bytes.held.len() <= place {
                number = line.number;
                self.texts.add_line(line.rest, &mut bytes);
            }
        }
        number
    }
}

/// How many bytes of whole lines two texts begin with alike.
fn front(a: &[u8], b: &[u8]) -> usize {
    match memrchr(b'\n', common_front(a, b)) {
        Some(place) => place.saturating_add(1),
        None => 0,
    }
}

/// How many bytes of whole lines two texts end with alike, after the line ends that they begin
/// with.
fn back(a: &[u8], b: &[u8]) -> usize {
    let (mut fronts, mut end) = ((a, b), 0);
    for count in 0..a.len() {
        let (Some((x, front)), Some((y, other))) = (fronts.0.split_last(), fronts.1.split_last())
        else {
            break;
        };
        if *x != *y {
            break;
        }
        if *x == b'\n' {
            end = count;
        }
        fronts = (front, other);
    }
    end
}

/// Adds what differs in two answers.
fn put_differences(text: &mut Bytes, wanted: &Answer, found: &Answer) {
    put_difference(text, "|", &wanted.written.held, &found.written.held);
    put_difference(text, "!", &wanted.told.held, &found.told.held);
    if wanted.status != found.status {
        text.put("- ? ");
        text.show(&wanted.status, "\n+ ? ");
        text.show(&found.status, "\n");
    }
}

/// Adds the lines in which a wanted text and the one that was found differ.
fn put_difference(text: &mut Bytes, word: &str, wanted: &[u8], found: &[u8]) {
    let start = front(wanted, found);
    // the line end before, where there is one, is the same in both
    let before = start.saturating_sub(1);
    let end = back(
        wanted.get(before..).unwrap_or(&[]),
        found.get(before..).unwrap_or(&[]),
    );
    let wanted = wanted.get(start..wanted.len().saturating_sub(end));
    let found = found.get(start..found.len().saturating_sub(end));
    put_lines(text, "- ", word, wanted.unwrap_or(&[]));
    put_lines(text, "+ ", word, found.unwrap_or(&[]));
}

/// Adds lines with a mark and a word before each, and `\` after the last where it has no end.
fn put_lines(text: &mut Bytes, mark: &str, word: &str, bytes: &[u8]) {
    let lines = str::from_utf8(bytes).unwrap_or("(bytes that are no text)\n");
    for line in lines.split_inclusive('\n') {
        text.show(&mark, word);
        text.put(" ");
        text.put(line);
    }
    if !lines.is_empty() && !lines.ends_with('\n') {
        text.put("\\\n");
    }
}
