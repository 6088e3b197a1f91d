//! The lines of a case file.
use crate::mistake::Mistake;
use std::alloc::{AllocError, Global};

/// What a line says, by its first word.
#[derive(Clone, Copy, PartialEq, Eq)]
pub enum Word {
    Case,
    Bag,
    In,
    File,
    Folder,
    Link,
    Opened,
    Beside,
    /// A tar file is begun.
    Tar,
    /// A member is added to it.
    Member,
    /// Bytes of it are written over.
    Over,
    /// It is cut off.
    Cut,
    Text,
    Read,
    /// A row that is read.
    Row,
    /// A command that is run.
    Run,
    /// A line of an output, of the entry above.
    Written,
    /// A line of its error output.
    Told,
    /// A line of its error output on the disk alone.
    ToldOnDisk,
    /// Its exit status.
    Status,
    /// The next of its answers.
    Then,
    Unknown,
}

/// The words that lines begin with.
const WORDS: [(&str, Word); 21] = [
    ("|", Word::Written),
    ("-", Word::Row),
    ("$", Word::Run),
    ("file", Word::File),
    ("case", Word::Case),
    ("in", Word::In),
    ("then", Word::Then),
    ("?", Word::Status),
    ("beside", Word::Beside),
    ("text", Word::Text),
    ("read", Word::Read),
    ("folder", Word::Folder),
    ("!", Word::Told),
    ("!disk", Word::ToldOnDisk),
    ("bag", Word::Bag),
    ("opened", Word::Opened),
    ("link", Word::Link),
    ("tar", Word::Tar),
    ("member", Word::Member),
    ("over", Word::Over),
    ("cut", Word::Cut),
];

/// A line that says something: its number, from 1, its first word, and what follows one space after
/// that.
#[derive(Clone, Copy)]
pub struct Line<'a> {
    pub number: usize,
    pub word: Word,
    pub rest: &'a str,
}

/// An entry: its line, and the lines below it that are wanted of it.
#[derive(Clone, Copy)]
pub struct Entry<'a> {
    pub line: Line<'a>,
    pub below: &'a [Line<'a>],
}

/// What is wanted of one of several runs: the lines up to a `then`, and those after it, where there
/// is one.
#[derive(Clone, Copy)]
pub struct Turn<'a> {
    pub lines: &'a [Line<'a>],
    pub rest: Option<&'a [Line<'a>]>,
}

impl Word {
    fn of(word: &str) -> Word {
        for (name, known) in &WORDS {
            if *name == word {
                return *known;
            }
        }
        Word::Unknown
    }

    /// Whether such a line is wanted of the entry above it.
    pub fn is_wanted(self) -> bool {
        matches!(
            self,
            Word::Written | Word::Told | Word::ToldOnDisk | Word::Status | Word::Then
        )
    }
}

fn line_of(place: usize, line: &str) -> Line<'_> {
    let (word, rest) = line.split_once(' ').unwrap_or((line, ""));
    Line {
        number: place.saturating_add(1),
        word: Word::of(word),
        rest,
    }
}

/// The lines of a text that say something: all but empty ones and those that begin with `#`.
pub fn lines_of(alloc: Global, text: &str) -> Result<Vec<Line<'_>>, AllocError> {
    let mut lines = Vec::new(alloc);
    for (place, line) in text.lines().enumerate() {
        match line.as_bytes() {
            [] | [b'#', ..] => {}
            _ => lines.push(line_of(place, line))?,
        }
    }
    Ok(lines)
}

/// The lines after a place that are wanted of the entry there.
pub fn below<'a>(lines: &'a [Line<'a>], place: usize) -> &'a [Line<'a>] {
    let rest = lines.get(place.saturating_add(1)..).unwrap_or(&[]);
    for (end, line) in rest.iter().enumerate() {
        if !line.word.is_wanted() {
            return rest.get(..end).unwrap_or(rest);
        }
    }
    rest
}

/// The lines that are wanted on the disk, where an entry is followed on the disk and in memory.
pub fn lines_on_disk<'a>(alloc: Global, lines: &[Line<'a>]) -> Result<Vec<Line<'a>>, AllocError> {
    let mut wanted = Vec::new(alloc);
    for line in lines {
        let word = match line.word {
            Word::ToldOnDisk => Word::Told,
            word => word,
        };
        wanted.push(Line {
            number: line.number,
            word,
            rest: line.rest,
        })?;
    }
    Ok(wanted)
}

/// Those that are wanted in memory: all but those of the disk alone.
pub fn lines_in_memory<'a>(alloc: Global, lines: &[Line<'a>]) -> Result<Vec<Line<'a>>, AllocError> {
    let mut wanted = Vec::new(alloc);
    for line in lines {
        if line.word != Word::ToldOnDisk {
            wanted.push(*line)?;
        }
    }
    Ok(wanted)
}

impl Entry<'_> {
    /// What is wrong with the answers that are wanted: one has two statuses, or something stands
    /// after a `then`.
    pub fn mistake(&self) -> Option<Mistake> {
        let mut has_status = false;
        for line in self.below {
            match line.word {
                Word::Status if has_status => return Some(Mistake::Status),
                Word::Then if !line.rest.is_empty() => return Some(Mistake::Place),
                Word::Status => has_status = true,
                Word::Then => has_status = false,
                _ => {}
            }
        }
        None
    }
}

impl<'a> Turn<'a> {
    /// The first turn of lines.
    pub fn of(lines: &'a [Line<'a>]) -> Turn<'a> {
        for (place, line) in lines.iter().enumerate() {
            if line.word == Word::Then {
                return Turn {
                    lines: lines.get(..place).unwrap_or(lines),
                    rest: lines.get(place.saturating_add(1)..),
                };
            }
        }
        Turn { lines, rest: None }
    }
}
