//! What can be wrong with a case file.
use bag_text::said;
use std::alloc::AllocError;
use std::io;

/// What is wrong with an entry of a case file, or keeps it from being followed.
#[derive(Clone, Copy)]
pub enum Mistake {
    /// Memory ran out.
    Memory,
    /// The system refused a file or a folder of the case.
    System,
    /// No entry begins with the word.
    Entry,
    /// Lines are wanted of nothing, or of an entry that has no answer.
    Unasked,
    /// An answer has two statuses.
    Status,
    /// No answer is given for calls that are refused, or one that isn't theirs.
    Turns,
    /// A folder has a value, or a link has none.
    Value,
    /// An escape is none, or has no end.
    Escape,
    /// A quoted word has no end.
    Quote,
    /// Bytes that are to be a text aren't UTF-8.
    Text,
    /// A number is wanted.
    Number,
    /// No text, bag, folder or file has the name.
    Name,
    /// No command, reader or depth has the name, or it takes other words.
    Command,
    /// A row has no `=>`, or no reader.
    Row,
    /// There is no folder or tar file to put something into, or it can't stand there.
    Place,
    /// A file has no answer that is compared, or there is no file.
    Nothing,
}

impl Mistake {
    /// What is reported of it.
    pub fn text(self) -> &'static str {
        match self {
            Mistake::Memory => said::OUT_OF_MEMORY,
            Mistake::System => "the system refuses a file or a folder",
            Mistake::Entry => "no entry begins with this word",
            Mistake::Unasked => "lines that are wanted of nothing",
            Mistake::Status => "an answer has one status",
            Mistake::Turns => "before the last answer stand those of the refused calls",
            Mistake::Value => "a folder takes no value, and a link takes one in its line",
            Mistake::Escape => "no such escape",
            Mistake::Quote => "a quoted word has no end",
            Mistake::Text => "not UTF-8",
            Mistake::Number => "a number is wanted here",
            Mistake::Name => "nothing has this name",
            Mistake::Command => "no command is written so",
            Mistake::Row => "a row has a reader, and two sides with => between them",
            Mistake::Place => "this can't stand here",
            Mistake::Nothing => "nothing is compared",
        }
    }

    /// What keeps an entry from being followed where the system answers so.
    pub fn of(error: &io::Error) -> Mistake {
        match error.kind() {
            io::ErrorKind::OutOfMemory => Mistake::Memory,
            io::ErrorKind::InvalidData => Mistake::Text,
            _ => Mistake::System,
        }
    }
}

impl From<AllocError> for Mistake {
    fn from(_refused: AllocError) -> Mistake {
        Mistake::Memory
    }
}
