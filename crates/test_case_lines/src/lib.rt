//! Case files: worked examples as lines that a person can read, the answers that they want, and
//! what reads their rows.
//!
//! ```
//! let lines = lines_of(alloc, text)?;
//! let wanted = texts.wanted(below(&lines, 0), 0);
//! report.compare(&sight, "on the disk", &wanted, &found);
//! ```
//!
//! Who puts bytes together here gets no errors: `Bytes` keep the first mistake that was made on the
//! way, and a `Report` takes it from them. The form of the files, and what each reader writes,
//! stand in docs/CASES.md.
#![tactic(auto)]

mod answers;
mod bytes;
mod entries;
mod lines;
mod mistake;
mod plans;
mod profiles;
mod reader;
mod report;
mod shown;
mod spelled;
mod stages;
mod tag_files;
mod texts;
mod turn;
mod words;
mod written;

pub use answers::Answer;
pub use bytes::Bytes;
pub use entries::{name_text, path_and_bytes, read_row};
pub use lines::{Entry, Line, Turn, Word, below, lines_in_memory, lines_of, lines_on_disk};
pub use mistake::Mistake;
pub use reader::Reader;
pub use report::{Report, Sight};
pub use shown::Shown;
pub use stages::see_stage;
pub use texts::Texts;
pub use turn::{is_wanted, see_turn};
pub use words::words_of;
