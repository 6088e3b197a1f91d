//! What a program of folders is made of: the disks that it reaches, the visits to folders that it
//! notes, its words, what it does for one name after another, and its exit status.
//!
//! ```
//! let (folders, mut visits) = Folders::of(&rt);
//! let status = P::start(&rt, &folders, &mut visits, &mut out, &mut err);
//! ```
//!
//! `Disks` gives the disks that a program looks at, its tar files and reports, and the bytes of
//! files elsewhere, as profiles; it is implemented for every runtime of the system, of which nothing
//! is promised.
//!
//! `Program` is what a program does for words, and does it for those that it was started with.
//!
//! Each folder whose tree is given, and as what it is left, is noted. A file's bytes are the whole
//! file, up to a bound. The status over several names is the greatest of all.
#![tactic(auto)]

mod disks;
mod ended_line;
mod file_trouble;
mod folder_deed;
mod folders;
mod halt;
mod happening;
mod no_words;
mod one_by_one;
mod program;
mod read_fault;
pub mod said;
mod saying;
mod system_file;
mod system_reports;
mod system_tar;
mod text;
mod trouble;
mod visits;
mod words;

pub use disks::Disks;
pub use ended_line::{put_done, put_not_done, put_refused};
pub use file_trouble::{FileTrouble, say_file_trouble};
pub use folder_deed::{FolderDeed, InFolders};
pub use folders::Folders;
pub use halt::{Halt, told_status};
pub use no_words::NoWords;
pub use one_by_one::{Turn, in_turn};
pub use program::Program;
pub use read_fault::ReadFault;
pub use saying::{say_ended, say_on};
pub use system_reports::SystemReports;
pub use system_tar::SystemTar;
pub use text::write_text;
pub use trouble::{put_trouble, say_trouble};
pub use visits::Visits;
pub use words::Words;
