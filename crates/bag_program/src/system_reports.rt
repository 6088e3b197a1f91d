//! Reports in files of the system's.
ghost use Rattle.std.specs.Prelude.{◌≡◌, ◌≤◌, IfOk, length, vec_len};
ghost use Rattle.bag_program.specs.SystemReports.{system_reports_state, unread_reports};

use crate::file_trouble::{FileTrouble, expect_file};
use bag_reports::{Reports, Told, Unreadable};
use bag_text::Text;
use bag_tree::Heard;
use std::alloc::{AllocError, Global};
use std::fs;
use std::io::{self, Read};
use std::rt::Files;

/// Reports in files of the system's, of which nothing is promised but what was read of them. Where
/// there is none that can be read, it isn't opened.
#[derive(Drop)]
pub struct SystemReports<R: Files> {
    rt: R,
    paths: Vec<Text>,
    /// The file that is open, of the report with this number.
    file: Option<R::File>,
    number: u64,
    /// Why the last call was refused.
    trouble: Option<FileTrouble>,
    has_failed: bool,
    /// What was read of it, and of those before it, which only clauses read.
    given: Heard,
    earlier: Told,
}

impl<R: Files + Drop> SystemReports<R> {
    /// The reports at these paths, which are copied. It fails only when out of memory.
    pub(crate) fn at(alloc: Global, rt: R, paths: &[Text]) -> Result<SystemReports<R>, AllocError>
        ensures { IfOk result (λ reports.
            system_reports_state reports ≡ unread_reports (length paths.now)) }
    {
        let mut own = Vec::new(alloc);
        for path in paths {
            own.push(path.copy(alloc)?)?;
        }
        Ok(SystemReports::over(rt, own))
    }

    /// The reports at these paths.
    fn over(rt: R, paths: Vec<Text>) -> SystemReports<R>
        ensures { system_reports_state result ≡ unread_reports (vec_len paths) }
    {
        let number = paths.len() as u64;
        SystemReports {
            rt,
            paths,
            file: None,
            number,
            trouble: None,
            has_failed: false,
            given: Heard::new(),
            earlier: Told::none(),
        }
    }

    /// Why the last call was refused.
    pub(crate) fn trouble(&self) -> Option<&FileTrouble> {
        self.trouble.as_ref()
    }
}

/// Opens the report with this number.
fn open_at<R: Files>(rt: &R, paths: &[Text], number: u64) -> Result<R::File, FileTrouble> {
    let Some(path) = paths.get(number as usize) else {
        return Err(FileTrouble::NoFile);
    };
    expect_file(rt, path.as_str())?;
    match fs::open(rt, path.as_str()) {
        Ok(file) => Ok(file),
        Err(error) => Err(FileTrouble::of(error)),
    }
}

/// Reads from a file, where one is open.
fn read_open<F: Read>(file: Option<&mut F>, buffer: &mut [u8]) -> Result<usize, FileTrouble>
    ensures { IfOk result (λ n. n ≤ length buffer.old) }
{
    let Some(file) = file else {
        return Err(FileTrouble::NoFile);
    };
    match file.read(buffer) {
        Ok(count) => Ok(count),
        Err(error) => Err(FileTrouble::of(error)),
    }
}

impl<R: Files + Drop> Reports for SystemReports<R> {
    ghost state = { system_reports_state };

    fn count(&self) -> u64 {
        self.paths.len() as u64
    }

    fn open(&mut self, number: u64) -> Result<(), Unreadable> {
        match open_at(&self.rt, &self.paths, number) {
            Ok(file) => {
                self.earlier.note_of(&self.given);
                self.given = Heard::new();
                self.number = number;
                self.file = Some(file);
                Ok(())
            }
            Err(trouble) => {
                self.trouble = Some(trouble);
                self.has_failed = true;
                Err(Unreadable)
            }
        }
    }

    fn read(&mut self, buffer: &mut [u8]) -> Result<usize, Unreadable> {
        match read_open(self.file.as_mut(), buffer) {
            Ok(count) => {
                self.given.note(&buffer[..count]);
                Ok(count)
            }
            Err(trouble) => {
                self.trouble = Some(trouble);
                self.has_failed = true;
                Err(Unreadable)
            }
        }
    }
}
