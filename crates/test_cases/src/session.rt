//! A session over a file of cases: its entries are followed one after another.
use crate::running::run;
use std::alloc::{AllocError, Global};
use test_case_lines::{
    Bytes, Entry, Line, Mistake, Reader, Report, Sight, Texts, Word, below, name_text,
    path_and_bytes, read_row, words_of,
};
use test_world::{Tar, World};

/// What a file has said up to an entry.
#[derive(Drop)]
pub(crate) struct Session {
    pub(crate) texts: Texts,
    /// What stands in the folders of the case, and beside them.
    world: World,
    /// The last of these folders, with a `/` after its name.
    folder: Bytes,
    /// Whether what is put belongs to a bag: then it goes into each folder that begins with that.
    is_bag: bool,
    /// The last tar file of the case.
    tar: Option<Tar>,
    /// What reads the rows of the case.
    reader: Option<Reader>,
}

impl Session {
    pub(crate) fn new(alloc: Global) -> Result<Session, AllocError> {
        let world = World::new(alloc)?;
        Ok(Session {
            texts: Texts::new(alloc),
            world,
            folder: Bytes::new(alloc),
            is_bag: false,
            tar: None,
            reader: None,
        })
    }

    /// Follows an entry, before which these lines stand.
    pub(crate) fn follow<'a>(
        &mut self,
        rt: &HostRuntime,
        file: &str,
        lines: &'a [Line<'a>],
        entry: Entry<'a>,
        report: &mut Report,
    ) {
        match entry.line.word {
            Word::Run => {
                let texts = &self.texts;
                run(rt, &Sight { file, texts, entry }, &mut self.world, report);
            }
            Word::File | Word::Folder | Word::Link | Word::Opened => self.put(rt, entry, report),
            Word::Beside => put(rt, &self.texts, &[], entry, &mut self.world, report),
            Word::Member | Word::Over => {
                let (what, bytes) = path_and_bytes(&self.texts, &[], entry, report);
                let word = entry.line.word;
                self.change_tar(rt, word, &what.held, &bytes.held, report);
            }
            Word::Text => name_text(&mut self.texts, entry, report),
            _ if !entry.below.is_empty() => report.text.fail(Mistake::Unasked),
            Word::Row => {
                let texts = &self.texts;
                read_row(self.reader, &Sight { file, texts, entry }, report);
            }
            _ => self.begin(rt, lines, entry.line, report),
        }
    }

    /// Begins a case, a bag, a folder or rows.
    fn begin<'a>(
        &mut self,
        rt: &HostRuntime,
        lines: &'a [Line<'a>],
        line: Line<'a>,
        report: &mut Report,
    ) {
        match line.word {
            Word::Case => {
                report.cases = report.cases.saturating_add(1);
                self.end(rt, report);
            }
            Word::Bag => self.is_bag = true,
            Word::In => {
                let words = words_of(rt.alloc(), line.rest, &mut report.text);
                self.begin_folder(rt, lines, &words, report);
            }
            Word::Tar => {
                let words = words_of(rt.alloc(), line.rest, &mut report.text);
                let tar = Tar::of(rt.alloc(), &words, &self.world);
                self.keep_tar(rt, tar, report);
            }
            Word::Cut => {
                let words = words_of(rt.alloc(), line.rest, &mut report.text);
                self.cut_tar(rt, &words, report);
            }
            Word::Read => {
                let words = words_of(rt.alloc(), line.rest, &mut report.text);
                self.reader = Reader::of(&words);
                if self.reader.is_none() {
                    report.text.fail(Mistake::Command);
                }
            }
            _ => report.text.fail(Mistake::Entry),
        }
    }

    /// `in FOLDER BAG..`: begins a folder, in memory and on the disk, which holds what the named
    /// bags do.
    fn begin_folder<'a>(
        &mut self,
        rt: &HostRuntime,
        lines: &'a [Line<'a>],
        words: &[&str],
        report: &mut Report,
    ) {
        let Some((name, bags)) = words.split_first() else {
            report.text.fail(Mistake::Command);
            return;
        };
        self.is_bag = false;
        self.folder = Bytes::new(rt.alloc());
        self.folder.put(*name);
        self.folder.put("/");
        self.world.make_folder(rt, *name, report);
        for bag in bags {
            let folder = &self.folder.held;
            put_bag(
                rt,
                &self.texts,
                folder,
                lines,
                *bag,
                &mut self.world,
                report,
            );
        }
    }

    /// Ends the case before, and removes its folders and files.
    pub(crate) fn end(&mut self, rt: &HostRuntime, report: &mut Report) {
        self.is_bag = false;
        self.tar = None;
        self.reader = None;
        self.folder.held.clear();
        self.world.remove(rt, report);
    }

    /// Keeps a tar file, and puts it beside the folders.
    fn keep_tar(&mut self, rt: &HostRuntime, tar: Result<Tar, Mistake>, report: &mut Report) {
        match tar {
            Ok(tar) => {
                tar.put(rt, &mut self.world, report);
                self.tar = Some(tar);
            }
            Err(mistake) => report.text.fail(mistake),
        }
    }

    /// Changes the last tar file.
    fn change_tar(
        &mut self,
        rt: &HostRuntime,
        word: Word,
        what: &[u8],
        bytes: &[u8],
        report: &mut Report,
    ) {
        let Some(mut tar) = self.tar.take() else {
            report.text.fail(Mistake::Place);
            return;
        };
        match tar.change(rt.alloc(), word, what, bytes) {
            Ok(()) => self.keep_tar(rt, Ok(tar), report),
            Err(mistake) => report.text.fail(mistake),
        }
    }

    /// Cuts the last tar file off.
    fn cut_tar(&mut self, rt: &HostRuntime, words: &[&str], report: &mut Report) {
        let Some(mut tar) = self.tar.take() else {
            report.text.fail(Mistake::Place);
            return;
        };
        match tar.cut(words) {
            Ok(()) => self.keep_tar(rt, Ok(tar), report),
            Err(mistake) => report.text.fail(mistake),
        }
    }

    /// Puts something into the last folder; of a bag it is only seen whether it can be read.
    fn put(&mut self, rt: &HostRuntime, entry: Entry<'_>, report: &mut Report) {
        if self.is_bag {
            let _ = path_and_bytes(&self.texts, &[], entry, report);
        } else if self.folder.held.is_empty() {
            report.text.fail(Mistake::Place);
        } else {
            let folder = &self.folder.held;
            put(rt, &self.texts, folder, entry, &mut self.world, report);
        }
    }
}

/// Puts something below a folder, in memory and on the disk.
fn put(
    rt: &HostRuntime,
    texts: &Texts,
    folder: &[u8],
    entry: Entry<'_>,
    world: &mut World,
    report: &mut Report,
) {
    let (path, bytes) = path_and_bytes(texts, folder, entry, report);
    if report.text.mistake.is_none() {
        world.put(rt, entry.line.word, &path.held, bytes.held, report);
    }
}

/// Puts what stands in the bag of a name into a folder.
fn put_bag<'a>(
    rt: &HostRuntime,
    texts: &Texts,
    folder: &[u8],
    lines: &'a [Line<'a>],
    name: &str,
    world: &mut World,
    report: &mut Report,
) {
    let mut is_in = false;
    let mut is_there = false;
    for (place, line) in lines.iter().enumerate() {
        match line.word {
            Word::Bag => {
                is_in = line.rest == name;
                is_there |= is_in;
            }
            Word::Case | Word::In => is_in = false,
            Word::File | Word::Folder | Word::Link | Word::Opened if is_in => {
                let below = below(lines, place);
                let entry = Entry { line: *line, below };
                put(rt, texts, folder, entry, world, report);
            }
            _ => {}
        }
    }
    if !is_there {
        report.text.fail(Mistake::Name);
    }
}
