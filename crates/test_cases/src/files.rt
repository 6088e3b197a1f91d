//! Files of cases, which are followed one after another.
use crate::session::Session;
use std::alloc::Global;
use std::fs;
use test_case_lines::{Answer, Bytes, Entry, Line, Mistake, Report, Sight, Word, below, lines_of};

/// How far a file was followed. The line is 0 where none of it was.
#[derive(Clone, Copy)]
struct Place<'a> {
    file: &'a str,
    line: usize,
}

/// What is found where a file of cases runs another one.
trait Others {
    fn found(&self, rt: &HostRuntime, file: &str) -> Answer;
}

/// Other files are followed, and run none themselves.
struct Followed;

/// No other file is run.
struct Refused;

/// Follows files one after another, up to what can't be followed. Gives what differs, or that
/// nothing does, and the counts beside it; or why a file can't be followed; and the exit status.
pub(crate) fn run_files(rt: &HostRuntime, files: &[String]) -> Answer {
    let mut report = Report::new(rt.alloc());
    let mut at = Place { file: "", line: 0 };
    if files.is_empty() {
        report.text.fail(Mistake::Nothing);
    }
    for file in files {
        if report.text.mistake.is_none() {
            at.file = file.as_str();
            follow_file(rt, &Followed, at.file, &mut at.line, &mut report);
        }
    }
    answer_of(rt.alloc(), report, at)
}

/// What a report comes to, where files were followed so far.
fn answer_of(alloc: Global, mut report: Report, at: Place<'_>) -> Answer {
    let mut told = Bytes::new(alloc);
    let status = match report.text.mistake {
        None => {
            report.put_counts(&mut told);
            if report.differ == 0 {
                report.text.put("every answer is as wanted\n");
            }
            u8::from(report.differ != 0)
        }
        Some(mistake) => {
            told.show(&at.file, ":");
            told.show(&at.line, ": ");
            told.show(&mistake.text(), "\n");
            2
        }
    };
    let written = Bytes::of(alloc, report.text.held);
    Answer {
        written,
        told,
        status,
    }
}

/// Follows the entries of a file, of which one at least has an answer. Notes the line of each.
fn follow_file<O: Others>(
    rt: &HostRuntime,
    others: &O,
    file: &str,
    line: &mut usize,
    report: &mut Report,
) {
    *line = 0;
    let before = report.answers;
    match fs::read_to_string(rt, file) {
        Ok(text) => match lines_of(rt.alloc(), text.as_str()) {
            Ok(lines) => follow_lines(rt, others, file, &lines, line, report),
            Err(_) => report.text.fail(Mistake::Memory),
        },
        Err(error) => report.text.fail(Mistake::of(&error)),
    }
    if report.answers == before {
        report.text.fail(Mistake::Nothing);
    }
}

fn follow_lines<'a, O: Others>(
    rt: &HostRuntime,
    others: &O,
    file: &str,
    lines: &'a [Line<'a>],
    number: &mut usize,
    report: &mut Report,
) {
    let Ok(mut session) = Session::new(rt.alloc()) else {
        report.text.fail(Mistake::Memory);
        return;
    };
    for (place, line) in lines.iter().enumerate() {
        // the first line of a file is an entry, whatever it says
        let is_entry = place == 0 || !line.word.is_wanted();
        if is_entry && report.text.mistake.is_none() {
            *number = line.number;
            let below = below(lines, place);
            let entry = Entry { line: *line, below };
            let before = lines.get(..place).unwrap_or(&[]);
            follow_entry(rt, others, file, before, entry, &mut session, report);
        }
    }
    session.end(rt, report);
}

/// Follows an entry, before which these lines stand.
fn follow_entry<'a, O: Others>(
    rt: &HostRuntime,
    others: &O,
    file: &str,
    lines: &'a [Line<'a>],
    entry: Entry<'a>,
    session: &mut Session,
    report: &mut Report,
) {
    if let Some(mistake) = entry.mistake() {
        report.text.fail(mistake);
        return;
    }
    match other_of(entry) {
        Some(other) => {
            let texts = &session.texts;
            let sight = Sight { file, texts, entry };
            report.see(&sight, "this program", &others.found(rt, other));
        }
        None => session.follow(rt, file, lines, entry, report),
    }
}

/// The file that an entry runs, where it runs one.
fn other_of(entry: Entry<'_>) -> Option<&str> {
    match entry.line.word {
        Word::Run => entry.line.rest.strip_prefix("cases "),
        _ => None,
    }
}

impl Others for Followed {
    /// What this program prints for a file alone, and its status.
    fn found(&self, rt: &HostRuntime, file: &str) -> Answer {
        let mut report = Report::new(rt.alloc());
        let mut at = Place { file, line: 0 };
        follow_file(rt, &Refused, file, &mut at.line, &mut report);
        answer_of(rt.alloc(), report, at)
    }
}

impl Others for Refused {
    fn found(&self, rt: &HostRuntime, _file: &str) -> Answer {
        let mut written = Bytes::new(rt.alloc());
        written.fail(Mistake::Command);
        Answer::of(rt.alloc(), written, 2)
    }
}
