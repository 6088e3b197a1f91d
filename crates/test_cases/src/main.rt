//! The worked rows: each argument is a file of cases, in the form that docs/CASES.md says. What
//! differs is printed, or that nothing does; how much was compared, on the error output. With the
//! words `segments LIMITS` it checks a folder instead.
#![tactic(auto)]

mod answers;
mod commands;
mod files;
mod renewals;
mod running;
mod segments;
mod session;
mod stages;
mod trees;
mod turns;

use crate::files::run_files;
use std::env;
use std::io::{self, Write};
use std::process::ExitCode;
use test_case_lines::Answer;

/// Prints what differs, also on the error output, of which the gate shows the end; or why a file
/// can't be followed.
fn print(rt: &HostRuntime, answer: &Answer) -> io::Result<()> {
    rt.stdout().write_all(&answer.written.held)?;
    if answer.status == 1 {
        rt.stderr().write_all(&answer.written.held)?;
    }
    rt.stderr().write_all(&answer.told.held)
}

/// The limits of segments, where the words ask for them.
fn segments_of(words: &[String]) -> Option<&str> {
    match words.first() {
        Some(word) if word.as_str() == "segments" => Some(words.get(1)?.as_str()),
        _ => None,
    }
}

fn main(rt: HostRuntime) -> io::Result<ExitCode> {
    let words: Vec<String> = env::args(&rt)?.skip(1).collect(rt.alloc())?;
    if let Some(limits) = segments_of(&words) {
        segments::check(&rt, limits)?;
        return Ok(ExitCode::SUCCESS);
    }
    let answer = run_files(&rt, &words);
    print(&rt, &answer)?;
    Ok(ExitCode::from(answer.status))
}
