//! A check of the folder `d`, in segments where their limits are given. `tests/refused_segments.sh`
//! refuses each of its growths.
use bag_report::{Depth, Options};
use bag_store::{FileTree, WriterOut};
use bag_text::Text;
use bag_walk::{Outcome, Request, run, run_segments};
use std::io;

const WHOLE: Options = Options {
    depth: Depth::Full,
    clashes: false,
};

/// Checks the folder, and says on the error output how that ended.
pub(crate) fn check(rt: &HostRuntime, limits: &str) -> io::Result<()> {
    let outcome = checked(rt, limits)?;
    eprintln!(rt; "{} {}", word_of(&outcome), outcome.count())
}

fn checked(rt: &HostRuntime, limits: &str) -> io::Result<Outcome> {
    let alloc = rt.alloc();
    let tree = FileTree::at(rt.clone()?, alloc, "d")?;
    let mut out = WriterOut::new(io::writer(rt));
    let (_tree, outcome) = match limits {
        "1,1" => run_segments(alloc, tree, None, WHOLE, &[1, 1], &mut out),
        "1,1,1,1" => run_segments(alloc, tree, None, WHOLE, &[1, 1, 1, 1], &mut out),
        "2,0,1,9" => run_segments(alloc, tree, None, WHOLE, &[2, 0, 1, 9], &mut out),
        "2,0,9,9" => run_segments(alloc, tree, None, WHOLE, &[2, 0, 9, 9], &mut out),
        "3,3,3,3" => run_segments(alloc, tree, None, WHOLE, &[3, 3, 3, 3], &mut out),
        _ => {
            let request = Request {
                options: WHOLE,
                after: None,
                limit: None,
                quiet: false,
                name: Text::from_str(alloc, "d")?,
            };
            run(alloc, tree, None, request, &mut out)
        }
    };
    Ok(outcome)
}

fn word_of(outcome: &Outcome) -> &str {
    match outcome {
        Outcome::Clean => "clean",
        Outcome::Faults(_) => "faults",
        Outcome::Stopped(_) => "stopped",
        Outcome::Rest(_) => "rest",
        Outcome::Unread(_, stop) => stop.cause.word(),
        Outcome::Unwritten(_) => "unwritten",
    }
}
