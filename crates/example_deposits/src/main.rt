//! Checks the folder that its argument names.
#![tactic(auto)]

use bag_report::{Depth, Options};
use bag_store::{FileTree, WriterOut};
use bag_text::Text;
use bag_walk::{Request, run, status};
use std::alloc::{AllocError, Global};
use std::process::ExitCode;
use std::{env, io};

fn main(rt: HostRuntime) -> ExitCode {
    ExitCode::from(check_argument(&rt).unwrap_or(3))
}

fn check_argument(rt: &HostRuntime) -> io::Result<u8> {
    let words: Vec<String> = env::args(rt)?.collect(rt.alloc())?;
    let [_program, folder] = words.as_slice() else {
        eprintln!(rt; "usage: example_deposits FOLDER")?;
        return Ok(2);
    };
    Ok(check(rt, rt.alloc(), folder.as_str())?)
}

fn check(rt: &HostRuntime, alloc: Global, folder: &str) -> Result<u8, AllocError> {
    let request = Request {
        options: Options {
            depth: Depth::Full,
            clashes: false,
        },
        after: None,
        limit: None,
        quiet: false,
        name: Text::from_str(alloc, folder)?,
    };
    let tree = FileTree::at(rt.clone()?, alloc, folder)?;
    let mut out = WriterOut::new(io::writer(rt));
    let (_tree, outcome) = run(alloc, tree, None, request, &mut out);
    Ok(status(&outcome))
}
