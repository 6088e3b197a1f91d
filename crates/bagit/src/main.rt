//! `bagit`: makes and checks BagIt bags (RFC 8493).
//!
//! With `--validate` it checks the bags in directories, else it makes directories bags in place;
//! `--help` says more. With no words it checks a sample bag in memory.
#![tactic(auto)]

use bag_cli::{Bagit, Folders, Program, WriterOut};
use std::io;
use std::process::ExitCode;

fn main(rt: HostRuntime) -> ExitCode {
    let (folders, mut visits) = Folders::of(&rt);
    let mut out = WriterOut::new(io::writer(&rt));
    let mut err = WriterOut::new(rt.stderr());
    let status = Bagit::start(&rt, &folders, &mut visits, &mut out, &mut err);
    ExitCode::from(status)
}
