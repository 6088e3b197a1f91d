//! `bagit-renew`: renews BagIt bags in place (RFC 8493); `--help` says more.
#![tactic(auto)]

use bag_program::{Folders, Program};
use bag_renew_cli::BagitRenew;
use bag_tree::WriterOut;
use std::io;
use std::process::ExitCode;

fn main(rt: HostRuntime) -> ExitCode {
    let (folders, mut visits) = Folders::of(&rt);
    let mut out = WriterOut::new(io::writer(&rt));
    let mut err = WriterOut::new(rt.stderr());
    let status = BagitRenew::start(&rt, &folders, &mut visits, &mut out, &mut err);
    ExitCode::from(status)
}
