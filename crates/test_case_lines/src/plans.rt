//! What words of the command line ask for.
use crate::bytes::Bytes;
use crate::shown::Shown;
use crate::words::words_of;
use bag_arguments::{Action, Plan, Usage, plan_of};
use bag_faults::Depth;
use bag_text::Alg;
use std::alloc::Global;

/// How bags are checked, with what is given alone. A part is counted from 0.
fn put_check(plan: &Plan, out: &mut Bytes) {
    out.put(match plan.options.depth {
        Depth::Declaration => "|declaration",
        Depth::Fast => "|fast",
        Depth::Complete => "|complete",
        Depth::Full => "|full",
    });
    if plan.options.clashes {
        out.put("|clashes");
    }
    if let Some(file) = &plan.profile {
        out.put("|profile ");
        out.put(file.as_str());
    }
    if let Some(fault) = &plan.after {
        out.put("|after ");
        fault.put_in(out);
    }
    if let Some(limit) = &plan.limit {
        out.put("|limit ");
        out.show(limit, "");
    }
    if let Some(part) = &plan.part {
        out.put("|part ");
        out.show(&part.number(), " of ");
        out.show(&part.of(), "");
    }
    out.put(if plan.quiet { "|quiet|" } else { "|" });
}

/// How bags are made: the algorithms, and each element.
fn put_making(plan: &Plan, out: &mut Bytes) {
    for alg in &Alg::ALL {
        if plan.algs.has(*alg) {
            out.put(" ");
            out.put(alg.name());
        }
    }
    for (label, value) in plan.info.as_slice() {
        out.put("|");
        out.show(label, "=");
        out.put(value.as_str());
    }
}

/// What words ask for.
fn put_plan(plan: &Plan, out: &mut Bytes) {
    out.put(match &plan.action {
        Action::Sample => "sample",
        Action::Help(_) => "help",
        Action::Check => "check",
        Action::CheckTars => "check tar",
        Action::Join => "join",
        Action::Make => "make",
    });
    for directory in plan.directories.as_slice() {
        out.put(" ");
        out.put(directory.as_str());
    }
    put_check(plan, out);
    put_making(plan, out);
}

/// What words ask for, or why they are refused: `refused` where the program takes no such words.
fn put_answer(answer: &Result<Plan, Usage>, out: &mut Bytes) {
    match answer {
        Ok(plan) => put_plan(plan, out),
        Err(Usage::Refused(_)) => out.put("refused"),
        Err(usage) => out.show(usage, ""),
    }
}

/// Adds what the words of a text ask for.
pub(crate) fn plan(alloc: Global, text: &str, out: &mut Bytes) {
    let words = words_of(alloc, text, out);
    put_answer(&plan_of(alloc, &words), out);
}
