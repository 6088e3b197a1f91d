//! The faults of one stage.
use crate::answers::Answer;
use crate::bytes::Bytes;
use crate::mistake::Mistake;
use crate::report::{Report, Sight};
use bag_facts::Facts;
use bag_faults::{Depth, Options};
use bag_profile::Profile;
use bag_report::stage_faults;
use bag_tree::Tree;

/// The depths by their names.
const DEPTHS: &[(&str, Depth)] = &[
    ("declaration", Depth::Declaration),
    ("fast", Depth::Fast),
    ("complete", Depth::Complete),
    ("full", Depth::Full),
];

/// What a word asks for, as `complete` or `complete+clashes`.
fn options_of(word: &str) -> Option<Options> {
    let (name, clashes) = match word.strip_suffix("+clashes") {
        Some(name) => (name, true),
        None => (word, false),
    };
    for (known, depth) in DEPTHS {
        if *known == name {
            let depth = *depth;
            return Some(Options { depth, clashes });
        }
    }
    None
}

/// Adds the lines of the faults of a stage, beside a profile where one is given.
fn put_faults(facts: &Facts, profile: Option<&[u8]>, stage: u8, out: &mut Bytes) {
    let alloc = out.alloc;
    match profile {
        Some(bytes) => match Profile::read(alloc, bytes) {
            Ok(profile) => out.take(stage_faults(alloc, facts, Some(&profile), stage)),
            Err(_) => out.fail(Mistake::Name),
        },
        None => out.take(stage_faults(alloc, facts, None, stage)),
    }
}

/// Adds the lines of the faults of a stage of a tree at a depth.
fn put_stage<T: Tree>(
    tree: &mut T,
    profile: Option<&[u8]>,
    number: &str,
    depth: &str,
    out: &mut Bytes,
) {
    let (Some(options), Ok(stage)) = (options_of(depth), number.parse::<u8>()) else {
        out.fail(Mistake::Command);
        return;
    };
    match Facts::read(out.alloc, tree, options) {
        Ok(facts) => put_faults(&facts, profile, stage, out),
        Err(_) => out.fail(Mistake::Memory),
    }
}

/// Compares the faults of a stage of a tree, the same at each depth, beside a profile where one is
/// given.
pub fn see_stage<T: Tree>(
    sight: &Sight<'_>,
    tree: &mut T,
    profile: Option<&[u8]>,
    (number, depths): (&str, &str),
    report: &mut Report,
) {
    let alloc = sight.texts.alloc;
    for depth in depths.split(',') {
        let mut found = Bytes::new(alloc);
        put_stage(tree, profile, number, depth, &mut found);
        report.see(sight, depth, &Answer::of(alloc, found, 0));
    }
}
