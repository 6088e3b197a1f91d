//! Commands, and what each side answers to them.
use crate::answers::{answer_in_memory, answer_to};
use crate::commands::{Verb, verb_of};
use crate::turns::{Calls, Turns};
use crate::{renewals, stages, trees, turns};
use bag_cli::{Plan, Usage, plan_of};
use std::str;
use test_case_lines::{
    Entry, Line, Mistake, Report, Sight, lines_in_memory, lines_on_disk, words_of,
};
use test_world::World;

/// Runs a command, and compares its answers.
pub(crate) fn run(rt: &HostRuntime, sight: &Sight<'_>, world: &mut World, report: &mut Report) {
    let mut text = sight.texts.bytes(sight.entry.line.rest);
    text.put(" ");
    report.note(&text);
    match verb_of(str::from_utf8(&text.held).unwrap_or("")) {
        Some((verb, words)) => {
            let words = words_of(sight.texts.alloc, words, &mut report.text);
            run_verb(rt, sight, verb, &words, world, report);
        }
        None => report.text.fail(Mistake::Command),
    }
}

fn run_verb(
    rt: &HostRuntime,
    sight: &Sight<'_>,
    verb: Verb,
    words: &[&str],
    world: &mut World,
    report: &mut Report,
) {
    if world.make_disks().is_err() {
        report.text.fail(Mistake::Memory);
    }
    match verb {
        Verb::RefuseTree | Verb::RefuseDisk(_) => see_planned(sight, verb, words, world, report),
        Verb::RefuseRenewal(fault) => renewals::see_refused(sight, fault, words, world, report),
        Verb::Stage => stages::see_stage(sight, words, world, report),
        Verb::RunOnDisk if world.has_opened() => report.text.fail(Mistake::Place),
        Verb::RunOnDisk => see_on_disk(rt, sight, verb, words, report),
        Verb::Run | Verb::RunWithRoom(_) | Verb::Renew | Verb::List | Verb::Write => {
            // on the disk no file holds something else than is listed
            if world.has_opened() {
                return see_in_memory(sight, verb, words, world, report);
            }
            let (alloc, below) = (sight.texts.alloc, sight.entry.below);
            match (lines_on_disk(alloc, below), lines_in_memory(alloc, below)) {
                (Ok(on_disk), Ok(in_memory)) => {
                    see_on_disk(rt, &with_lines(&*sight, &on_disk), verb, words, report);
                    see_in_memory(&with_lines(&*sight, &in_memory), verb, words, world, report);
                }
                _ => report.text.fail(Mistake::Memory),
            }
        }
    }
}

/// The sight of an entry with these lines below it.
fn with_lines<'a>(sight: &Sight<'a>, below: &'a [Line<'a>]) -> Sight<'a> {
    let (file, texts, line) = (sight.file, sight.texts, sight.entry.line);
    let entry = Entry { line, below };
    Sight { file, texts, entry }
}

/// Compares what is answered over the folders on the disk.
fn see_on_disk(
    rt: &HostRuntime,
    sight: &Sight<'_>,
    verb: Verb,
    words: &[&str],
    report: &mut Report,
) {
    let found = answer_to(sight.texts.alloc, rt, verb, words);
    report.see(sight, "on the disk", &found);
}

/// Compares what is answered over disks in memory, and then over trees where it can be.
fn see_in_memory(
    sight: &Sight<'_>,
    verb: Verb,
    words: &[&str],
    world: &mut World,
    report: &mut Report,
) {
    let found = answer_in_memory(sight.texts.alloc, world, None, verb, words);
    report.see(sight, "on a disk in memory", &found);
    match verb {
        Verb::Run => see_planned(sight, verb, words, world, report),
        Verb::Renew if !world.has_opened() => {
            renewals::renew_in_memory(sight.texts.alloc, words, world, report);
        }
        _ => {}
    }
}

/// Does in memory what words plan: over trees once, or with each call refused in turn. Words that
/// are refused have no plan.
fn see_planned(
    sight: &Sight<'_>,
    verb: Verb,
    words: &[&str],
    world: &mut World,
    report: &mut Report,
) {
    match plan_of(sight.texts.alloc, words) {
        Ok(plan) => see_plan(sight, verb, words, &plan, world, report),
        Err(usage) => see_refused(verb, &usage, report),
    }
}

/// Notes why words have no plan, unless they are run, which shows it.
fn see_refused(verb: Verb, usage: &Usage, report: &mut Report) {
    match (verb, usage) {
        (_, Usage::Memory) => report.text.fail(Mistake::Memory),
        (Verb::Run, _) => {}
        _ => report.text.fail(Mistake::Command),
    }
}

fn see_plan(
    sight: &Sight<'_>,
    verb: Verb,
    words: &[&str],
    plan: &Plan,
    world: &mut World,
    report: &mut Report,
) {
    if matches!(verb, Verb::Run) {
        return trees::see_in_trees(sight, plan, world, report);
    }
    let calls = match (verb, plan.directories.as_slice()) {
        (Verb::RefuseDisk(fault), [_]) => Calls::Disk(Verb::Run, words, fault),
        (_, [folder]) if trees::are_trees(plan, world) => Calls::Tree(plan, folder.as_str()),
        _ => {
            report.text.fail(Mistake::Command);
            return;
        }
    };
    let alloc = sight.texts.alloc;
    let turns = Turns {
        alloc,
        world,
        calls,
    };
    turns::see_in_turn(sight, &turns, report);
}
