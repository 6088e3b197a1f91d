//! The command: its name and its arguments.
ghost use Rattle.std.specs.Prelude.{◌≡◌, IfOk, false, map};
ghost use Rattle.clap.specs.Words.{app_of, rule_of};
ghost use Rattle.bag_text.specs.Alg.{name as name_of};
ghost use Rattle.bag_words.specs.Rules.{flag_rule, option_rule, with_rules};
ghost use Rattle.bag_arguments.specs.Arguments as spec;
ghost use Rattle.bag_arguments.specs.Given.{check_id};
ghost use Rattle.bag_arguments.specs.Labels.{label_option};

use crate::help::{ABOUT, AFTER};
use crate::label::LABELS;
use crate::{CheckOption, Label};
use bag_text::Alg;
use bag_words::argument::{flag, operands, option};
use clap::{Arg, Command, value_parser};
use std::alloc::{AllocError, Global};

/// The headings of the options.
const CHECKING: &str = "Checking, with --validate, and of the first three one at most";

const MAKING: &str = "Making, by these algorithms, or SHA-256 and SHA-512 where none is given";

const ELEMENTS: &str = "Making, with these elements of bag-info.txt";

/// The command, with no rule from one argument to another.
pub(crate) fn command<'a>(alloc: Global) -> Result<Command<'a>, AllocError>
    ensures { IfOk result (λ c. app_of c ≡ spec.command) }
{
    let command = Command::new(alloc, "bagit")
        .about(ABOUT)
        .after_help(AFTER)
        .no_binary_name(true);
    let command = with_main_arguments(alloc, command)?;
    let command = with_check_arguments(alloc, command.next_help_heading(CHECKING))?;
    let command = with_word_arguments(alloc, command)?;
    let command = with_alg_arguments(alloc, command.next_help_heading(MAKING))?;
    with_label_arguments(alloc, command.next_help_heading(ELEMENTS), &LABELS)
}

/// What is done, how much is said, and to which directories.
fn with_main_arguments<'a>(alloc: Global, command: Command<'a>) -> Result<Command<'a>, AllocError>
    ensures { IfOk result (λ c.
        app_of c ≡ with_rules (app_of command.entry) spec.main_arguments) }
{
    command
        .arg(flag(alloc, "validate", "Check bags, and make none"))?
        .arg(flag(
            alloc,
            "quiet",
            "Write no closing line of a good bag, no made line and no unchecked line",
        ))?
        .arg(operands(
            alloc,
            "directory",
            "DIRECTORY",
            "The directories to check, or to make into bags",
        ))
}

/// The options that need `--validate`, but for those that say what the words are.
fn with_check_arguments<'a>(alloc: Global, command: Command<'a>) -> Result<Command<'a>, AllocError>
    ensures { IfOk result (λ c.
        app_of c ≡ with_rules (app_of command.entry) spec.check_arguments) }
{
    command
        .arg(check_flag(
            alloc,
            CheckOption::Fast,
            "Compare the payload's size and number of files with Payload-Oxum",
        ))?
        .arg(check_flag(
            alloc,
            CheckOption::CompletenessOnly,
            "Check all but the checksums",
        ))?
        .arg(check_flag(alloc, CheckOption::DeclarationOnly, "Check bagit.txt alone"))?
        .arg(check_value(
            alloc,
            CheckOption::Profile,
            "FILE",
            "Check against this BagIt profile, a JSON file, too",
        ))?
        .arg(check_value(
            alloc,
            CheckOption::After,
            "LINE",
            "Write only the faults after this line, of one DIRECTORY",
        ))?
        .arg(check_number(
            alloc,
            CheckOption::MaxFaults,
            "Stop each report after N faults, 1 or more",
        ))?
        .arg(check_flag(
            alloc,
            CheckOption::Clashes,
            "Names that differ only in their normal form are faults",
        ))
}

/// The options that need `--validate` and say of what a DIRECTORY is the name, or of which part of
/// it the report is.
fn with_word_arguments<'a>(alloc: Global, command: Command<'a>) -> Result<Command<'a>, AllocError>
    ensures { IfOk result (λ c.
        app_of c ≡ with_rules (app_of command.entry) spec.word_arguments) }
{
    command
        .arg(check_value(
            alloc,
            CheckOption::Part,
            "PART",
            "Check part K of N alone, given as K/N; all parts together are the report",
        ))?
        .arg(check_flag(
            alloc,
            CheckOption::Tar,
            "Each DIRECTORY is a tar file, of which the bag is checked where it lies",
        ))?
        .arg(check_flag(
            alloc,
            CheckOption::Join,
            "Each DIRECTORY is the report of a part; all are joined into one report",
        ))
}

/// An option without a value that needs `--validate`.
fn check_flag<'a>(alloc: Global, asked: CheckOption, help: &'a str) -> Arg<'a>
    ensures rule { rule_of result ≡ flag_rule (check_id asked) }
    ensures global { result.global ≡ false }
{
    let name: &'a str = asked.id();
    flag(alloc, name, help)
}

/// One with a value.
fn check_value<'a>(alloc: Global, asked: CheckOption, value_name: &'a str, help: &'a str) -> Arg<'a>
    ensures rule { rule_of result ≡ option_rule (check_id asked) }
    ensures global { result.global ≡ false }
{
    let name: &'a str = asked.id();
    option(alloc, name, value_name, help)
}

/// One with a number of 1 or more.
fn check_number<'a>(alloc: Global, asked: CheckOption, help: &'a str) -> Arg<'a>
    ensures rule { rule_of result ≡ spec.number_rule (check_id asked) }
    ensures global { result.global ≡ false }
{
    check_value(alloc, asked, "N", help).value_parser(value_parser!(u64).range(1..))
}

/// The options that choose algorithms.
fn with_alg_arguments<'a>(alloc: Global, command: Command<'a>) -> Result<Command<'a>, AllocError>
    ensures { IfOk result (λ c.
        app_of c ≡ with_rules (app_of command.entry) spec.alg_arguments) }
{
    let mut extended = command;
    for alg in Alg::ALL {
        extended = extended.arg(alg_argument(alloc, alg))?;
    }
    Ok(extended)
}

/// The option of an algorithm.
fn alg_argument<'a>(alloc: Global, alg: Alg) -> Arg<'a>
    ensures rule { rule_of result ≡ flag_rule (name_of alg) }
    ensures global { result.global ≡ false }
{
    let name: &'a str = alg.name();
    let help: &'a str = alg.title();
    flag(alloc, name, help)
}

/// The options of labels.
fn with_label_arguments<'a>(
    alloc: Global,
    command: Command<'a>,
    labels: &[Label],
) -> Result<Command<'a>, AllocError>
    ensures { IfOk result (λ c. app_of c ≡ with_rules (app_of command.entry)
        (map (λ label. option_rule (label_option label)) labels.now)) }
{
    let mut extended = command;
    for label in labels {
        extended = extended.arg(label_argument(alloc, *label))?;
    }
    Ok(extended)
}

/// The option of a label.
fn label_argument<'a>(alloc: Global, label: Label) -> Arg<'a>
    ensures rule { rule_of result ≡ option_rule (label_option label) }
    ensures global { result.global ≡ false }
{
    let name: &'a str = label.option();
    let help: &'a str = label.help();
    option(alloc, name, "TEXT", help)
}
