//! The command: its name and its arguments.
ghost use Rattle.std.specs.Prelude.{◌≡◌, IfOk, false};
ghost use Rattle.clap.specs.Words.{app_of, rule_of};
ghost use Rattle.bag_words.specs.Rules.{with_rules};
ghost use Rattle.bag_renew_cli.specs.Arguments as spec;

use crate::help::{ABOUT, AFTER};
use bag_words::argument::{flag, operands, option};
use clap::{Arg, ArgAction, Command};
use std::alloc::{AllocError, Global};

/// The heading of what is asked of a bag.
const REQUEST: &str = "What is renewed";

/// The command, with no rule from one argument to another.
pub(crate) fn command<'a>(alloc: Global) -> Result<Command<'a>, AllocError>
    ensures { IfOk result (λ c. app_of c ≡ spec.command) }
{
    let command = Command::new(alloc, "bagit-renew")
        .about(ABOUT)
        .after_help(AFTER)
        .no_binary_name(true);
    let command = with_manner_arguments(alloc, command)?;
    let command = with_list_arguments(alloc, command.next_help_heading(REQUEST))?;
    with_element_arguments(alloc, command)
}

/// How it is done, how much is said, and to which bags.
fn with_manner_arguments<'a>(alloc: Global, command: Command<'a>) -> Result<Command<'a>, AllocError>
    ensures { IfOk result (λ c.
        app_of c ≡ with_rules (app_of command.entry) spec.manner_arguments) }
{
    command
        .arg(flag(
            alloc,
            "dry-run",
            "Check, and say what would be put and removed; change nothing",
        ))?
        .arg(option(
            alloc,
            "print",
            "ALG",
            "Write the new manifest of this algorithm, of one DIRECTORY without a fault",
        ))?
        .arg(flag(alloc, "quiet", "Write no line of a renewed bag"))?
        .arg(operands(alloc, "directory", "DIRECTORY", "The bags to renew"))
}

/// The options that choose algorithms and the version.
fn with_list_arguments<'a>(alloc: Global, command: Command<'a>) -> Result<Command<'a>, AllocError>
    ensures { IfOk result (λ c. app_of c ≡ with_rules (app_of command.entry) spec.list_arguments) }
{
    command
        .arg(option(alloc, "add", "ALG,..", "Manifests of these algorithms too"))?
        .arg(option(
            alloc,
            "drop",
            "ALG,..",
            "Without manifests of these algorithms, after the payload was read and compared",
        ))?
        .arg(flag(
            alloc,
            "unchecked",
            "Drop manifests without reading the payload for it",
        ))?
        .arg(flag(alloc, "to-1.0", "A bag of version 0.97 becomes one of 1.0"))
}

/// The options of elements.
fn with_element_arguments<'a>(
    alloc: Global,
    command: Command<'a>,
) -> Result<Command<'a>, AllocError>
    ensures { IfOk result (λ c.
        app_of c ≡ with_rules (app_of command.entry) spec.element_arguments) }
{
    command
        .arg(several(
            alloc,
            "unset",
            "LABEL",
            "Without the elements with this label; as often as wanted",
        ))?
        .arg(several(
            alloc,
            "set",
            "LABEL=VALUE",
            "In place of every element with that label; as often as wanted",
        ))?
        .arg(several(
            alloc,
            "append",
            "LABEL=VALUE",
            "Add this element, unless it is there with this value; as often as wanted",
        ))
}

/// An option with a value, that may be given as often as wanted.
fn several<'a>(alloc: Global, name: &'a str, value_name: &'a str, help: &'a str) -> Arg<'a>
    ensures rule { rule_of result ≡ spec.several_rule name.entry.now }
    ensures global { result.global ≡ false }
{
    option(alloc, name, value_name, help).action(ArgAction::Append)
}
