//! What is said where the words of a command line are refused.
ghost use Rattle.std.specs.Prelude.{◌≡◌};
ghost use Rattle.bag_arguments.specs.Plan.{usage_status};
ghost use Rattle.bag_program.specs.Saying.{Says};
ghost use Rattle.bag_cli.specs.WordsRefusal.{usage_line};

use bag_arguments::{Usage, said};
use bag_program::{say_ended, say_on};
use bag_text::said::OUT_OF_MEMORY;
use bag_tree::Out;

/// Says on `err` why the words are refused, in a line or, of clap, some lines, and gives the exit
/// status. It takes no memory.
pub fn refuse_words<E: Out>(usage: &Usage, err: &mut E) -> u8
    ensures status { result ≡ usage_status usage.now }
    ensures said { Says (E.state err.old) (E.state err.new) (usage_line usage.now) }
{
    say_usage(usage, err);
    usage.status()
}

/// Says on `err` why the words are refused.
fn say_usage<E: Out>(usage: &Usage, err: &mut E)
    ensures { Says (E.state err.old) (E.state err.new) (usage_line usage.now) }
{
    match usage {
        Usage::Refused(text) => say_ended(text.as_str(), err),
        Usage::NeedsValidate(option) => say_on(
            err,
            &[said::PROGRAM, "--", option.id(), said::NEEDS_VALIDATE, "\n"],
        ),
        Usage::JoinWithOther => say_on(err, &[said::PROGRAM, said::JOIN_WITH_OTHER, "\n"]),
        Usage::TwoDepths => say_on(err, &[said::PROGRAM, said::TWO_DEPTHS, "\n"]),
        Usage::AfterSeveral => say_on(err, &[said::PROGRAM, said::AFTER_SEVERAL, "\n"]),
        Usage::AfterNotALine => say_on(err, &[said::PROGRAM, said::AFTER_NOT_A_LINE, "\n"]),
        Usage::PartOfDepth => say_on(err, &[said::PROGRAM, said::PART_OF_DEPTH, "\n"]),
        Usage::NotAPart => say_on(err, &[said::PROGRAM, said::NOT_A_PART, "\n"]),
        Usage::Memory => say_on(err, &[said::PROGRAM, OUT_OF_MEMORY, "\n"]),
    }
}
