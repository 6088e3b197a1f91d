//! What is said where the words of a renewal's command line are refused.
ghost use Rattle.std.specs.Prelude.{◌≡◌};
ghost use Rattle.bag_renew_cli.specs.Plan.{usage_status};
ghost use Rattle.bag_program.specs.Saying.{Says};
ghost use Rattle.bag_renew_cli.specs.WordsRefusal.{usage_line};

use crate::RenewUsage;
use crate::said::{
    NOT_ALGORITHMS, NOT_AN_ALGORITHM, NOT_AN_ELEMENT, PRINT_SEVERAL, PRINT_WITH_OTHERS, PROGRAM,
};
use bag_program::{say_ended, say_on};
use bag_text::said::OUT_OF_MEMORY;
use bag_tree::Out;

/// Says on `err` why the words are refused, in a line or, of clap, some lines, and gives the exit
/// status. It takes no memory, and where `err` refuses, that is reported no further.
pub fn refuse_words<E: Out>(usage: &RenewUsage, err: &mut E) -> u8
    ensures status { result ≡ usage_status usage.now }
    ensures said { Says (E.state err.old) (E.state err.new) (usage_line usage.now) }
{
    say_usage(usage, err);
    usage.status()
}

/// Says on `err` why the words are refused.
fn say_usage<E: Out>(usage: &RenewUsage, err: &mut E)
    ensures { Says (E.state err.old) (E.state err.new) (usage_line usage.now) }
{
    match usage {
        RenewUsage::Refused(text) => say_ended(text.as_str(), err),
        RenewUsage::PrintWithOthers => say_on(err, &[PROGRAM, PRINT_WITH_OTHERS, "\n"]),
        RenewUsage::PrintSeveral => say_on(err, &[PROGRAM, PRINT_SEVERAL, "\n"]),
        RenewUsage::NotAnAlgorithm => say_on(err, &[PROGRAM, NOT_AN_ALGORITHM, "\n"]),
        RenewUsage::NotAnElement(option) => say_on(
            err,
            &[PROGRAM, "--", option.name(), NOT_AN_ELEMENT, "\n"],
        ),
        RenewUsage::NotAlgorithms(option) => say_on(
            err,
            &[PROGRAM, "--", option.name(), NOT_ALGORITHMS, "\n"],
        ),
        RenewUsage::Memory => say_on(err, &[PROGRAM, OUT_OF_MEMORY, "\n"]),
    }
}
