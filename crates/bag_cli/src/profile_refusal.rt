//! Why there is no profile.
ghost use Rattle.std.specs.Prelude.{◌≡◌};
ghost use Rattle.bag_profile.specs.declared.fault.ProfileFault.TheVariants.{Memory};
ghost use Rattle.bag_tree.specs.Pieces.{Writes};
ghost use Rattle.bag_cli.specs.ProfileRefusal as spec;
ghost use Rattle.bag_cli.specs.RefusalLine as refusals;
ghost use Rattle.bag_program.specs.Saying.{Says};
ghost use Rattle.bag_cli.specs.declared.profile_refusal.ProfileRefusal.TheVariants as why;

use crate::said::PROFILE;
use bag_arguments::said::PROGRAM;
use bag_faults::put_line;
use bag_profile::{ProfileFault, said};
use bag_program::said::PROFILE_UNREAD;
use bag_program::{ReadFault, say_on};
use bag_text::said::OUT_OF_MEMORY;
use bag_tree::{Out, Refused, put_pieces};
use std::error::Error;
use std::fmt;

/// Why there is no profile.
#[derive(Clone, Copy, Debug, PartialEq, Eq)]
pub enum ProfileRefusal {
    /// Its file can't be read.
    Unread,
    /// The file's bytes aren't a profile, or memory ran out.
    Refused(ProfileFault),
}

impl ProfileRefusal {
    /// The exit status: 2 where the file's bytes aren't a profile, and else 3.
    pub fn status(self) -> u8
        ensures { result ≡ spec.refusal_status self }
    {
        match self {
            ProfileRefusal::Unread | ProfileRefusal::Refused(ProfileFault::Memory) => 3,
            ProfileRefusal::Refused(
                ProfileFault::NotJson | ProfileFault::NoIdentifier | ProfileFault::WrongShape(_),
            ) => 2,
        }
    }
}

/// Says on `err` why there is no profile, in a line, and gives the exit status. It takes no memory.
pub fn refuse_profile<E: Out>(refusal: ProfileRefusal, err: &mut E) -> u8
    ensures status { result ≡ spec.refusal_status refusal }
    ensures said { Says (E.state err.old) (E.state err.new) (refusals.refusal_line refusal) }
{
    say_refusal(refusal, err);
    refusal.status()
}

/// Says on `err` why there is no profile.
fn say_refusal<E: Out>(refusal: ProfileRefusal, err: &mut E)
    ensures { Says (E.state err.old) (E.state err.new) (refusals.refusal_line refusal) }
{
    match refusal {
        ProfileRefusal::Unread => say_on(err, &[PROGRAM, PROFILE_UNREAD, "\n"]),
        ProfileRefusal::Refused(fault) => say_fault(fault, err),
    }
}

/// Says on `err` why a profile is refused.
fn say_fault<E: Out>(fault: ProfileFault, err: &mut E)
    ensures { Says (E.state err.old) (E.state err.new) (refusals.refusal_line (why.Refused fault)) }
{
    match fault {
        ProfileFault::NotJson => say_reason(said::NOT_JSON, err),
        ProfileFault::NoIdentifier => say_reason(said::NO_IDENTIFIER, err),
        ProfileFault::WrongShape(key) => {
            let _ = put_wrong_shape(key.name(), err);
        }
        ProfileFault::Memory => say_on(err, &[PROGRAM, OUT_OF_MEMORY, "\n"]),
    }
}

/// Says on `err` that a profile is refused for this reason.
fn say_reason<E: Out>(reason: &str, err: &mut E)
    ensures { Says (E.state err.old) (E.state err.new) (refusals.refused_profile reason.now) }
{
    say_on(err, &[PROGRAM, PROFILE, reason, "\n"]);
}

/// Hands the line about the key of a profile whose value has a wrong shape to an output.
fn put_wrong_shape<E: Out>(key: &str, err: &mut E) -> Result<(), Refused>
    ensures { Writes (E.state err.old) (E.state err.new)
        (refusals.wrong_shape_line key.now) result }
{
    put_pieces(err, &[PROGRAM, PROFILE, said::WRONG_SHAPE])?;
    put_line(key, &["\n"], err)
}

impl fmt::Display for ProfileRefusal {
    fn fmt<W: fmt::Write>(&self, f: &mut fmt::Formatter<W>) -> fmt::Result {
        match self {
            ProfileRefusal::Unread => f.write_str(PROFILE_UNREAD),
            ProfileRefusal::Refused(ProfileFault::Memory) => f.write_str(OUT_OF_MEMORY),
            ProfileRefusal::Refused(fault) => write!(f, "{}{fault}", PROFILE),
        }
    }
}

impl Error for ProfileRefusal {}

impl From<ReadFault> for ProfileRefusal {
    ghost from_gives = { λ fault refusal. refusal ≡ spec.unread_as fault };

    fn from(fault: ReadFault) -> ProfileRefusal {
        match fault {
            ReadFault::Unread => ProfileRefusal::Unread,
            ReadFault::Memory => ProfileRefusal::Refused(ProfileFault::Memory),
        }
    }
}

impl From<ProfileFault> for ProfileRefusal {
    ghost from_gives = { λ fault refusal. refusal ≡ why.Refused fault };

    fn from(fault: ProfileFault) -> ProfileRefusal {
        ProfileRefusal::Refused(fault)
    }
}
