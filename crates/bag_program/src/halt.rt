//! What ends the program before all is done.
ghost use Rattle.std.specs.Prelude.{◌≡◌, ◌++◌};
ghost use Rattle.bag_program.specs.Halt.{halt_line, status_of};
ghost use Rattle.bag_program.specs.Saying.{Says};
ghost use Rattle.bag_program.specs.declared.halt.Halt.TheVariants.{Memory, Unwritten};

use crate::saying::say_on;
use bag_text::said::OUT_OF_MEMORY;
use bag_tree::{Out, Refused, said};
use std::alloc::AllocError;

/// The exit status where a read, a write or a growth was refused.
const REFUSED: u8 = 3;

/// What ends the program before all is done: nothing comes after it.
#[derive(Clone, Copy, Debug, PartialEq, Eq)]
pub enum Halt {
    /// The output refused.
    Unwritten,
    /// A growth was refused.
    Memory,
}

impl Halt {
    /// Says it on `err`, after this name of the program, and gives the exit status. It takes no
    /// memory.
    pub fn tell<E: Out>(self, program: &str, err: &mut E) -> u8
        ensures status { result ≡ 3 }
        ensures said { Says (E.state err.old) (E.state err.new) (program.now ++ halt_line self) }
    {
        match self {
            Halt::Unwritten => say_on(err, &[program, said::OUTPUT_REFUSED, "\n"]),
            Halt::Memory => say_on(err, &[program, OUT_OF_MEMORY, "\n"]),
        }
        REFUSED
    }
}

/// The status of what was done. What ended it is said on `err`, after this name of the program.
pub fn told_status<E: Out>(done: Result<u8, Halt>, program: &str, err: &mut E) -> u8
    ensures { result ≡ status_of done }
{
    match done {
        Ok(status) => status,
        Err(halt) => halt.tell(program, err),
    }
}

impl From<Refused> for Halt {
    ghost from_gives = { λ _ halt. halt ≡ Unwritten };

    fn from(_: Refused) -> Halt {
        Halt::Unwritten
    }
}

impl From<AllocError> for Halt {
    ghost from_gives = { λ _ halt. halt ≡ Memory };

    fn from(_: AllocError) -> Halt {
        Halt::Memory
    }
}
