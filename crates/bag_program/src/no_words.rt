//! Why a program wasn't given its words.
ghost use Rattle.std.specs.Prelude.{◌≡◌, ◌++◌};
ghost use Rattle.bag_program.specs.NoWords.{no_words_line, no_words_status};
ghost use Rattle.bag_program.specs.Saying.{Says};
ghost use Rattle.bag_program.specs.declared.no_words.NoWords.TheVariants.{Memory};

use crate::said::WORD_NOT_UTF8;
use crate::saying::say_on;
use bag_text::said::OUT_OF_MEMORY;
use bag_tree::Out;
use std::alloc::AllocError;

/// Why there are no words.
#[derive(Clone, Copy, Debug, PartialEq, Eq)]
pub enum NoWords {
    /// A word isn't UTF-8.
    NotUtf8,
    /// Memory ran out.
    Memory,
}

impl NoWords {
    /// Says it on `err`, after this name of the program, and gives the exit status. It takes no
    /// memory.
    pub fn tell<E: Out>(self, program: &str, err: &mut E) -> u8
        ensures status { result ≡ no_words_status self }
        ensures said { Says (E.state err.old) (E.state err.new) (program.now ++ no_words_line self) }
    {
        match self {
            NoWords::NotUtf8 => {
                say_on(err, &[program, WORD_NOT_UTF8, "\n"]);
                2
            }
            NoWords::Memory => {
                say_on(err, &[program, OUT_OF_MEMORY, "\n"]);
                3
            }
        }
    }
}

impl From<AllocError> for NoWords {
    ghost from_gives = { λ _ why. why ≡ Memory };

    fn from(_: AllocError) -> NoWords {
        NoWords::Memory
    }
}
