//! Which call of a tree is refused.
ghost use Rattle.std.specs.Prelude.{◌≡◌};
ghost use Rattle.bag_memory.specs.Refusals.{after_call, before_calls, calls_left, is_kth, next_due};

use bag_tree::{Answer, TreeFault};

/// Which call is refused.
#[derive(Clone, Copy)]
pub(crate) enum Due {
    /// None.
    Never,
    /// The one after this number of calls.
    After(u64),
    /// None any more.
    Past,
}

/// Which call of a tree is refused, whether nothing is open since it was, and what the last call
/// was answered without asking the tree below.
#[derive(Clone, Copy)]
pub(crate) struct Calls {
    pub(crate) due: Due,
    pub(crate) shut: bool,
    pub(crate) own: Option<Answer>,
}

impl Due {
    /// Counts a call, and says whether it is the refused one.
    fn is_now(&mut self) -> bool
        ensures due { result ≡ is_kth self.old }
        ensures counted { self.new ≡ next_due self.old }
    {
        match self {
            Due::After(0) => {
                *self = Due::Past;
                true
            }
            Due::After(left) => {
                *left -= 1;
                false
            }
            Due::Never | Due::Past => false,
        }
    }
}

impl Calls {
    /// Before the first call, of which the one of this number is refused, from 1, or none for 0.
    pub(crate) fn before(k: u64) -> Calls
        ensures { result ≡ before_calls k }
    {
        Calls {
            due: if k == 0 {
                Due::Never
            } else {
                Due::After(k - 1)
            },
            shut: false,
            own: None,
        }
    }

    /// How many calls are left before the refused one.
    pub(crate) fn left(&self) -> Option<u64>
        ensures { result ≡ calls_left self.now.due }
    {
        match self.due {
            Due::After(left) => Some(left),
            Due::Never | Due::Past => None,
        }
    }

    /// Counts a call, and says whether it is the refused one.
    pub(crate) fn is_due(&mut self) -> bool
        ensures due { result ≡ is_kth self.old.due }
        ensures counted { self.new ≡ after_call self.old }
    {
        let due = self.due.is_now();
        self.own = if due {
            Some(Answer::Refused(TreeFault::Device))
        } else {
            None
        };
        due
    }
}
