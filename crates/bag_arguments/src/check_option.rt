//! The options that need `--validate`.
ghost use Rattle.std.specs.Prelude.{◌≡◌, Some};
ghost use Rattle.bag_arguments.specs.Given as spec;
ghost use Rattle.bag_arguments.specs.GivenRows as rows;

use std::fmt;

/// An option that needs `--validate`, in the order in which they are looked at.
#[derive(Clone, Copy, Debug, PartialEq, Eq)]
pub enum CheckOption {
    DeclarationOnly,
    Fast,
    CompletenessOnly,
    Profile,
    After,
    MaxFaults,
    Clashes,
    Part,
    Tar,
    Join,
}

/// All of them, in the order in which they are looked at.
pub(crate) const CHECK_OPTIONS: [CheckOption; 10] = [
    CheckOption::DeclarationOnly,
    CheckOption::Fast,
    CheckOption::CompletenessOnly,
    CheckOption::Profile,
    CheckOption::After,
    CheckOption::MaxFaults,
    CheckOption::Clashes,
    CheckOption::Part,
    CheckOption::Tar,
    CheckOption::Join,
];

impl CheckOption {
    /// The name of its argument, without the hyphens.
    pub fn id(self) -> &'static str
        ensures { result.now ≡ spec.check_id self }
    {
        match self {
            CheckOption::DeclarationOnly => "declaration-only",
            CheckOption::Fast => "fast",
            CheckOption::CompletenessOnly => "completeness-only",
            CheckOption::Profile => "profile",
            CheckOption::After => "after",
            CheckOption::MaxFaults => "max-faults",
            CheckOption::Clashes => "clashes",
            CheckOption::Part => "part",
            CheckOption::Tar => "tar",
            CheckOption::Join => "join",
        }
    }

    /// Whether it is another one than `--join`.
    pub(crate) fn is_other(self) -> bool
        ensures { result ≡ spec.is_other self }
    {
        !matches!(self, CheckOption::Join)
    }
}

impl fmt::Display for CheckOption {
    ghost output = { λ option. Some (rows.check_name option) };

    fn fmt<W: fmt::Write>(&self, f: &mut fmt::Formatter<W>) -> fmt::Result {
        write!(f, "--{}", self.id())
    }
}
