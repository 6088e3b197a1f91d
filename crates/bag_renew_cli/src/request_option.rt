//! The options of which a refusal speaks.
ghost use Rattle.std.specs.Prelude.{◌≡◌};
ghost use Rattle.bag_renew_cli.specs.Options as spec;

/// An option that takes a list of algorithms.
#[derive(Clone, Copy, Debug, PartialEq, Eq)]
pub enum ListOption {
    Add,
    Drop,
}

impl ListOption {
    /// Its name, without the hyphens.
    pub fn name(self) -> &'static str
        ensures { result.now ≡ spec.list_name self }
    {
        match self {
            ListOption::Add => "add",
            ListOption::Drop => "drop",
        }
    }
}

/// An option that takes an element of `bag-info.txt`.
#[derive(Clone, Copy, Debug, PartialEq, Eq)]
pub enum ElementOption {
    Set,
    Append,
}

impl ElementOption {
    /// Its name, without the hyphens.
    pub fn name(self) -> &'static str
        ensures { result.now ≡ spec.element_name self }
    {
        match self {
            ElementOption::Set => "set",
            ElementOption::Append => "append",
        }
    }
}
