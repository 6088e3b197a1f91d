//! A profile, as it was read.
ghost use Rattle.std.specs.Prelude.{◌≡◌, IfSome, option_map};
ghost use Rattle.std.specs.Option.{ForSome};
ghost use Rattle.bag_profile.specs.Orderly as orderly;
ghost use Rattle.bag_profile.specs.Profile as spec;
ghost use Rattle.bag_profile.specs.TextSet.{IsAscending};
ghost use Rattle.bag_profile.specs.declared.form.Form.TheVariants.{Archive};

use crate::name_lists::NameLists;
use crate::terms::Terms;
use crate::{Form, LabelRule, ListRule, Serialization};
use bag_text::{Items, Text};
use std::marker::Model;

/// What a profile asks of a bag (BagIt Profiles Specification, Implementation Details).
#[derive(Drop)]
pub struct Profile {
    pub(crate) identifier: Text,
    pub(crate) labels: Items<LabelRule>,
    pub(crate) names: NameLists,
    pub(crate) terms: Terms,
    pub(crate) unchecked: Items<Text>,
    pub(crate) form: Form,
}

impl Model for Profile {
    ghost use Rattle.bag_profile.specs.Orderly as orderly;
    ghost use Rattle.bag_profile.specs.Profile as spec;

    ghost Value = { spec.Profile };

    ghost view = { λ p. record {
      identifier = p.identifier;
      labels = p.labels;
      names = p.names;
      terms = p.terms;
      unchecked = p.unchecked;
      form = p.form;
    } };

    ghost invariant = { λ p. orderly.IsOrderly record {
      identifier = p.identifier;
      labels = p.labels;
      names = p.names;
      terms = p.terms;
      unchecked = p.unchecked;
      form = p.form;
    } };
}

impl Profile {
    /// The profile's identifier, a URI that no one looks at (`BagIt-Profile-Info`,
    /// `BagIt-Profile-Identifier`).
    pub fn identifier(&self) -> &str
        ensures { result.now ≡ self.now.identifier }
    {
        self.identifier.as_str()
    }

    /// The rules of labels, ascending by the labels' bytes, each label once (`Bag-Info`). Labels
    /// that differ by case alone are two.
    pub fn labels(&self) -> &[LabelRule]
        ensures labels { result.now ≡ self.now.labels }
        ensures ascending { orderly.AreLabelsOrderly result.now }
    {
        self.labels.as_slice()
    }

    /// The names of a list, ascending by their bytes, each once; none where its key is absent,
    /// which isn't the empty list.
    pub fn names(&self, rule: ListRule) -> Option<&[Text]>
        ensures names { option_map (λ names. names.now) result ≡ spec.names self.now rule }
        ensures ascending { IfSome result (λ names. IsAscending names.now) }
    {
        self.list(rule).as_ref().map(|names| names.as_slice())
    }

    fn list(&self, rule: ListRule) -> &Option<Items<Text>>
        ensures names { result.now ≡ spec.names self.now rule }
        ensures ascending { ForSome result.now IsAscending }
    {
        match rule {
            ListRule::ManifestsRequired => &self.names.manifests.required,
            ListRule::ManifestsAllowed => &self.names.manifests.allowed,
            ListRule::TagManifestsRequired => &self.names.tag_manifests.required,
            ListRule::TagManifestsAllowed => &self.names.tag_manifests.allowed,
            ListRule::TagFilesRequired => &self.names.tag_files.required,
            ListRule::TagFilesAllowed => &self.names.tag_files.allowed,
            ListRule::AcceptBagItVersion => &self.terms.versions,
        }
    }

    /// Whether a bag may have `fetch.txt`; it may where the key is absent (`Allow-Fetch.txt`).
    pub fn allow_fetch(&self) -> bool
        ensures { result ≡ self.now.terms.allow_fetch }
    {
        self.terms.allow_fetch
    }

    /// Whether a bag is to be serialized; it needn't be where the key is absent (`Serialization`).
    pub fn serialization(&self) -> Serialization
        ensures { result ≡ self.now.terms.serialization }
    {
        self.terms.serialization
    }

    /// The keys of the profile's object that aren't checked, ascending by their bytes, each once.
    pub fn unchecked(&self) -> &[Text]
        ensures unchecked { result.now ≡ self.now.unchecked }
        ensures ascending { IsAscending result.now }
    {
        self.unchecked.as_slice()
    }

    /// The same profile, for bags that are archives: of them it is asked whether a bag may be
    /// serialized, and no longer whether it must be (`Serialization`). As it is read, a profile is
    /// for folders.
    pub fn for_archives(self) -> Profile
        ensures { result ≡ record self { form = Archive } }
    {
        Profile {
            form: Form::Archive,
            ..self
        }
    }

    /// In which form the bags lie that are compared with the profile.
    pub fn form(&self) -> Form
        ensures { result ≡ self.now.form }
    {
        self.form
    }
}
