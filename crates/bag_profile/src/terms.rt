//! Whether a bag may be fetched, which versions it may have, whether it is serialized.
ghost use Rattle.std.specs.Prelude.{◌≡◌, IfOk};
ghost use Rattle.std.specs.Option.{ForSome};
ghost use Rattle.serde_json.specs.View.{view};
ghost use Rattle.bag_profile.specs.Answer.{IsAnswerOrMemory};
ghost use Rattle.bag_profile.specs.Terms as spec;
ghost use Rattle.bag_profile.specs.TextSet.{IsAscending};

use crate::label::flag;
use crate::name_lists::texts_at;
use crate::{Key, ProfileFault};
use bag_text::{Items, Text};
use serde_json::Value;
use std::alloc::Global;

/// Whether a bag is to be serialized (BagIt Profiles Specification, `Serialization`).
#[derive(Clone, Copy, Debug, PartialEq, Eq)]
pub enum Serialization {
    Forbidden,
    Required,
    Optional,
}

impl Serialization {
    /// Each of them.
    const ALL: [Serialization; 3] = [
        Serialization::Forbidden,
        Serialization::Required,
        Serialization::Optional,
    ];

    fn name(self) -> &'static str
        ensures { result.now ≡ spec.serialization_name self }
    {
        match self {
            Serialization::Forbidden => "forbidden",
            Serialization::Required => "required",
            Serialization::Optional => "optional",
        }
    }

    fn from_name(name: &str) -> Option<Serialization>
        ensures { result ≡ spec.serialization_named name.now }
    {
        Serialization::ALL
            .iter()
            .copied()
            .find(|serialization| serialization.name() == name)
    }
}

/// On which terms a bag is taken.
#[derive(Drop)]
pub(crate) struct Terms {
    pub(crate) allow_fetch: bool,
    /// None where the key is absent.
    pub(crate) versions: Option<Items<Text>>,
    pub(crate) serialization: Serialization,
}

pub(crate) fn terms_of(alloc: Global, value: &Value) -> Result<Terms, ProfileFault>
    ensures terms { IsAnswerOrMemory result (spec.terms_of (view value.now)) }
    ensures ascending { IfOk result (λ terms. ForSome terms.versions IsAscending) }
{
    let allow_fetch = allow_fetch_of(value)?;
    let versions = texts_at(alloc, value, Key::AcceptBagItVersion)?;
    let serialization = serialization_of(value)?;
    Ok(Terms {
        allow_fetch,
        versions,
        serialization,
    })
}

#[tactic(auto, unfolding(crate::specs::Terms::allow_fetch_of))]
fn allow_fetch_of(value: &Value) -> Result<bool, ProfileFault>
    ensures { result ≡ spec.allow_fetch_of (view value.now) }
{
    match flag(value, Key::AllowFetch.name(), true) {
        Some(allow) => Ok(allow),
        None => Err(ProfileFault::WrongShape(Key::AllowFetch)),
    }
}

#[tactic(auto, unfolding(crate::specs::Terms::serialization_of))]
fn serialization_of(value: &Value) -> Result<Serialization, ProfileFault>
    ensures { result ≡ spec.serialization_of (view value.now) }
{
    let Some(serialization) = value.get(Key::Serialization.name()) else {
        return Ok(Serialization::Optional);
    };
    match serialization.as_str().and_then(Serialization::from_name) {
        Some(serialization) => Ok(serialization),
        None => Err(ProfileFault::WrongShape(Key::Serialization)),
    }
}
