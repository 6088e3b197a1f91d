//! Reads profiles.
ghost use Rattle.std.specs.Prelude.{◌≡◌, IfOk, MatchResult};
ghost use Rattle.serde_json.specs.View.{view, members_view};
ghost use Rattle.bag_profile.specs.Answer.{IsAnswerOrMemory};
ghost use Rattle.bag_profile.specs.Orderly.{AreLabelsOrderly};
ghost use Rattle.bag_profile.specs.Read as spec;

use crate::label::label_rules;
use crate::name_lists::name_lists_of;
use crate::terms::terms_of;
use crate::unchecked::unchecked_of;
use crate::{Form, Key, LabelRule, Profile, ProfileFault};
use bag_text::{Items, Text};
use serde_json::{Map, Value};
use std::alloc::Global;

impl Profile {
    /// Reads a profile: a JSON object (RFC 8259) in UTF-8 whose checked keys have their shapes
    /// (BagIt Profiles Specification, Implementation Details).
    ///
    /// The first thing that is wrong is answered: no JSON, which a byte order mark, text after the
    /// value and more than 127 nested lists and objects are too; no object; the identifier; then
    /// the first wrong key in the order of `Key`. Of a key that is there twice the last value
    /// counts. `null` is no absence.
    #[tactic(auto, unfolding(crate::specs::Read::profile_in))]
    pub fn read(alloc: Global, bytes: &[u8]) -> Result<Profile, ProfileFault>
        ensures { IsAnswerOrMemory result (spec.profile_in bytes.now) }
    {
        let value = json_of(alloc, bytes)?;
        profile_of(alloc, &value)
    }
}

/// The JSON value that bytes are.
fn json_of(alloc: Global, bytes: &[u8]) -> Result<Value, ProfileFault>
    ensures { MatchResult result (λ value. spec.json_of bytes.now ≡ Some (view value))
        (λ fault. spec.IsNoJson fault (spec.json_of bytes.now)) }
{
    Value::from_slice(alloc, bytes).map_err(|error| {
        if error.is_memory() {
            ProfileFault::Memory
        } else {
            ProfileFault::NotJson
        }
    })
}

#[tactic(auto, unfolding(crate::specs::Read::profile_of))]
fn profile_of(alloc: Global, value: &Value) -> Result<Profile, ProfileFault>
    ensures { IsAnswerOrMemory result (spec.profile_of (view value.now)) }
{
    match value.as_object() {
        Some(members) => of_object(alloc, value, members),
        None => Err(ProfileFault::WrongShape(Key::Whole)),
    }
}

/// What an object says, whose members are given too.
fn of_object(
    alloc: Global,
    value: &Value,
    members: &Map<String, Value>,
) -> Result<Profile, ProfileFault>
    ensures { IsAnswerOrMemory result
        (spec.of_object (view value.now) (members_view members.now.entries)) }
{
    let identifier = identifier_of(alloc, value)?;
    let labels = labels_of(alloc, value)?;
    let unchecked = unchecked_of(alloc, members)?;
    let names = name_lists_of(alloc, value)?;
    let terms = terms_of(alloc, value)?;
    Ok(Profile {
        identifier,
        labels,
        names,
        terms,
        unchecked,
        form: Form::Folder,
    })
}

#[tactic(auto, unfolding(crate::specs::Read::identifier_of))]
fn identifier_of(alloc: Global, value: &Value) -> Result<Text, ProfileFault>
    ensures { IsAnswerOrMemory result (spec.identifier_of (view value.now)) }
{
    let Some(info) = value.get(Key::ProfileInfo.name()) else {
        return Err(ProfileFault::NoIdentifier);
    };
    if !info.is_object() {
        return Err(ProfileFault::WrongShape(Key::ProfileInfo));
    }
    let Some(identifier) = info.get(Key::ProfileIdentifier.name()) else {
        return Err(ProfileFault::NoIdentifier);
    };
    let Some(text) = identifier.as_str() else {
        return Err(ProfileFault::WrongShape(Key::ProfileIdentifier));
    };
    let identifier = Text::from_str(alloc, text)?;
    Ok(identifier)
}

#[tactic(auto, unfolding(crate::specs::Read::labels_of))]
fn labels_of(alloc: Global, value: &Value) -> Result<Items<LabelRule>, ProfileFault>
    ensures labels { IsAnswerOrMemory result (spec.labels_of (view value.now)) }
    ensures orderly { IfOk result AreLabelsOrderly }
{
    let Some(labels) = value.get(Key::BagInfo.name()) else {
        return Ok(Items::new(alloc));
    };
    match label_rules(alloc, labels)? {
        Some(rules) => Ok(rules),
        None => Err(ProfileFault::WrongShape(Key::BagInfo)),
    }
}
