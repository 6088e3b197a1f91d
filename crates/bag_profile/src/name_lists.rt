//! Which manifests and tag files a bag must have, and which it may have.
ghost use Rattle.std.specs.Prelude.{◌≡◌, IfOk};
ghost use Rattle.std.specs.Option.{ForSome};
ghost use Rattle.serde_json.specs.View.{view};
ghost use Rattle.bag_profile.specs.Answer.{IsAnswerOrMemory};
ghost use Rattle.bag_profile.specs.NameLists as spec;
ghost use Rattle.bag_profile.specs.Orderly as lists_in_order;
ghost use Rattle.bag_profile.specs.TextSet.{IsAscending};

use crate::text_set::texts;
use crate::{Key, ProfileFault};
use bag_text::{Items, Text};
use serde_json::Value;
use std::alloc::Global;

/// Which names must be there, and which may be; none where the key is absent.
#[derive(Drop)]
pub(crate) struct NameRules {
    pub(crate) required: Option<Items<Text>>,
    pub(crate) allowed: Option<Items<Text>>,
}

/// The names of manifests' and tag manifests' algorithms, and of tag files.
#[derive(Drop)]
pub(crate) struct NameLists {
    pub(crate) manifests: NameRules,
    pub(crate) tag_manifests: NameRules,
    pub(crate) tag_files: NameRules,
}

pub(crate) fn name_lists_of(alloc: Global, value: &Value) -> Result<NameLists, ProfileFault>
    ensures lists { IsAnswerOrMemory result (spec.name_lists_of (view value.now)) }
    ensures ascending { IfOk result lists_in_order.NamesAscend }
{
    let manifests = name_rules(alloc, value, Key::ManifestsRequired, Key::ManifestsAllowed)?;
    let tag_manifests = name_rules(
        alloc,
        value,
        Key::TagManifestsRequired,
        Key::TagManifestsAllowed,
    )?;
    let tag_files = name_rules(alloc, value, Key::TagFilesRequired, Key::TagFilesAllowed)?;
    Ok(NameLists {
        manifests,
        tag_manifests,
        tag_files,
    })
}

/// The two lists at two keys.
fn name_rules(
    alloc: Global,
    value: &Value,
    required: Key,
    allowed: Key,
) -> Result<NameRules, ProfileFault>
    ensures rules { IsAnswerOrMemory result (spec.name_rules required allowed (view value.now)) }
    ensures ascending { IfOk result lists_in_order.IsAscendingPair }
{
    let required = texts_at(alloc, value, required)?;
    let allowed = texts_at(alloc, value, allowed)?;
    Ok(NameRules { required, allowed })
}

/// The set of texts at a key; none where it is absent.
#[tactic(auto, unfolding(crate::specs::NameLists::texts_at))]
pub(crate) fn texts_at(
    alloc: Global,
    value: &Value,
    key: Key,
) -> Result<Option<Items<Text>>, ProfileFault>
    ensures texts { IsAnswerOrMemory result (spec.texts_at key (view value.now)) }
    ensures ascending { IfOk result (λ texts. ForSome texts IsAscending) }
{
    let Some(list) = value.get(key.name()) else {
        return Ok(None);
    };
    match texts(alloc, list)? {
        Some(texts) => Ok(Some(texts)),
        None => Err(ProfileFault::WrongShape(key)),
    }
}
