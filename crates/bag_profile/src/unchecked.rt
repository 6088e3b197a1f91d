//! The keys of a profile that aren't checked.
ghost use Rattle.std.specs.Prelude.{◌≡◌, IfOk};
ghost use Rattle.serde_json.specs.View.{members_view};
ghost use Rattle.bag_profile.specs.TextSet.{IsAscending};
ghost use Rattle.bag_profile.specs.Unchecked as spec;

use crate::key::is_checked;
use bag_text::{Items, Text};
use serde_json::{Map, Value};
use std::alloc::{AllocError, Global};

/// The keys that aren't checked, in their order.
#[tactic(auto, unfolding(crate::specs::Unchecked::unchecked_of))]
pub(crate) fn unchecked_of(
    alloc: Global,
    members: &Map<String, Value>,
) -> Result<Items<Text>, AllocError>
    ensures unchecked { IfOk result (λ unchecked.
        unchecked ≡ spec.unchecked_of (members_view members.now.entries)) }
    ensures ascending { IfOk result IsAscending }
{
    let mut unchecked = Items::new(alloc);
    for (key, _) in members {
        if !is_checked(key.as_str()) {
            unchecked.push(Text::from_str(alloc, key.as_str())?)?;
        }
    }
    Ok(unchecked)
}
