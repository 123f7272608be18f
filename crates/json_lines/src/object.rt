//! Objects with one member.
ghost use Rattle.std.specs.Prelude.{◌≡◌, option_map};
ghost use Rattle.serde_json.specs.View.{view, members_view};
ghost use Rattle.json_lines.specs.Single.{single_in, single_member as single};

use serde_json::{Map, Value};

fn single_in_members(members: &Map<String, Value>) -> Option<(&str, &Value)>
    ensures { option_map (λ m. (m.0.now, view m.1.now)) result ≡ single_in (members_view members.now.entries) }
{
    let mut found = None;
    for (name, value) in members.iter() {
        match value {
            Value::Null => {}
            _ => {
                if found.is_some() {
                    return None;
                }
                found = Some((name.as_str(), value));
            }
        }
    }
    found
}

/// The name and the value of an object's only member, where exactly one member isn't null.
#[tactic(auto, unfolding(crate::specs::Single::single_member))]
pub fn single_member(object: &Value) -> Option<(&str, &Value)>
    ensures { option_map (λ m. (m.0.now, view m.1.now)) result ≡ single (view object.now) }
{
    match object.as_object() {
        Some(members) => single_in_members(members),
        None => None,
    }
}
