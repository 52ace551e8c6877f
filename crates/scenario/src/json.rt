//! Looking into JSON values.

ghost use Rattle.std.specs.Prelude.{◌≡◌, map, Some, option_map, option_and_then, ok_or};
ghost use Rattle.std.specs.List.{list_any};
ghost use Rattle.std.specs.Str.{bytes_eq};
ghost use Rattle.fs_base.specs.Gives.{Gives};
ghost use Rattle.serde_json.specs.View.{view, items_view};
ghost use Rattle.serde_json.specs.Find.{get, as_array};
ghost use Rattle.scenario.specs.Json.{array_at, array_in, elements_at, has_only, text_at};

use crate::broken::Broken;
use serde_json::Value;

/// The value is an object that has no keys but these.
pub fn has_only(value: &Value, known: &[&str]) -> bool
    ensures { result ≡ has_only (map (λ k. k.now) known.now) (view value.now) }
{
    match value.as_object() {
        Some(members) => members.keys().all(|name| is_known(name.as_str(), known)),
        None => false,
    }
}

fn is_known(name: &str, known: &[&str]) -> bool
    ensures { result ≡ list_any (λ k. bytes_eq name.now k.now) known.now }
{
    for k in known {
        if name == *k {
            return true;
        }
    }
    false
}

/// The text at a key, or else the broken rule.
pub fn text_at<'a>(value: &'a Value, name: &str, broken: Broken) -> Result<&'a str, Broken>
    ensures { Gives Some (λ s. s.now) result (ok_or (text_at name.now (view value.now)) broken) }
{
    member_text(value, name).ok_or(broken)
}

fn member_text<'a>(value: &'a Value, name: &str) -> Option<&'a str>
    ensures { option_map (λ s. s.now) result ≡ text_at name.now (view value.now) }
{
    value.get(name).and_then(Value::as_str)
}

/// The elements of the array at a key, or else the broken rule.
pub fn array_at<'a>(value: &'a Value, name: &str, broken: Broken) -> Result<&'a [Value], Broken>
    ensures { Gives Some (λ s. map view s.now) result (ok_or (array_at name.now (view value.now)) broken) }
{
    match member_array(value, name) {
        Some(list) => Ok(list.as_slice()),
        None => Err(broken),
    }
}

fn member_array<'a>(value: &'a Value, name: &str) -> Option<&'a Vec<Value>>
    ensures { option_map (λ v. items_view v.now.items) result
        ≡ option_and_then as_array (get name.now (view value.now)) }
{
    value.get(name).and_then(Value::as_array)
}

/// The elements of an array, or else the broken rule.
pub fn array_in(value: &Value, broken: Broken) -> Result<&[Value], Broken>
    ensures { Gives Some (λ s. map view s.now) result (ok_or (array_in (view value.now)) broken) }
{
    match elements_of(value) {
        Some(list) => Ok(list.as_slice()),
        None => Err(broken),
    }
}

fn elements_of(value: &Value) -> Option<&Vec<Value>>
    ensures { option_map (λ v. items_view v.now.items) result ≡ as_array (view value.now) }
{
    value.as_array()
}

/// The elements of the array at a key that may be missing, or else the broken rule.
pub fn elements_at<'a>(value: &'a Value, name: &str, broken: Broken) -> Result<&'a [Value], Broken>
    ensures { Gives Some (λ s. map view s.now) result (elements_at name.now broken (view value.now)) }
{
    match value.get(name) {
        Some(member) => array_in(member, broken),
        None => Ok(&[]),
    }
}
