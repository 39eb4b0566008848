//! Whether two values are the same.
ghost use Rattle.std.specs.Prelude.{◌≡◌, true};
ghost use Rattle.serde_json.specs.Data.{string};
ghost use Rattle.serde_json.specs.View.{items_view, members_view, view};

use serde_json::{Map, Value};

// Whether two values are the same. A fraction is the same as none.
#[cycle(same)]
pub(crate) fn is_same(one: &Value, other: &Value) -> bool
    ensures { result ≡ true → view one.now ≡ view other.now }
{
    match one {
        Value::Null => other.is_null(),
        Value::Bool(b) => other.as_bool() == Some(*b),
        Value::Number(_) => is_same_number(one, other),
        Value::String(text) => is_same_text(text, other),
        Value::Array(items) => match other {
            Value::Array(others) => are_same_items(items, others),
            _ => false,
        },
        Value::Object(members) => match other {
            Value::Object(others) => are_same_members(members, others),
            _ => false,
        },
    }
}

#[cycle(same)]
fn are_same_items(items: &Vec<Value>, others: &Vec<Value>) -> bool
    ensures { result ≡ true → items_view items.now.items ≡ items_view others.now.items }
{
    let mut left = others.iter();
    for item in items {
        let Some(other) = left.next() else {
            return false;
        };
        if !is_same(item, other) {
            return false;
        }
    }
    left.next().is_none()
}

#[cycle(same)]
fn are_same_members(members: &Map<String, Value>, others: &Map<String, Value>) -> bool
    ensures { result ≡ true → members_view members.now.entries ≡ members_view others.now.entries }
{
    let mut left = others.iter();
    for (name, member) in members.iter() {
        let Some((other_name, other)) = left.next() else {
            return false;
        };
        if name.as_str() != other_name.as_str() || !is_same(member, other) {
            return false;
        }
    }
    left.next().is_none()
}

fn is_same_number(one: &Value, other: &Value) -> bool
    ensures { result ≡ true → view one.now ≡ view other.now }
{
    if let (Some(number), Some(same)) = (one.as_u64(), other.as_u64()) {
        return number == same;
    }
    if one.is_u64() || other.is_u64() {
        return false;
    }
    match (one.as_i64(), other.as_i64()) {
        (Some(number), Some(same)) => number == same,
        _ => false,
    }
}

fn is_same_text(text: &str, other: &Value) -> bool
    ensures { result ≡ true → string text.now ≡ view other.now }
{
    match other {
        Value::String(same) => text == same.as_str(),
        _ => false,
    }
}
