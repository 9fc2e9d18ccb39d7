ghost use Rattle.std.specs.Prelude.{◌≡◌, codes, map, option_copied, option_map};
ghost use Rattle.serde_json.specs.Find.{as_str, get_member};
ghost use Rattle.serde_json.specs.View.{view};
ghost use Rattle.fm_ljson.specs.Node.{align_in, has_only, members_in, name_of, optional, order_in, required, type_of, whole_of};
ghost use Rattle.fm_ljson.specs.Documents.{is_two, unsigned_of};
ghost use Rattle.fm_ljson.specs.Refs.{says_ref};
ghost use Rattle.fm_ljson.specs.Types.{keys_in};
ghost use Rattle.fm_ljson.specs.Views.{object_view};

use crate::role::{Role, is_key_in};
use crate::type_name::TypeName;
use crate::values;
use fm_lanes::Order;
use serde_json::{Map, Value};

/// The value at a key.
pub(crate) fn member<'v>(object: &'v Map<String, Value>, key: &str) -> Option<&'v Value>
    ensures { option_map (λ v. view v.now) result ≡ get_member key.now (object_view object.now) }
{
    object.get(key)
}

/// Whether an object in this role may have all keys of this one.
pub(crate) fn has_only(role: Role, object: &Map<String, Value>) -> bool
    ensures { result ≡ has_only (keys_in role) (object_view object.now) }
{
    for (key, _value) in object.iter() {
        if !is_key_in(role, key) {
            return false;
        }
    }
    true
}

/// The type, which has to be there.
pub(crate) fn type_at(object: &Map<String, Value>) -> Option<TypeName>
    ensures { result ≡ required type_of (codes "type") (object_view object.now) }
{
    match member(object, "type") {
        Some(value) => values::type_of(value),
        None => None,
    }
}

/// Whether the type is `ref`.
pub(crate) fn says_ref(object: &Map<String, Value>) -> bool
    ensures { result ≡ says_ref (object_view object.now) }
{
    match text_at(object, "type") {
        Some(text) => text == "ref",
        None => false,
    }
}

/// A text, which has to be there.
pub(crate) fn text_at<'v>(object: &'v Map<String, Value>, key: &str) -> Option<&'v str>
    ensures { option_copied result ≡ required as_str key.now (object_view object.now) }
{
    match member(object, key) {
        Some(value) => value.as_str(),
        None => None,
    }
}

/// A name, which has to be there.
pub(crate) fn definition_at(object: &Map<String, Value>) -> Option<&str>
    ensures { option_copied result ≡ required name_of (codes "define") (object_view object.now) }
{
    match member(object, "define") {
        Some(value) => values::name_of(value),
        None => None,
    }
}

/// Whether the version is 2.
pub(crate) fn is_version_two(object: &Map<String, Value>) -> bool
    ensures { result ≡ is_two (required unsigned_of (codes "version") (object_view object.now)) }
{
    match member(object, "version") {
        Some(value) => values::is_two(value),
        None => false,
    }
}

/// A whole number, which has to be there.
pub(crate) fn whole_at(object: &Map<String, Value>, key: &str) -> Option<u64>
    ensures { result ≡ required whole_of key.now (object_view object.now) }
{
    match member(object, key) {
        Some(value) => values::whole_of(value),
        None => None,
    }
}

/// The items of an array, which has to be there.
pub(crate) fn items_at<'v>(object: &'v Map<String, Value>, key: &str) -> Option<&'v [Value]>
    ensures { option_map (λ s. map view s.now) result
        ≡ required members_in key.now (object_view object.now) }
{
    match member(object, key) {
        Some(value) => values::members_in(value),
        None => None,
    }
}

/// The name, if there is one.
pub(crate) fn name_at(object: &Map<String, Value>) -> Option<Option<&str>>
    ensures { option_map option_copied result ≡ optional name_of (codes "name") (object_view object.now) }
{
    match member(object, "name") {
        Some(value) => match values::name_of(value) {
            Some(name) => Some(Some(name)),
            None => None,
        },
        None => Some(None),
    }
}

/// The byte order, little where there is none.
pub(crate) fn order_at(object: &Map<String, Value>) -> Option<Order>
    ensures { result ≡ order_in (object_view object.now) }
{
    match member(object, "order") {
        Some(value) => values::order_of(value),
        None => Some(Order::Little),
    }
}

/// The alignment, if there is one and the type may have one.
pub(crate) fn align_at(type_name: TypeName, object: &Map<String, Value>) -> Option<Option<u64>>
    ensures { result ≡ align_in type_name (object_view object.now) }
{
    match type_name {
        TypeName::Padding => Some(None),
        TypeName::Value(_) => whole_if_any(object, "align"),
        TypeName::Sequence => whole_if_any(object, "align"),
        TypeName::Struct => whole_if_any(object, "align"),
        TypeName::Union => whole_if_any(object, "align"),
    }
}

fn whole_if_any(object: &Map<String, Value>, key: &str) -> Option<Option<u64>>
    ensures { result ≡ optional whole_of key.now (object_view object.now) }
{
    match member(object, key) {
        Some(value) => match values::whole_of(value) {
            Some(n) => Some(Some(n)),
            None => None,
        },
        None => Some(None),
    }
}
