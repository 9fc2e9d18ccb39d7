ghost use Rattle.std.specs.Prelude.{◌≡◌, map, option_map};
ghost use Rattle.serde_json.specs.View.{view};
ghost use Rattle.fm_ljson.specs.Node.{content_in, node_in, node_of, node_of_type, parts_in};
ghost use Rattle.fm_ljson.specs.Views.{content_view, node_view, object_view};

use crate::keys;
use crate::role::Role;
use crate::type_name::TypeName;
use fm_lanes::{Order, ValueKind};
use serde_json::{Map, Value};
use std::slice;

/// What a layout is: its type, and what its type's own keys say.
#[derive(Clone, Copy)]
pub(crate) enum ContentRef<'v> {
    Value(ValueKind, Order),
    Padding(u64),
    Sequence(u64, &'v Value),
    Struct(&'v [Value]),
    Union(&'v [Value]),
}

/// What a layout object says by itself.
#[derive(Clone, Copy)]
pub(crate) struct NodeRef<'v> {
    pub(crate) content: ContentRef<'v>,
    pub(crate) name: Option<&'v str>,
    pub(crate) align: Option<u64>,
}

/// The parts of a node in order: the members, or the element.
pub(crate) fn parts_of<'v>(content: ContentRef<'v>) -> &'v [Value]
    ensures { map view result.now ≡ parts_in (content_view content.entry) }
{
    match content {
        ContentRef::Value(_, _) | ContentRef::Padding(_) => &[],
        ContentRef::Sequence(_, element) => slice::from_ref(element),
        ContentRef::Struct(members) => members,
        ContentRef::Union(members) => members,
    }
}

/// What a value says as a node; nothing where it breaks a rule of its own.
#[tactic(auto, unfolding(crate::specs::Node::node_of))]
pub(crate) fn node_of(value: &Value) -> Option<NodeRef<'_>>
    ensures { option_map node_view result ≡ node_of (view value.now) }
{
    node_in(value.as_object()?)
}

fn node_in(object: &Map<String, Value>) -> Option<NodeRef<'_>>
    ensures { option_map node_view result ≡ node_in (object_view object.now) }
{
    match keys::type_at(object) {
        Some(type_name) => node_of_type(object, type_name),
        None => None,
    }
}

fn node_of_type<'v>(object: &'v Map<String, Value>, type_name: TypeName) -> Option<NodeRef<'v>>
    ensures { option_map node_view result ≡ node_of_type (object_view object.now) type_name }
{
    if !keys::has_only(Role::Layout(type_name), object) {
        return None;
    }
    let Some(content) = content_of(object, type_name) else {
        return None;
    };
    let Some(name) = keys::name_at(object) else {
        return None;
    };
    let Some(align) = keys::align_at(type_name, object) else {
        return None;
    };
    Some(NodeRef {
        content,
        name,
        align,
    })
}

fn content_of<'v>(object: &'v Map<String, Value>, type_name: TypeName) -> Option<ContentRef<'v>>
    ensures { option_map content_view result ≡ content_in type_name (object_view object.now) }
{
    match type_name {
        TypeName::Value(kind) => match keys::order_at(object) {
            Some(order) => Some(ContentRef::Value(kind, order)),
            None => None,
        },
        TypeName::Padding => match keys::whole_at(object, "size") {
            Some(size) => Some(ContentRef::Padding(size)),
            None => None,
        },
        TypeName::Sequence => sequence_of(object),
        TypeName::Struct => match keys::items_at(object, "members") {
            Some(members) => Some(ContentRef::Struct(members)),
            None => None,
        },
        TypeName::Union => match keys::items_at(object, "members") {
            Some(members) => Some(ContentRef::Union(members)),
            None => None,
        },
    }
}

fn sequence_of(object: &Map<String, Value>) -> Option<ContentRef<'_>>
    ensures { option_map content_view result
        ≡ content_in TypeName.Sequence (object_view object.now) }
{
    let Some(count) = keys::whole_at(object, "count") else {
        return None;
    };
    match keys::member(object, "element") {
        Some(element) => Some(ContentRef::Sequence(count, element)),
        None => None,
    }
}
