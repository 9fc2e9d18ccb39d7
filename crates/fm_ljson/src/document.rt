ghost use Rattle.std.specs.Prelude.{◌≡◌, option_map};
ghost use Rattle.serde_json.specs.View.{view};
ghost use Rattle.fm_ljson.specs.Documents.{document_in, entry_of, text_in, text_of};
ghost use Rattle.fm_ljson.specs.Views.{document_view, entry_view, object_view, text_view};

use crate::keys;
use crate::role::Role;
use serde_json::{Map, Value};

/// A text that is a layout, or names types for one; or one that has a version and breaks a rule of its root.
#[derive(Clone, Copy)]
pub(crate) enum TextRef<'v> {
    One(&'v Value),
    Two(DocumentRef<'v>),
    Neither,
}

/// The types that a text names in order, and its layout.
#[derive(Clone, Copy)]
pub(crate) struct DocumentRef<'v> {
    pub(crate) types: &'v [Value],
    pub(crate) layout: &'v Value,
}

/// A name, and the layout that it is defined as.
#[derive(Clone, Copy)]
pub(crate) struct EntryRef<'v> {
    pub(crate) name: &'v str,
    pub(crate) layout: &'v Value,
}

/// Which version a text is of.
pub(crate) fn text_of(value: &Value) -> TextRef<'_>
    ensures { text_view result ≡ text_of (view value.now) }
{
    match value.as_object() {
        Some(object) => text_in(value, object),
        None => TextRef::One(value),
    }
}

fn text_in<'v>(value: &'v Value, object: &'v Map<String, Value>) -> TextRef<'v>
    ensures { text_view result ≡ text_in (view value.now) (object_view object.now) }
{
    if keys::member(object, "version").is_none() {
        return TextRef::One(value);
    }
    match document_in(object) {
        Some(document) => TextRef::Two(document),
        None => TextRef::Neither,
    }
}

fn document_in(object: &Map<String, Value>) -> Option<DocumentRef<'_>>
    ensures { option_map document_view result ≡ document_in (object_view object.now) }
{
    if !keys::has_only(Role::Document, object) || !keys::is_version_two(object) {
        return None;
    }
    let layout = keys::member(object, "layout")?;
    let types = keys::items_at(object, "types")?;
    Some(DocumentRef { types, layout })
}

/// What a value says as an entry of `types`; nothing where it breaks a rule of its own.
#[tactic(auto, unfolding(crate::specs::Documents::entry_of))]
pub(crate) fn entry_of(value: &Value) -> Option<EntryRef<'_>>
    ensures { option_map entry_view result ≡ entry_of (view value.now) }
{
    let object = value.as_object()?;
    if !keys::has_only(Role::Entry, object) {
        return None;
    }
    let layout = keys::member(object, "layout")?;
    let name = keys::definition_at(object)?;
    Some(EntryRef { name, layout })
}
