ghost use Rattle.std.specs.Prelude.{◌≡◌, option_map};
ghost use Rattle.serde_json.specs.View.{view};
ghost use Rattle.fm_ljson.specs.Refs.{ref_of};
ghost use Rattle.fm_ljson.specs.Views.{ref_view};

use crate::keys;
use crate::role::Role;
use serde_json::Value;

/// The type that a layout is a copy of, and the name that the copy gets.
#[derive(Clone, Copy)]
pub(crate) struct TypeRef<'v> {
    pub(crate) of: &'v str,
    pub(crate) name: Option<&'v str>,
}

/// What a value says as a ref; nothing where it isn't one, or breaks a rule of its own.
#[tactic(auto, unfolding(crate::specs::Refs::ref_of))]
pub(crate) fn ref_of(value: &Value) -> Option<TypeRef<'_>>
    ensures { option_map ref_view result ≡ ref_of (view value.now) }
{
    let object = value.as_object()?;
    if !keys::has_only(Role::Ref, object) || !keys::says_ref(object) {
        return None;
    }
    let of = keys::text_at(object, "of")?;
    let name = keys::name_at(object)?;
    Some(TypeRef { of, name })
}
