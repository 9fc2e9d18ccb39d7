ghost use Rattle.std.specs.Prelude.{◌≡◌};
ghost use Rattle.std.specs.List.{list_any};
ghost use Rattle.std.specs.Str.{bytes_eq};
ghost use Rattle.fm_ljson.specs.Types.{is_among, keys_of, type_named};

use fm_lanes::ValueKind;

/// What the key `type` of a layout object says that the layout is.
#[derive(Clone, Copy, Debug, PartialEq, Eq)]
pub enum TypeName {
    Value(ValueKind),
    Padding,
    Sequence,
    Struct,
    Union,
}

/// The type that a text names.
#[tactic(auto, unfolding(crate::specs::Types::type_named, fm_lanes::specs::Named::kind_named))]
pub(crate) fn type_named(text: &str) -> Option<TypeName>
    ensures { result ≡ type_named text.now }
{
    if let Some(kind) = ValueKind::named(text) {
        return Some(TypeName::Value(kind));
    }
    match text {
        "padding" => Some(TypeName::Padding),
        "sequence" => Some(TypeName::Sequence),
        "struct" => Some(TypeName::Struct),
        "union" => Some(TypeName::Union),
        _ => None,
    }
}

/// Whether an object of this type may have this key.
pub(crate) fn is_key_of(type_name: TypeName, key: &str) -> bool
    ensures { result ≡ is_among (keys_of type_name) key.now }
{
    match type_name {
        TypeName::Value(_) => is_one_of(key, &["type", "name", "order", "align"]),
        TypeName::Padding => is_one_of(key, &["type", "name", "size"]),
        TypeName::Sequence => is_one_of(key, &["type", "name", "align", "count", "element"]),
        TypeName::Struct => is_one_of(key, &["type", "name", "align", "members"]),
        TypeName::Union => is_one_of(key, &["type", "name", "align", "members"]),
    }
}

/// Whether the key is one of these.
pub(crate) fn is_one_of(key: &str, keys: &[&str]) -> bool
    ensures { result ≡ list_any (λ k. bytes_eq k.now key.now) keys.now }
{
    keys.contains(&key)
}
