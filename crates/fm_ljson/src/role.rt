ghost use Rattle.std.specs.Prelude.{◌≡◌};
ghost use Rattle.fm_ljson.specs.Types.{is_among, keys_in};

use crate::type_name::{TypeName, is_key_of, is_one_of};

/// What an object is in a text: each may have keys of its own, and no others.
#[derive(Clone, Copy)]
pub(crate) enum Role {
    Layout(TypeName),
    Ref,
    Entry,
    Document,
}

/// Whether an object in this role may have this key.
pub(crate) fn is_key_in(role: Role, key: &str) -> bool
    ensures { result ≡ is_among (keys_in role) key.now }
{
    match role {
        Role::Layout(type_name) => is_key_of(type_name, key),
        Role::Ref => is_one_of(key, &["type", "of", "name"]),
        Role::Entry => is_one_of(key, &["define", "layout"]),
        Role::Document => is_one_of(key, &["version", "types", "layout"]),
    }
}
