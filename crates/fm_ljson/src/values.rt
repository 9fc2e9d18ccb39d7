ghost use Rattle.std.specs.Prelude.{◌≡◌, map, option_copied, option_map};
ghost use Rattle.serde_json.specs.View.{view};
ghost use Rattle.fm_ljson.specs.Documents.{is_two, unsigned_of};
ghost use Rattle.fm_ljson.specs.Node.{is_name, members_in, name_in, name_of, order_of, type_of, whole_of, within};

use crate::type_name::{TypeName, type_named};
use fm_lanes::Order;
use serde_json::Value;

/// The greatest size, count and alignment.
const LIMIT: u64 = 1 << 40;

/// A whole number up to 2^40, written in decimal digits alone.
pub(crate) fn whole_of(value: &Value) -> Option<u64>
    ensures { result ≡ whole_of (view value.now) }
{
    match value.as_u64() {
        Some(n) => within(n),
        None => None,
    }
}

fn within(n: u64) -> Option<u64>
    ensures { result ≡ within n }
{
    if n <= LIMIT { Some(n) } else { None }
}

/// Whether the value is the number 2, written in decimal digits alone.
pub(crate) fn is_two(value: &Value) -> bool
    ensures { result ≡ is_two (unsigned_of (view value.now)) }
{
    match value.as_u64() {
        Some(n) => n == 2,
        None => false,
    }
}

/// A text that is a name.
pub(crate) fn name_of(value: &Value) -> Option<&str>
    ensures { option_copied result ≡ name_of (view value.now) }
{
    match value.as_str() {
        Some(text) => name_in(text),
        None => None,
    }
}

fn name_in(text: &str) -> Option<&str>
    ensures { option_copied result ≡ name_in text.now }
{
    if is_name(text) { Some(text) } else { None }
}

fn is_name(text: &str) -> bool
    ensures { result ≡ is_name text.now }
{
    fm_layout::is_name(text)
}

/// A text that is `little` or `big`.
pub(crate) fn order_of(value: &Value) -> Option<Order>
    ensures { result ≡ order_of (view value.now) }
{
    match value.as_str() {
        Some(text) => Order::named(text),
        None => None,
    }
}

/// A text that names a type.
pub(crate) fn type_of(value: &Value) -> Option<TypeName>
    ensures { result ≡ type_of (view value.now) }
{
    match value.as_str() {
        Some(text) => type_named(text),
        None => None,
    }
}

/// The items of an array.
pub(crate) fn members_in(value: &Value) -> Option<&[Value]>
    ensures { option_map (λ s. map view s.now) result ≡ members_in (view value.now) }
{
    match value.as_array() {
        Some(items) => Some(items.as_slice()),
        None => None,
    }
}
