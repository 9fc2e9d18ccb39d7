ghost use Rattle.std.specs.Prelude.{◌≡◌, ◌≢◌, ◌+◌, ◌≤◌, MatchBool};
ghost use Rattle.fm_lanes.specs.Kind.{width_of};
ghost use Rattle.fm_lanes.specs.Value.{kind_of};
ghost use Rattle.fm_handle.specs.Acts.{value_in, with_value, word_of, sum_of};

use fm_lanes::{Order, Value, ValueKind, bits, decode, encode, mask, read, turned};

/// The value that the bytes of `word` from byte `at` on mean.
#[tactic(auto, using(crate::proofs::Words::read_value))]
pub(crate) fn value_in(word: u64, at: u32, kind: ValueKind, order: Order) -> Value
    requires { at + width_of kind ≤ 8 }
    ensures value { result ≡ value_in kind order at word }
    ensures kind { kind_of result ≡ kind }
{
    let width = kind.width();
    decode(kind, turned(width, read(word, at, width), order))
}

/// The word with the bytes of `v` from byte `at` on; its other bytes stay.
#[tactic(auto, using(crate::proofs::Words::put_value_in))]
pub(crate) fn with_value(word: u64, at: u32, order: Order, v: Value) -> u64
    requires { at + width_of (kind_of v) ≤ 8 }
    ensures { result ≡ with_value order v at word }
{
    let width = v.kind().width();
    word & !mask(at, width) | bits(at, width, turned(width, encode(v), order))
}

/// The word whose bytes are a long's.
pub fn word_of(order: Order, v: i64) -> u64
    ensures { result ≡ word_of order v }
{
    turned(8, encode(Value::Long(v)), order)
}

/// The long that a word's bytes mean.
pub fn long_in(word: u64, order: Order) -> i64
    ensures { Value.Long result ≡ value_in ValueKind.Long order 0 word }
{
    match value_in(word, 0, ValueKind::Long, order) {
        Value::Long(n) => n,
        _ => unreachable!(),
    }
}

/// Whether two values of one kind are the same.
#[tactic(auto, using(crate::proofs::Words::tested_value))]
pub fn is_same(a: Value, b: Value) -> bool
    requires { kind_of a ≡ kind_of b }
    ensures { MatchBool result (a ≡ b) (a ≢ b) }
{
    encode(a) == encode(b)
}

/// The sum of two ints or two longs, wrapped in their width.
pub(crate) fn sum_of(a: Value, b: Value) -> Value
    ensures { result ≡ sum_of a b }
{
    match (a, b) {
        (Value::Int(a), Value::Int(b)) => Value::Int(a.wrapping_add(b)),
        (Value::Long(a), Value::Long(b)) => Value::Long(a.wrapping_add(b)),
        _ => a,
    }
}
