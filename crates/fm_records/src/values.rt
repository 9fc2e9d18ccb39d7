ghost use Rattle.std.specs.Prelude.{◌≡◌, [], ◌+◌, ◌%◌, ◌<◌, ◌≤◌};
ghost use Rattle.fm_lanes.specs.Kind.{width_of};
ghost use Rattle.fm_records.specs.Reads.{CanRead, GetsNumber, LiesIn, Sees, or_closed};
ghost use Rattle.fm_records.specs.Words.{across, kept_none, number_of};

use crate::words::{Keep, Nothing, fetch, learn};
use fm_base::{Memory, Refusal};
use fm_lanes::{ValueKind, decode, read, turned};
use fm_path::ValueSpec;
use fm_segment::Segment;

/// The number of the segment's value that stands at a place, by the words that are kept and those that aren't, which are
/// read; none where the arena is found closed. Each kind has a branch of its own, so that the width is a constant in each.
#[inline(always)]
pub(crate) fn number_at<M: Memory, K: Keep>(
    m: &mut M,
    s: &Segment,
    place: u64,
    value: &ValueSpec,
    kept: &mut K,
) -> Option<i64>
    requires can { CanRead (M.view m.old) s.now }
    requires lies { LiesIn s.now place (width_of value.now.kind) }
    ensures { Sees (M.view m.old) (M.view m.new) s.now
        (λ r own. GetsNumber K.keeps (K.kept kept.old) value.now place r own (K.kept kept.new)) (or_closed result) }
{
    match value.kind {
        ValueKind::Byte => number_as(m, s, place, ValueKind::Byte, value, kept),
        ValueKind::Boolean => number_as(m, s, place, ValueKind::Boolean, value, kept),
        ValueKind::Char => number_as(m, s, place, ValueKind::Char, value, kept),
        ValueKind::Short => number_as(m, s, place, ValueKind::Short, value, kept),
        ValueKind::Int => number_as(m, s, place, ValueKind::Int, value, kept),
        ValueKind::Long => number_as(m, s, place, ValueKind::Long, value, kept),
    }
}

/// The same, for one of those branches.
#[inline(always)]
pub(crate) fn number_as<M: Memory, K: Keep>(
    m: &mut M,
    s: &Segment,
    place: u64,
    kind: ValueKind,
    value: &ValueSpec,
    kept: &mut K,
) -> Option<i64>
    requires can { CanRead (M.view m.old) s.now }
    requires lies { LiesIn s.now place (width_of value.now.kind) }
    requires kind { kind ≡ value.now.kind }
    ensures { Sees (M.view m.old) (M.view m.new) s.now
        (λ r own. GetsNumber K.keeps (K.kept kept.old) value.now place r own (K.kept kept.new)) (or_closed result) }
{
    let at = place % 8;
    if at + u64::from(kind.width()) > 8 {
        return number_across(m, s, place, value, kept);
    }
    let word = place / 8;
    let known = kept.find(word);
    let found = match fetch(m, s, word, known) {
        Some(found) => found,
        None => return None,
    };
    learn(kept, word, known, found);
    let number = read(found, at as u32, kind.width());
    Some(meant(number, kind, value))
}

/// The same of a value in two words.
#[inline(never)]
fn number_across<M: Memory, K: Keep>(
    m: &mut M,
    s: &Segment,
    place: u64,
    value: &ValueSpec,
    kept: &mut K,
) -> Option<i64>
    requires can { CanRead (M.view m.old) s.now }
    requires lies { LiesIn s.now place (width_of value.now.kind) }
    requires across { 8 < place % 8 + width_of value.now.kind }
    ensures { Sees (M.view m.old) (M.view m.new) s.now
        (λ r own. GetsNumber K.keeps (K.kept kept.old) value.now place r own (K.kept kept.new)) (or_closed result) }
{
    let word = place / 8;
    let known = kept.find(word);
    let known_above = kept.find(word + 1);
    let low = match fetch(m, s, word, known) {
        Some(low) => low,
        None => return None,
    };
    let high = match fetch(m, s, word + 1, known_above) {
        Some(high) => high,
        None => return None,
    };
    learn(kept, word, known, low);
    learn(kept, word + 1, known_above, high);
    Some(number_between(low, high, (place % 8) as u32, value))
}

/// The number of a value in two words, of which the lower has its bytes from `at` on.
fn number_between(low: u64, high: u64, at: u32, value: &ValueSpec) -> i64
    requires at { at < 8 }
    requires across { 8 < at + width_of value.now.kind }
    ensures { result ≡ number_of value.now (across low high at (width_of value.now.kind)) }
{
    let first = 8 - at;
    let rest = value.kind.width() - first;
    let number = read(low, at, first) + (read(high, 0, rest) << (8 * first));
    meant(number, value.kind, value)
}

/// The number that the bytes of a value of this kind make, as the value means it.
#[inline(always)]
fn meant(number: u64, kind: ValueKind, value: &ValueSpec) -> i64
    requires { kind ≡ value.now.kind }
    ensures { result ≡ number_of value.now number }
{
    decode(kind, turned(kind.width(), number, value.order)).number()
}

/// The number of the value that stands at a place of the segment, by its words, each of which is read in a visit of its
/// own. Refused: `Closed`.
#[inline(always)]
pub fn number_of_value<M: Memory>(
    m: &mut M,
    s: &Segment,
    place: u64,
    value: &ValueSpec,
) -> Result<i64, Refusal>
    requires can { CanRead (M.view m.old) s.now }
    requires lies { LiesIn s.now place (width_of value.now.kind) }
    ensures { Sees (M.view m.old) (M.view m.new) s.now
        (λ r own. GetsNumber kept_none [] value.now place r own []) result }
{
    match number_at(m, s, place, value, &mut Nothing) {
        Some(number) => Ok(number),
        None => Err(Refusal::Closed),
    }
}
