ghost use Rattle.std.specs.Prelude.{◌≡◌, option_copied, IfOk, IfErr, List, ℕ, Option};
ghost use Rattle.std.specs.BTreeMap.{get_by_text};
ghost use Rattle.serde_json.specs.View.{view};
ghost use Rattle.fm_layout.specs.Tree.{Tree};
ghost use Rattle.fm_ljson.specs.Built.{built, copied};
ghost use Rattle.fm_ljson.specs.Footprints.{IsRefusedSo};
ghost use Rattle.fm_ljson.specs.Known.{AreBelow, AreKnown, AreSafe, IsLearnt, IsSafe, last_of};
ghost use Rattle.fm_ljson.specs.Nodes.{most_written_levels};
ghost use Rattle.fm_ljson.specs.Refs.{ref_of};

use crate::footprint::Footprint;
use crate::node::node_of;
use crate::refs::ref_of;
use crate::weigh::weigh;
use fm_base::Refusal;
use serde_json::Value;
use std::alloc::Global;
use std::collections::BTreeMap;

/// The most levels that are written: JSON nests at most so many.
pub(crate) const LEVELS: u64 = 127;

/// What is known of a type: what it is written as, and its footprint. It is never built by itself.
#[derive(Clone, Copy)]
pub(crate) struct Known<'v> {
    /// The node that it is a copy of: where it is defined as a ref, that of the type which the ref names.
    pub(crate) layout: &'v Value,
    /// The name that the last ref on the way to that node gives.
    pub(crate) name: Option<&'v str>,
    pub(crate) footprint: Footprint,
    /// How many types there are before the one that has the node; to these its refs are.
    pub(crate) before: u64,
    /// How many there are before this one.
    pub(crate) place: u64,
}

/// What is known of a type that is defined so, with so many others before it.
///
/// Refused: as building it would be; `Memory`.
pub(crate) fn know<'v>(
    alloc: Global,
    value: &'v Value,
    types: &BTreeMap<String, Known<'v>>,
    place: u64,
) -> Result<Known<'v>, Refusal>
    requires safe { AreSafe (get_by_text types.now) }
    requires below { AreBelow place (get_by_text types.now) }
    ensures safe { IfOk result IsSafe }
    ensures place { IfOk result (λ k. k.place ≡ place) }
    ensures known { IfOk result (λ k. (trees : List ℕ → Option Tree)
        → AreKnown (get_by_text types.now) trees
        → IsLearnt (get_by_text types.now) trees k
        (built trees most_written_levels (view value.now))) }
    ensures refused { IfErr result (λ r. (trees : List ℕ → Option Tree)
        → AreKnown (get_by_text types.now) trees
        → IsRefusedSo r (built trees most_written_levels (view value.now))) }
{
    match node_of(value) {
        Some(_) => match weigh(alloc, value, LEVELS, types) {
            Ok(footprint) => Ok(Known {
                layout: value,
                name: None,
                footprint,
                before: place,
                place,
            }),
            Err(refusal) => Err(refusal),
        },
        None => know_again(value, types, place),
    }
}

/// What is known of a type that is defined as a ref: what is known of that one, under the ref's name, if it has one.
fn know_again<'v>(
    value: &'v Value,
    types: &BTreeMap<String, Known<'v>>,
    place: u64,
) -> Result<Known<'v>, Refusal>
    requires safe { AreSafe (get_by_text types.now) }
    requires below { AreBelow place (get_by_text types.now) }
    ensures safe { IfOk result IsSafe }
    ensures place { IfOk result (λ k. k.place ≡ place) }
    ensures known { IfOk result (λ k. (trees : List ℕ → Option Tree)
        → AreKnown (get_by_text types.now) trees
        → IsLearnt (get_by_text types.now) trees k (copied trees (ref_of (view value.now)))) }
    ensures refused { IfErr result (λ r. (trees : List ℕ → Option Tree)
        → AreKnown (get_by_text types.now) trees
        → IsRefusedSo r (copied trees (ref_of (view value.now)))) }
{
    let Some(reference) = ref_of(value) else {
        return Err(Refusal::BadShape(0));
    };
    match types.get(reference.of) {
        Some(known) => Ok(Known {
            layout: known.layout,
            name: last_of(reference.name, known.name),
            footprint: known.footprint,
            before: known.before,
            place,
        }),
        None => Err(Refusal::BadShape(0)),
    }
}

/// The name that stays of two that are given one after the other.
pub(crate) fn last_of<'v>(last: Option<&'v str>, first: Option<&'v str>) -> Option<&'v str>
    ensures { option_copied result ≡ last_of (option_copied last.entry) (option_copied first.entry) }
{
    match last {
        Some(name) => Some(name),
        None => first,
    }
}
