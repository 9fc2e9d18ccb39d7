ghost use Rattle.std.specs.Prelude.{◌≡◌, ◌⊎◌, IfOk, IfErr, List, ℕ, Option};
ghost use Rattle.std.specs.BTreeMap.{get_by_text};
ghost use Rattle.serde_json.specs.View.{view};
ghost use Rattle.fm_layout.specs.Tree.{Tree};
ghost use Rattle.fm_ljson.specs.Built.{aligned, all_built, built, content_built, copied};
ghost use Rattle.fm_ljson.specs.Footprints.{AreFootprintsOf, IsFootprint, IsRefusedSo, IsWeighed};
ghost use Rattle.fm_ljson.specs.Known.{AreKnown};
ghost use Rattle.fm_ljson.specs.Refs.{ref_of};
ghost use Rattle.fm_ljson.specs.Views.{content_view};

use crate::footprint::Footprint;
use crate::known::Known;
use crate::node::{ContentRef, node_of};
use crate::refs::ref_of;
use fm_base::Refusal;
use serde_json::Value;
use std::alloc::Global;
use std::collections::BTreeMap;

/// The footprint of a node with so many levels from it down, whose refs are to these types. Nothing is built for it.
///
/// Refused: as building the node would be; `Memory`.
#[cycle(weigh)]
pub(crate) fn weigh(
    alloc: Global,
    value: &Value,
    levels: u64,
    types: &BTreeMap<String, Known<'_>>,
) -> Result<Footprint, Refusal>
    ensures { (trees : List ℕ → Option Tree) → AreKnown (get_by_text types.now) trees
        → IsWeighed result (built trees levels (view value.now)) }
{
    if levels == 0 {
        return Err(Refusal::BadShape(0));
    }
    match node_of(value) {
        Some(node) => match weigh_content(alloc, node.content, levels - 1, types) {
            Ok(footprint) => aligned(footprint, node.align),
            Err(refusal) => Err(refusal),
        },
        None => weigh_ref(value, types),
    }
}

#[cycle(weigh)]
fn weigh_content(
    alloc: Global,
    content: ContentRef<'_>,
    levels: u64,
    types: &BTreeMap<String, Known<'_>>,
) -> Result<Footprint, Refusal>
    ensures { (trees : List ℕ → Option Tree) → AreKnown (get_by_text types.now) trees
        → IsWeighed result (content_built (built trees levels) (content_view content.entry)) }
{
    match content {
        ContentRef::Value(kind, _) => Ok(Footprint::value(kind)),
        ContentRef::Padding(size) => Footprint::padding(size),
        ContentRef::Sequence(count, element) => match weigh(alloc, element, levels, types) {
            Ok(element) => Footprint::sequence(count, element),
            Err(refusal) => Err(refusal),
        },
        ContentRef::Struct(members) => match weigh_all(alloc, members, levels, types) {
            Ok(members) => Footprint::structure(&members),
            Err(refusal) => Err(refusal),
        },
        ContentRef::Union(members) => match weigh_all(alloc, members, levels, types) {
            Ok(members) => Ok(Footprint::union_of(&members)),
            Err(refusal) => Err(refusal),
        },
    }
}

/// The footprints of these nodes in order, or the first refusal.
#[cycle(weigh)]
fn weigh_all(
    alloc: Global,
    values: &[Value],
    levels: u64,
    types: &BTreeMap<String, Known<'_>>,
) -> Result<Vec<Footprint>, Refusal>
    ensures ok { IfOk result (λ v. (trees : List ℕ → Option Tree)
        → AreKnown (get_by_text types.now) trees
        → AreFootprintsOf v.items (all_built trees levels values.now)) }
    ensures err { IfErr result (λ r. (trees : List ℕ → Option Tree)
        → AreKnown (get_by_text types.now) trees
        → IsRefusedSo r (all_built trees levels values.now)) }
{
    let mut footprints = Vec::new(alloc);
    for value in values {
        let footprint = match weigh(alloc, value, levels, types) {
            Ok(footprint) => footprint,
            Err(refusal) => return Err(refusal),
        };
        let Ok(()) = footprints.push(footprint) else {
            return Err(Refusal::Memory);
        };
    }
    Ok(footprints)
}

/// The footprint of the type that a ref names.
fn weigh_ref(value: &Value, types: &BTreeMap<String, Known<'_>>) -> Result<Footprint, Refusal>
    ensures { (trees : List ℕ → Option Tree) → AreKnown (get_by_text types.now) trees
        → IsWeighed result (copied trees (ref_of (view value.now))) }
{
    let Some(reference) = ref_of(value) else {
        return Err(Refusal::BadShape(0));
    };
    match types.get(reference.of) {
        Some(known) => Ok(known.footprint),
        None => Err(Refusal::BadShape(0)),
    }
}

fn aligned(footprint: Footprint, align: Option<u64>) -> Result<Footprint, Refusal>
    ensures { (t : Tree) → IsFootprint footprint t → IsWeighed result (aligned align t) }
{
    match align {
        Some(n) => footprint.with_alignment(n),
        None => Ok(footprint),
    }
}
