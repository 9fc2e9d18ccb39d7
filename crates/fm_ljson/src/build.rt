ghost use Rattle.std.specs.Prelude.{◌≡◌, ◌⊎◌, option_copied, IfOk, IfErr, List, ℕ, Option};
ghost use Rattle.std.specs.BTreeMap.{get_by_text};
ghost use Rattle.serde_json.specs.View.{view};
ghost use Rattle.fm_layout.specs.Named.{IsNameIfAny};
ghost use Rattle.fm_layout.specs.Parts.{IsPadding};
ghost use Rattle.fm_layout.specs.Tree.{Tree};
ghost use Rattle.fm_layout.specs.Views.{trees as trees_of};
ghost use Rattle.fm_ljson.specs.Built.{aligned, all_built, built, content_built, copied, finished, named, OrMemory};
ghost use Rattle.fm_ljson.specs.Known.{AreKnown, CanBuild, earlier};
ghost use Rattle.fm_ljson.specs.Refs.{ref_of};
ghost use Rattle.fm_ljson.specs.Views.{content_view, MayBeAligned};

use crate::known::{Known, LEVELS, last_of};
use crate::node::{ContentRef, node_of};
use crate::refs::ref_of;
use fm_base::Refusal;
use fm_layout::Layout;
use serde_json::Value;
use std::alloc::Global;
use std::collections::BTreeMap;

/// The layout of a node with so many levels from it down, whose refs are to the first of these types, so many. What a
/// ref names is built where the ref stands.
///
/// Refused: as the first constructor refuses, parts before their node, from the first to the last; `Memory`. No node
/// here breaks a rule; one that did would be `BadShape`.
#[cycle(build)]
pub(crate) fn build(
    alloc: Global,
    value: &Value,
    levels: u64,
    types: &BTreeMap<String, Known<'_>>,
    before: u64,
) -> Result<Layout, Refusal>
    requires { CanBuild (get_by_text types.now) }
    ensures { (trees : List ℕ → Option Tree) → AreKnown (get_by_text types.now) trees
        → OrMemory result
        (built (earlier before (get_by_text types.now) trees) levels (view value.now)) }
{
    if levels == 0 {
        return Err(Refusal::BadShape(0));
    }
    match node_of(value) {
        Some(node) => match build_content(alloc, node.content, levels - 1, types, before) {
            Ok(layout) => finish(alloc, layout, node.align, node.name),
            Err(refusal) => Err(refusal),
        },
        None => copy_of(alloc, value, types, before),
    }
}

#[cycle(build)]
fn build_content(
    alloc: Global,
    content: ContentRef<'_>,
    levels: u64,
    types: &BTreeMap<String, Known<'_>>,
    before: u64,
) -> Result<Layout, Refusal>
    requires { CanBuild (get_by_text types.now) }
    ensures { (trees : List ℕ → Option Tree) → AreKnown (get_by_text types.now) trees
        → OrMemory result
        (content_built (built (earlier before (get_by_text types.now) trees) levels)
        (content_view content.entry)) }
{
    match content {
        ContentRef::Value(kind, order) => Ok(Layout::value(kind).with_order(order)),
        ContentRef::Padding(size) => Layout::padding(size),
        ContentRef::Sequence(count, element) => match build(alloc, element, levels, types, before) {
            Ok(element) => Layout::sequence(alloc, count, element),
            Err(refusal) => Err(refusal),
        },
        ContentRef::Struct(members) => match build_all(alloc, members, levels, types, before) {
            Ok(members) => Layout::structure(members),
            Err(refusal) => Err(refusal),
        },
        ContentRef::Union(members) => match build_all(alloc, members, levels, types, before) {
            Ok(members) => Ok(Layout::union_of(members)),
            Err(refusal) => Err(refusal),
        },
    }
}

/// The layouts of these nodes in order, or the first refusal.
#[cycle(build)]
fn build_all(
    alloc: Global,
    values: &[Value],
    levels: u64,
    types: &BTreeMap<String, Known<'_>>,
    before: u64,
) -> Result<Vec<Layout>, Refusal>
    requires { CanBuild (get_by_text types.now) }
    ensures ok { IfOk result (λ v. (trees : List ℕ → Option Tree)
        → AreKnown (get_by_text types.now) trees
        → Ok (trees_of v.items)
        ≡ all_built (earlier before (get_by_text types.now) trees) levels values.now) }
    ensures err { IfErr result (λ r. (trees : List ℕ → Option Tree)
        → AreKnown (get_by_text types.now) trees
        → (r ≡ Refusal.Memory)
        ⊎ (Err r
        ≡ all_built (earlier before (get_by_text types.now) trees) levels values.now)) }
{
    let mut layouts = Vec::new(alloc);
    for value in values {
        let layout = match build(alloc, value, levels, types, before) {
            Ok(layout) => layout,
            Err(refusal) => return Err(refusal),
        };
        let Ok(()) = layouts.push(layout) else {
            return Err(Refusal::Memory);
        };
    }
    Ok(layouts)
}

/// The layout of the type that a ref names, under the ref's name, if it has one.
#[cycle(build)]
fn copy_of(
    alloc: Global,
    value: &Value,
    types: &BTreeMap<String, Known<'_>>,
    before: u64,
) -> Result<Layout, Refusal>
    requires { CanBuild (get_by_text types.now) }
    ensures { (trees : List ℕ → Option Tree) → AreKnown (get_by_text types.now) trees
        → OrMemory result
        (copied (earlier before (get_by_text types.now) trees) (ref_of (view value.now))) }
{
    let Some(reference) = ref_of(value) else {
        return Err(Refusal::BadShape(0));
    };
    let Some(known) = types.get(reference.of) else {
        return Err(Refusal::BadShape(0));
    };
    if known.place >= before {
        return Err(Refusal::BadShape(0));
    }
    match build(alloc, known.layout, LEVELS, types, known.before) {
        Ok(layout) => named(alloc, layout, last_of(reference.name, known.name)),
        Err(refusal) => Err(refusal),
    }
}

/// The layout with this alignment and this name.
fn finish(
    alloc: Global,
    layout: Layout,
    align: Option<u64>,
    name: Option<&str>,
) -> Result<Layout, Refusal>
    requires aligned { MayBeAligned align (IsPadding layout) }
    requires named { IsNameIfAny (option_copied name) }
    ensures { OrMemory result (finished align (option_copied name.entry) layout) }
{
    match aligned(layout, align) {
        Ok(layout) => named(alloc, layout, name),
        Err(refusal) => Err(refusal),
    }
}

fn aligned(layout: Layout, align: Option<u64>) -> Result<Layout, Refusal>
    requires { MayBeAligned align (IsPadding layout) }
    ensures { result ≡ aligned align layout }
{
    match align {
        Some(n) => layout.with_alignment(n),
        None => Ok(layout),
    }
}

fn named(alloc: Global, layout: Layout, name: Option<&str>) -> Result<Layout, Refusal>
    requires { IsNameIfAny (option_copied name) }
    ensures { OrMemory result (Ok (named (option_copied name.entry) layout)) }
{
    match name {
        Some(name) => layout.with_name(alloc, name),
        None => Ok(layout),
    }
}
