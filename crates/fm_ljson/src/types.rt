ghost use Rattle.std.specs.Prelude.{◌≡◌, ◌⊎◌, ◌≤◌, IfOk, IfErr, OnOk, List, ℕ, map, None, option_map};
ghost use Rattle.std.specs.BTreeMap.{get_by_text};
ghost use Rattle.std.specs.BTreeSet.{contains_text};
ghost use Rattle.serde_json.specs.View.{view};
ghost use Rattle.fm_ljson.specs.Built.{built_behind, OrMemory};
ghost use Rattle.fm_ljson.specs.Documents.{first_broken_of, new_entry};
ghost use Rattle.fm_ljson.specs.Known.{AreNew};
ghost use Rattle.fm_ljson.specs.Loops.{AreParts, IsBadShape, IsBrokenEntry, IsSoundEntry};
ghost use Rattle.fm_ljson.specs.Measured.{large_in};
ghost use Rattle.fm_ljson.specs.Refs.{also_known, knowing, none_known, unknown};
ghost use Rattle.fm_ljson.specs.Views.{entry_view, numbered_view, parts_view};

use crate::build::build;
use crate::document::{EntryRef, entry_of};
use crate::known::{LEVELS, know};
use crate::measure::measure;
use crate::shape::check;
use fm_base::Refusal;
use fm_layout::Layout;
use serde_json::Value;
use std::alloc::{AllocError, Global};
use std::collections::{BTreeMap, BTreeSet};

/// The number that no node has: no text is so long.
const NODES: u64 = u64::MAX;

/// An entry of `types`, and the number of its layout's root.
#[derive(Clone, Copy)]
pub(crate) struct NumberedRef<'v> {
    pub(crate) name: &'v str,
    pub(crate) layout: &'v Value,
    pub(crate) number: u64,
}

/// The entries of `types`, and the number of the root of `layout`.
#[derive(Drop)]
pub(crate) struct PartsRef<'v> {
    pub(crate) entries: Vec<NumberedRef<'v>>,
    pub(crate) number: u64,
}

/// What the entries of `types` define, and the numbers of the layouts' roots.
///
/// Refused: `BadShape` with the number of the first node that breaks a written rule; `Memory`.
pub(crate) fn parts_of<'v>(
    alloc: Global,
    types: &'v [Value],
    layout: &'v Value,
) -> Result<PartsRef<'v>, Refusal>
    ensures sound { IfOk result (λ parts.
        AreParts (map view types.now) (view layout.now) (parts_view parts)) }
    ensures broken { IfErr result (λ r.
        IsBadShape (first_broken_of none_known 1 (map view types.now) (view layout.now)) r) }
{
    let mut names = BTreeSet::new(alloc);
    let mut entries = Vec::new(alloc);
    let mut number = 1;
    for value in types {
        let (entry, next) = match check_entry(value, &names, number) {
            Ok(checked) => checked,
            Err(node) => return Err(Refusal::BadShape(node)),
        };
        note(alloc, &mut names, entry.name)?;
        let Ok(()) = entries.push(entry) else {
            return Err(Refusal::Memory);
        };
        number = next;
    }
    match check(layout, LEVELS, &names, NODES, number) {
        Ok(_) => Ok(PartsRef { entries, number }),
        Err(node) => Err(Refusal::BadShape(node)),
    }
}

/// The entry that is node `number` and the number of the node behind its layout, or that of the first node which
/// breaks a rule.
fn check_entry<'v>(
    value: &'v Value,
    names: &BTreeSet<String>,
    number: u64,
) -> Result<(NumberedRef<'v>, u64), u64>
    ensures sound { IfOk result (λ checked. IsSoundEntry (contains_text names.now) number
        (view value.now) (numbered_view checked.0) checked.1) }
    ensures broken { IfErr result (λ n.
        IsBrokenEntry (contains_text names.now) number (view value.now) n) }
{
    let Some(entry) = new_entry(value, names, number) else {
        return Err(number);
    };
    match check(entry.layout, LEVELS, names, NODES, number + 1) {
        Ok(next) => Ok((
            NumberedRef {
                name: entry.name,
                layout: entry.layout,
                number: number + 1,
            },
            next,
        )),
        Err(node) => Err(node),
    }
}

/// What a value says as an entry that is node `number`; nothing where it breaks a rule, as by a name that is defined.
fn new_entry<'v>(value: &'v Value, names: &BTreeSet<String>, number: u64) -> Option<EntryRef<'v>>
    ensures { option_map entry_view result
        ≡ new_entry (contains_text names.now) number (view value.now) }
{
    if number >= NODES {
        return None;
    }
    match entry_of(value) {
        Some(entry) => {
            if names.contains(entry.name) {
                None
            } else {
                Some(entry)
            }
        }
        None => None,
    }
}

/// Takes a name in.
fn note(alloc: Global, names: &mut BTreeSet<String>, name: &str) -> Result<(), AllocError>
    ensures { OnOk result ((other : List ℕ) → contains_text names.new other
        ≡ also_known name.now (contains_text names.old) other) }
{
    let key = String::from_str(alloc, name)?;
    names.insert(key)?;
    Ok(())
}

/// Whether no layout is too large, its refs replaced.
///
/// Refused: `BadShape` with the number of the root of the first that is; `Memory`.
pub(crate) fn check_sizes(
    alloc: Global,
    parts: &PartsRef<'_>,
    layout: &Value,
) -> Result<(), Refusal>
    ensures small { IfOk result (λ _. large_in (parts_view parts.now) (view layout.now) ≡ None) }
    ensures large { IfErr result (λ r.
        IsBadShape (large_in (parts_view parts.now) (view layout.now)) r) }
{
    let mut known = BTreeMap::new(alloc);
    for entry in &parts.entries {
        let Some(measure) = measure(entry.layout, LEVELS, &known) else {
            return Err(Refusal::BadShape(entry.number));
        };
        define(alloc, &mut known, entry.name, measure)?;
    }
    match measure(layout, LEVELS, &known) {
        Some(_) => Ok(()),
        None => Err(Refusal::BadShape(parts.number)),
    }
}

/// The layout that may refer to the types. These are not built, but for what it refers to, where it does.
///
/// Refused: as the first constructor would refuse, were each type built behind the earlier ones, and the layout last;
/// `Memory`.
pub(crate) fn build_all(
    alloc: Global,
    parts: &PartsRef<'_>,
    layout: &Value,
) -> Result<Layout, Refusal>
    requires { AreNew none_known (parts_view parts.now).entries }
    ensures { OrMemory result
        (built_behind unknown (parts_view parts.now).entries (view layout.now)) }
{
    let mut types = BTreeMap::new(alloc);
    for (place, entry) in parts.entries.iter().enumerate() {
        let known = know(alloc, entry.layout, &types, place as u64)?;
        define(alloc, &mut types, entry.name, known)?;
    }
    build(alloc, layout, LEVELS, &types, parts.entries.len() as u64)
}

/// Takes in what is known of a name.
fn define<T: Drop>(
    alloc: Global,
    known: &mut BTreeMap<String, T>,
    name: &str,
    value: T,
) -> Result<(), AllocError>
    ensures { OnOk result ((other : List ℕ) → get_by_text known.new other
        ≡ knowing name.now value (get_by_text known.old) other) }
{
    let key = String::from_str(alloc, name)?;
    known.insert(key, value)?;
    Ok(())
}
