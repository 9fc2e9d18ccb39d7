ghost use Rattle.std.specs.Prelude.{◌≡◌, ◌⊎◌, IfErr, map};
ghost use Rattle.serde_json.specs.View.{view};
ghost use Rattle.fm_ljson.specs.Answer.{layout_of_data, layout_of_json, layout_of_text};
ghost use Rattle.fm_ljson.specs.Built.{OrMemory};
ghost use Rattle.fm_ljson.specs.Causes.{IsCause};
ghost use Rattle.fm_ljson.specs.Documents.{One, Two, document};

use crate::build::build;
use crate::document::{TextRef, text_of};
use crate::shape::check;
use crate::types::{build_all, check_sizes, parts_of};
use fm_base::Refusal;
use fm_layout::Layout;
use serde_json::Value;
use std::alloc::Global;
use std::collections::{BTreeMap, BTreeSet};

/// The most levels.
const LEVELS: u64 = 40;

/// The most nodes.
const NODES: u64 = 65_536;

/// The layout that a JSON text stands for. A root with the key `version` names types, and any other is a layout.
///
/// Refused, in this order: `BadJson` where the bytes have no reading as JSON, which nests at most 127 levels;
/// `BadShape` with the number of the first node that breaks a rule of the format, and where types are named, then with
/// that of the root of the first layout which is too large, its refs replaced; then the first refusal of a constructor
/// or of `with_alignment`, were the layouts built from the first to the last, each after what stands in it. `Memory` may
/// come at any time.
pub fn layout_from_json(alloc: Global, bytes: &[u8]) -> Result<Layout, Refusal>
    ensures read { (result ≡ Err Refusal.Memory) ⊎ (result ≡ layout_of_json bytes.now) }

    // Each refusal has its cause.
    ensures refused { IfErr result (λ refusal. IsCause bytes.now refusal) }
{
    match Value::from_slice(alloc, bytes) {
        Ok(value) => layout_of(alloc, &value),
        Err(error) => {
            if error.is_memory() {
                Err(Refusal::Memory)
            } else {
                Err(Refusal::BadJson)
            }
        }
    }
}

/// The layout of what was read: the shape of the whole text is checked before anything is built.
fn layout_of(alloc: Global, value: &Value) -> Result<Layout, Refusal>
    ensures { OrMemory result (layout_of_data (view value.now)) }
{
    match text_of(value) {
        TextRef::One(value) => layout_of_one(alloc, value),
        TextRef::Two(document) => layout_of_two(alloc, document.types, document.layout),
        TextRef::Neither => Err(Refusal::BadShape(0)),
    }
}

/// The layout of a text that names no types.
fn layout_of_one(alloc: Global, value: &Value) -> Result<Layout, Refusal>
    ensures { OrMemory result (layout_of_text (One (view value.now))) }
{
    match check(value, LEVELS, &BTreeSet::new(alloc), NODES, 0) {
        Ok(_) => build(alloc, value, LEVELS, &BTreeMap::new(alloc), 0),
        Err(node) => Err(Refusal::BadShape(node)),
    }
}

/// The layout of a text that names these types.
fn layout_of_two(alloc: Global, types: &[Value], layout: &Value) -> Result<Layout, Refusal>
    ensures { OrMemory result
        (layout_of_text (Two (document (view layout.now) (map view types.now)))) }
{
    let parts = parts_of(alloc, types, layout)?;
    check_sizes(alloc, &parts, layout)?;
    build_all(alloc, &parts, layout)
}
