ghost use Rattle.std.specs.Prelude.{◌≡◌, ◌≤◌};
ghost use Rattle.std.specs.BTreeMap.{get_by_text};
ghost use Rattle.serde_json.specs.View.{view};
ghost use Rattle.fm_ljson.specs.Loops.{all_parts, IsMeasured};
ghost use Rattle.fm_ljson.specs.Measured.{measure as measure_with, ref_measured, single};
ghost use Rattle.fm_ljson.specs.Nodes.{most_levels, most_nodes};
ghost use Rattle.fm_ljson.specs.Refs.{ref_of};

use crate::node::{node_of, parts_of};
use crate::refs::ref_of;
use serde_json::Value;
use std::collections::BTreeMap;

/// The most levels of a layout, and the most nodes.
const LEVELS: u64 = 40;

const NODES: u64 = 65_536;

/// How many levels and nodes a layout has, its refs replaced by what they stand for.
#[derive(Clone, Copy)]
pub struct Extent {
    pub levels: u64,
    pub nodes: u64,
}

/// The measure of a layout with so many written levels, where refs stand for layouts that measure so; nothing where it
/// is too large. Nothing is built for it, and a ref is as quick as a value.
#[cycle(measure)]
pub(crate) fn measure(
    value: &Value,
    levels: u64,
    known: &BTreeMap<String, Extent>,
) -> Option<Extent>
    ensures { IsMeasured result (measure_with (get_by_text known.now) levels (view value.now)) }
{
    if levels == 0 {
        return Some(Extent {
            levels: 1,
            nodes: 1,
        });
    }
    match node_of(value) {
        Some(node) => match measure_all(parts_of(node.content), levels - 1, known) {
            Some(parts) => within(Extent {
                levels: parts.levels + 1,
                nodes: parts.nodes + 1,
            }),
            None => None,
        },
        None => within(measure_ref(value, known)),
    }
}

/// That of these parts, side by side.
#[cycle(measure)]
fn measure_all(values: &[Value], levels: u64, known: &BTreeMap<String, Extent>) -> Option<Extent>
    ensures { IsMeasured result (all_parts (get_by_text known.now) levels values.now) }
{
    let mut all = Extent {
        levels: 0,
        nodes: 0,
    };
    for value in values {
        let Some(one) = measure(value, levels, known) else {
            return None;
        };
        let Some(more) = within(Extent {
            levels: all.levels.max(one.levels),
            nodes: all.nodes + one.nodes,
        }) else {
            return None;
        };
        all = more;
    }
    Some(all)
}

/// That of what a ref stands for.
fn measure_ref(value: &Value, known: &BTreeMap<String, Extent>) -> Extent
    ensures { result ≡ ref_measured (get_by_text known.now) (ref_of (view value.now)) }
{
    match ref_of(value) {
        Some(reference) => match known.get(reference.of) {
            Some(measure) => *measure,
            None => Extent {
                levels: 1,
                nodes: 1,
            },
        },
        None => Extent {
            levels: 1,
            nodes: 1,
        },
    }
}

/// The measure, unless it is too large.
fn within(measure: Extent) -> Option<Extent>
    ensures { IsMeasured result measure }
{
    if measure.levels <= LEVELS && measure.nodes <= NODES {
        Some(measure)
    } else {
        None
    }
}
