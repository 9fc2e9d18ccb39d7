ghost use Rattle.std.specs.Prelude.{◌≡◌, ◌≤◌, IfOk, IfErr};
ghost use Rattle.std.specs.BTreeSet.{contains_text};
ghost use Rattle.serde_json.specs.View.{view};
ghost use Rattle.fm_ljson.specs.Counted.{all_nodes, AreSound, IsBroken};
ghost use Rattle.fm_ljson.specs.Nodes.{nodes};
ghost use Rattle.fm_ljson.specs.Refs.{is_known_ref, ref_of};

use crate::node::{node_of, parts_of};
use crate::refs::ref_of;
use serde_json::Value;
use std::collections::BTreeSet;

/// The number after those of the nodes from this one down, which is `number` itself, with so many levels; or that of
/// the first which breaks a rule. A ref is to one of these names, and `most` is the number that none may have.
#[cycle(shape)]
pub(crate) fn check(
    value: &Value,
    levels: u64,
    names: &BTreeSet<String>,
    most: u64,
    number: u64,
) -> Result<u64, u64>
    requires { number ≤ most }
    ensures sound { IfOk result (λ next.
        AreSound (contains_text names.now) most number next (nodes levels (view value.now))) }
    ensures broken { IfErr result (λ n.
        IsBroken (contains_text names.now) most number n (nodes levels (view value.now))) }
{
    if number >= most {
        return Err(number);
    }
    if levels == 0 {
        return Err(number);
    }
    match node_of(value) {
        Some(node) => check_all(parts_of(node.content), levels - 1, names, most, number + 1),
        None => {
            if is_known_ref(value, names) {
                Ok(number + 1)
            } else {
                Err(number)
            }
        }
    }
}

/// The same of these nodes, one after the other, each with so many levels.
#[cycle(shape)]
fn check_all(
    values: &[Value],
    levels: u64,
    names: &BTreeSet<String>,
    most: u64,
    mut number: u64,
) -> Result<u64, u64>
    requires { number ≤ most }
    ensures sound { IfOk result (λ next.
        AreSound (contains_text names.now) most number next (all_nodes levels values.now)) }
    ensures broken { IfErr result (λ n.
        IsBroken (contains_text names.now) most number n (all_nodes levels values.now)) }
{
    for value in values {
        match check(value, levels, names, most, number) {
            Ok(next) => number = next,
            Err(broken) => return Err(broken),
        }
    }
    Ok(number)
}

/// Whether a value is a ref to one of these names.
fn is_known_ref(value: &Value, names: &BTreeSet<String>) -> bool
    ensures { result ≡ is_known_ref (contains_text names.now) (ref_of (view value.now)) }
{
    match ref_of(value) {
        Some(reference) => names.contains(reference.of),
        None => false,
    }
}
