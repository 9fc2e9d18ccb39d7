ghost use Rattle.std.specs.Prelude.{◌≤◌};

use crate::maker::Maker;
use std::collections::{BTreeMap, BTreeSet};

/// The names that lines have made and given back, the phase that they have come to, and how many passes they need.
#[derive(Drop)]
pub struct Names {
    pub makers: BTreeMap<String, Maker>,
    pub given_back: BTreeSet<String>,
    pub phase: u8,
    pub passes: u32,
    ghost few: { (1 ≤ passes) × (passes ≤ 17) },
}
