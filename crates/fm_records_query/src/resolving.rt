ghost use Rattle.std.specs.Prelude.{◌≡◌, IfOk, IfErr};
ghost use Rattle.std.specs.List.{AllZip};
ghost use Rattle.fm_records_query.specs.Parsed.{IsFirstRefused, OrMemory, first_open, is_open};

use crate::condition::Condition;
use crate::item::{Asked, Item};
use crate::printing::{condition_text, item_text};
use crate::pushing::with_more;
use crate::syntax::{ConditionSyntax, ItemSyntax};
use fm_base::Refusal;
use fm_layout::Layout;
use fm_path::{PathStep, resolve};
use std::alloc::Global;

/// What a query's text writes, and what that comes to over a layout.
pub trait Written<F> {
    ghost use Rattle.std.specs.Prelude.{IfOk, IfErr};
    ghost use Rattle.fm_base.specs.declared.refusal.Refusal.{Refusal};
    ghost use Rattle.fm_layout.specs.Tree.{Tree};
    ghost use Rattle.fm_records_query.specs.Parsed.{OrMemory};

    /// Whether it comes to this.
    ghost is_of: { Tree → Self → F → Type 0 };

    /// Whether it is refused so.
    ghost is_refused: { Tree → Self → Refusal → Type 0 };

    /// It with its path resolved.
    fn resolved(&self, alloc: Global, layout: &Layout) -> Result<F, Refusal>
        ensures resolved { IfOk result (is_of layout.now self.now) }
        ensures refused { IfErr result (OrMemory (is_refused layout.now self.now)) };
}

/// All of these with their paths resolved, or the first refusal.
pub fn resolve_all<W: Written<F>, F: Drop>(
    alloc: Global,
    layout: &Layout,
    written: &[W],
) -> Result<Vec<F>, Refusal>
    ensures resolved { IfOk result (λ found. AllZip (W.is_of layout.now) written.now found.items) }
    ensures refused { IfErr result (OrMemory
        (IsFirstRefused (λ one. (f : F) × W.is_of layout.now one f) (W.is_refused layout.now) written.now)) }
{
    let mut found = Vec::new(alloc);
    for (k, one) in written.iter().enumerate() {
        let one = one.resolved(alloc, layout)?;
        found = with_more(found, one)?;
    }
    Ok(found)
}

impl Written<Item> for ItemSyntax {
    ghost use Rattle.fm_records_query.specs.Parsed.{IsItemOf, IsItemRefused};

    ghost is_of = { IsItemOf };

    ghost is_refused = { IsItemRefused };

    fn resolved(&self, alloc: Global, layout: &Layout) -> Result<Item, Refusal> {
        let text = item_text(alloc, self)?;
        let asked = match self {
            ItemSyntax::Count => Asked::Count,
            ItemSyntax::Of(fold, path) => {
                Asked::Of(*fold, resolve(alloc, layout, path.as_slice())?)
            }
        };
        Ok(Item { text, asked })
    }
}

impl Written<Condition> for ConditionSyntax {
    ghost use Rattle.fm_records_query.specs.Parsed.{IsConditionOf, IsConditionRefused};

    ghost is_of = { IsConditionOf };

    ghost is_refused = { IsConditionRefused };

    /// A path that leaves an index open is refused after all its other refusals.
    fn resolved(&self, alloc: Global, layout: &Layout) -> Result<Condition, Refusal> {
        let path = resolve(alloc, layout, self.path.as_slice())?;
        match first_open(self.path.as_slice()) {
            Some(step) => Err(Refusal::StillOpen(step)),
            None => Ok(Condition {
                text: condition_text(alloc, self)?,
                path,
                operator: self.operator,
                literal: self.literal,
            }),
        }
    }
}

/// The first step that leaves an index open.
fn first_open(path: &[PathStep]) -> Option<u64>
    ensures { result ≡ first_open path.now }
{
    for (k, step) in path.iter().enumerate() {
        if is_open(step) {
            return Some(k as u64);
        }
    }
    None
}

fn is_open(step: &PathStep) -> bool
    ensures { result ≡ is_open step.now }
{
    match step {
        PathStep::Each | PathStep::EachFrom(_, _) => true,
        PathStep::Name(_) | PathStep::Group(_) | PathStep::At(_) => false,
    }
}
