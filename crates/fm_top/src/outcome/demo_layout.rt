ghost use Rattle.std.specs.Prelude.{◌≡◌, IfErr, IfOk};
ghost use Rattle.fm_top_demo.specs.Records.{made_layout};

use fm_base::Refusal;
use fm_lanes::ValueKind;
use fm_layout::Layout;
use fm_top_pooled::unless_wanting;
use std::alloc::{AllocError, Global};

/// The layout of the records that are made: an int `id`, a short `kind`, two bytes of padding and a long `amount`.
pub fn demo_layout(alloc: Global) -> Result<Layout, AllocError>
    ensures { IfOk result (λ layout. layout ≡ made_layout) }
{
    // A value's name, the padding and the struct are none that a layout refuses.
    unless_wanting(make_structure(alloc))
}

/// The same. Refused: `Memory`.
fn make_structure(alloc: Global) -> Result<Layout, Refusal>
    ensures is { IfOk result (λ layout. layout ≡ made_layout) }
    ensures memory { IfErr result (λ refusal. refusal ≡ Refusal.Memory) }
{
    let id = Layout::value(ValueKind::Int).with_name(alloc, "id")?;
    let kind = Layout::value(ValueKind::Short).with_name(alloc, "kind")?;
    let gap = Layout::padding(2)?;
    let amount = Layout::value(ValueKind::Long).with_name(alloc, "amount")?;
    match vec![in alloc; id, kind, gap, amount] {
        Ok(members) => Layout::structure(members),
        Err(_) => Err(Refusal::Memory),
    }
}
