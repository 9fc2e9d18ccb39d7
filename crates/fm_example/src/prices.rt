ghost use Rattle.std.specs.Prelude.{◌≡◌, None, [], length};
ghost use Rattle.fm_arena.specs.Lasting.{SamePool};
ghost use Rattle.fm_rule_calls.specs.Told.{view_of_pass};
ghost use Rattle.fm_segment.specs.Access.{IsKnown};

use fm_arena::{Shared, keeps_its_pool};
use fm_base::Refusal;
use fm_handle::VarHandle;
use fm_lanes::{Value, ValueKind};
use fm_segment::Segment;
use std::sync::Wait;

/// The sales of a day.
pub const SALES: u64 = 4;

/// The bytes of a sale.
pub const SALE_SIZE: u64 = 16;

/// Puts a price into each of the sales, which stand side by side.
pub fn put_prices<R: Wait>(
    rt: &R,
    price: &VarHandle,
    ours: &mut Shared,
    sales: &Segment,
) -> Result<(), Refusal>
    requires closed { length price.now.dims ≡ 0 }
    requires long { price.now.value.kind ≡ ValueKind.Long }
    requires outside { ours.old.inside ≡ None }
    requires known { IsKnown (view_of_pass ours.old) sales.now }
    ensures outside { ours.new.inside ≡ None }
    ensures known { IsKnown (view_of_pass ours.new) sales.now }
    ensures same { SamePool ours.old ours.new }
{
    keeps_its_pool();
    for sale in 0..SALES {
        price.set(rt, ours, sales, SALE_SIZE * sale, &[], Value::Long(250))?;
    }
    Ok(())
}

/// Adds up the prices of the sales.
pub fn add_up(price: &VarHandle, ours: &mut Shared, sales: &Segment) -> Result<i64, Refusal>
    requires closed { length price.now.dims ≡ 0 }
    requires outside { ours.old.inside ≡ None }
    requires known { IsKnown (view_of_pass ours.old) sales.now }
    ensures outside { ours.new.inside ≡ None }
    ensures known { IsKnown (view_of_pass ours.new) sales.now }
    ensures same { SamePool ours.old ours.new }
{
    keeps_its_pool();
    let mut total: i64 = 0;
    for sale in 0..SALES {
        if let Value::Long(found) = price.get(ours, sales, SALE_SIZE * sale, &[])? {
            total = total.wrapping_add(found);
        }
    }
    Ok(total)
}
