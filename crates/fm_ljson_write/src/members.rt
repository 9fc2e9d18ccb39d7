ghost use Rattle.std.specs.Prelude.{◌≡◌, codes, IfOk, OnOk, option_map, option_copied};
ghost use Rattle.serde_json.specs.Data.{string, put as with_member};
ghost use Rattle.serde_json.specs.View.{view, members_view};
ghost use Rattle.fm_layout.specs.Tree.{label_of};
ghost use Rattle.fm_ljson_write.specs.Canonical.{align_of, name_of, order_of};
ghost use Rattle.fm_ljson_write.specs.Putting.{head, put_any};

use fm_lanes::Order;
use fm_layout::Layout;
use serde_json::{Map, Value, put};
use std::alloc::{AllocError, Global};

/// The type of a layout, its name, and its alignment where it isn't the one that the constructor gives.
pub fn head_of(
    alloc: Global,
    word: &str,
    given: u64,
    layout: &Layout,
) -> Result<Map<String, Value>, AllocError>
    ensures { IfOk result (λ members. members_view members.entries ≡ head word.now given (label_of layout.now)) }
{
    let mut members = Map::new(alloc);
    put(
        &mut members,
        alloc,
        "type",
        Value::try_from_str(alloc, word)?,
    )?;
    put_name(alloc, &mut members, layout)?;
    put_alignment(alloc, &mut members, given, layout)?;
    Ok(members)
}

fn put_name(
    alloc: Global,
    members: &mut Map<String, Value>,
    layout: &Layout,
) -> Result<(), AllocError>
    ensures { OnOk result (members_view members.new.entries
        ≡ put_any (codes "name") (name_of (label_of layout.now)) (members_view members.old.entries)) }
{
    match layout.name() {
        None => Ok(()),
        Some(name) => put(members, alloc, "name", Value::try_from_str(alloc, name)?),
    }
}

fn put_alignment(
    alloc: Global,
    members: &mut Map<String, Value>,
    given: u64,
    layout: &Layout,
) -> Result<(), AllocError>
    ensures { OnOk result (members_view members.new.entries
        ≡ put_any (codes "align") (align_of given (label_of layout.now)) (members_view members.old.entries)) }
{
    let alignment = layout.alignment();
    if alignment == given {
        Ok(())
    } else {
        put(members, alloc, "align", Value::from(alignment))
    }
}

/// The byte order, where it is big.
pub fn put_order(
    alloc: Global,
    members: &mut Map<String, Value>,
    order: Order,
) -> Result<(), AllocError>
    ensures { OnOk result (members_view members.new.entries
        ≡ put_any (codes "order") (order_of order) (members_view members.old.entries)) }
{
    match order {
        Order::Little => Ok(()),
        Order::Big => put(members, alloc, "order", Value::try_from_str(alloc, "big")?),
    }
}
