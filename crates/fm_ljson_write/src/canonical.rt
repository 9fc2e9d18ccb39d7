ghost use Rattle.std.specs.Prelude.{◌≡◌, codes, IfOk, Some};
ghost use Rattle.serde_json.specs.View.{view, items_view};
ghost use Rattle.fm_layout.specs.Parts.{form_of, count_of, element_of};
ghost use Rattle.fm_layout.specs.Size.{greatest_alignment};
ghost use Rattle.fm_layout.specs.Tree.{label_of};
ghost use Rattle.fm_ljson_write.specs.Canonical.{json_of as canonical, document_json as document, all_json};
ghost use Rattle.fm_lanes.specs.Named.{kind_text};
ghost use Rattle.fm_ljson_write.specs.Groups.{group_json as group_data, members_of};

use crate::members::{head_of, put_order};
use fm_lanes::{Order, ValueKind};
use fm_layout::{Form, Layout};
use serde_json::{Map, Value, put};
use std::alloc::{AllocError, Global};

/// The JSON that names no types, and has the canonical JSON of the layout.
pub fn document_json(alloc: Global, layout: &Layout) -> Result<Value, AllocError>
    ensures { IfOk result (λ value. view value ≡ document layout.now) }
{
    let mut members = Map::new(alloc);
    put(&mut members, alloc, "layout", json_of(alloc, layout)?)?;
    put(&mut members, alloc, "types", Value::Array(Vec::new(alloc)))?;
    put(&mut members, alloc, "version", Value::from(2u64))?;
    Ok(Value::Object(members))
}

/// The canonical JSON of the layout.
#[cycle(writing)]
pub fn json_of(alloc: Global, layout: &Layout) -> Result<Value, AllocError>
    ensures { IfOk result (λ value. view value ≡ canonical layout.now) }
{
    match layout.form() {
        Form::Value(kind, order) => value_json(alloc, layout, kind, order),
        Form::Padding => padding_json(alloc, layout),
        Form::Sequence(count) => sequence_json(alloc, layout, count),
        Form::Struct(count) => group_json(alloc, "struct", layout, count),
        Form::Union(count) => group_json(alloc, "union", layout, count),
    }
}

fn value_json(
    alloc: Global,
    layout: &Layout,
    kind: ValueKind,
    order: Order,
) -> Result<Value, AllocError>
    requires { form_of layout.now ≡ Form.Value kind order }
    ensures { IfOk result (λ value. view value ≡ canonical layout.now) }
{
    let mut members = head_of(alloc, kind.name(), u64::from(kind.width()), layout)?;
    put_order(alloc, &mut members, order)?;
    Ok(Value::Object(members))
}

fn padding_json(alloc: Global, layout: &Layout) -> Result<Value, AllocError>
    requires { form_of layout.now ≡ Form.Padding }
    ensures { IfOk result (λ value. view value ≡ canonical layout.now) }
{
    let mut members = head_of(alloc, "padding", 1, layout)?;
    put(&mut members, alloc, "size", Value::from(layout.size()))?;
    Ok(Value::Object(members))
}

#[cycle(writing)]
fn sequence_json(alloc: Global, layout: &Layout, count: u64) -> Result<Value, AllocError>
    requires { form_of layout.now ≡ Form.Sequence count }
    ensures { IfOk result (λ value. view value ≡ canonical layout.now) }
{
    let Some(element) = layout.element() else {
        return Ok(Value::Null);
    };
    let mut members = head_of(alloc, "sequence", element.alignment(), layout)?;
    put(&mut members, alloc, "count", Value::from(count))?;
    put(&mut members, alloc, "element", json_of(alloc, element)?)?;
    Ok(Value::Object(members))
}

/// The JSON of a struct or union.
#[cycle(writing)]
fn group_json(alloc: Global, word: &str, layout: &Layout, count: u64) -> Result<Value, AllocError>
    requires { count ≡ count_of (members_of layout.now) }
    ensures { IfOk result (λ value.
        view value ≡ group_data word.now (members_of layout.now) (label_of layout.now)) }
{
    let mut members = head_of(alloc, word, greatest_of(layout, count), layout)?;
    let items = items_of(alloc, layout, count)?;
    put(&mut members, alloc, "members", Value::Array(items))?;
    Ok(Value::Object(members))
}

/// The JSON of each member of a struct or union, in their order.
#[cycle(writing)]
fn items_of(alloc: Global, layout: &Layout, count: u64) -> Result<Vec<Value>, AllocError>
    requires { count ≡ count_of (members_of layout.now) }
    ensures { IfOk result (λ items. items_view items.items ≡ all_json (members_of layout.now)) }
{
    let mut items = Vec::new(alloc);
    for i in 0..count {
        let Some(member) = layout.member(i) else {
            return Ok(items);
        };
        items.push(json_of(alloc, member)?)?;
    }
    Ok(items)
}

/// The greatest alignment of a struct's or union's members, 1 without any.
fn greatest_of(layout: &Layout, count: u64) -> u64
    requires { count ≡ count_of (members_of layout.now) }
    ensures { result ≡ greatest_alignment (members_of layout.now) }
{
    let mut greatest = 1;
    for i in 0..count {
        let Some(member) = layout.member(i) else {
            return greatest;
        };
        if greatest < member.alignment() {
            greatest = member.alignment();
        }
    }
    greatest
}
