ghost use Rattle.std.specs.Prelude.{◌≡◌, ◌≤◌, ◌<◌, ◌*◌, ◌^◌, ◌++◌, length, codes, decimal, IfOk, IfErr, OnOk, Some};
ghost use Rattle.std.specs.String.{string_bytes};
ghost use Rattle.fm_layout.specs.Parts.{form_of};
ghost use Rattle.fm_path_meaning.specs.Follow.{members_of, count_in};
ghost use Rattle.fm_path_text.specs.Grammar.{piece_of};
ghost use Rattle.fm_layout.specs.Tree.{name_of};
ghost use Rattle.fm_path.specs.Listing.{value_text, list_text};
ghost use Rattle.fm_path.specs.Listed.{Adds, Goes, shown, listed, extent_of};
ghost use Rattle.fm_path.specs.Noted.{is_new, Notes, step_by};

use fm_base::Refusal;
use fm_lanes::{Order, ValueKind};
use fm_layout::{Form, Layout};
use std::alloc::{AllocError, Global};
use std::collections::BTreeSet;

/// The layout's size and alignment in bytes, and then a line for each of its values in their order: the path to it,
/// its offset in bytes, its type, its byte order, and the stride and bound of each open step of the path.
///
/// The path names a member that is the first of its name in its group, numbers every other one, and leaves the index
/// of each sequence open. Refused: `Memory`.
pub fn list_places(alloc: Global, layout: &Layout) -> Result<String, Refusal>
    ensures text { IfOk result (λ text. string_bytes text ≡ list_text layout.now) }
    ensures memory { IfErr result (λ refusal. refusal ≡ Refusal.Memory) }
{
    let size = layout.size();
    let alignment = layout.alignment();
    let mut text = format!(in alloc; "size {size}\nalignment {alignment}\n")?;
    list(alloc, &mut text, "", 0, "", layout)?;
    Ok(text)
}

/// Adds a line for each value of the layout, which this path and these dims lead to.
#[cycle(listing)]
fn list(
    alloc: Global,
    text: &mut String,
    path: &str,
    at: u128,
    dims: &str,
    layout: &Layout,
) -> Result<(), AllocError>
    requires { at ≤ 2 ^ 40 * length path.now }
    ensures { OnOk result (Adds text.old text.new (listed path.now at dims.now layout.now)) }
{
    match layout.form() {
        Form::Value(kind, order) => list_value(alloc, text, path, at, dims, kind, order),
        Form::Padding => Ok(()),
        Form::Sequence(count) => list_element(alloc, text, path, at, dims, layout, count),
        Form::Struct(count) | Form::Union(count) => {
            list_members(alloc, text, path, at, dims, layout, count)
        }
    }
}

#[cycle(listing)]
fn list_element(
    alloc: Global,
    text: &mut String,
    path: &str,
    at: u128,
    dims: &str,
    layout: &Layout,
    count: u64,
) -> Result<(), AllocError>
    requires at { at ≤ 2 ^ 40 * length path.now }
    requires form { Form.Sequence count ≡ form_of layout.now }
    ensures { OnOk result (Adds text.old text.new (listed path.now at dims.now layout.now)) }
{
    let Some(element) = layout.element() else {
        return Ok(());
    };
    let stride = element.size();
    let path = element_path(alloc, path)?;
    let dims = format!(in alloc; "{dims} {stride}*{count}")?;
    list(alloc, text, &path, at, &dims, element)
}

#[cycle(listing)]
fn list_members(
    alloc: Global,
    text: &mut String,
    path: &str,
    at: u128,
    dims: &str,
    layout: &Layout,
    count: u64,
) -> Result<(), AllocError>
    requires at { at ≤ 2 ^ 40 * length path.now }
    requires count { Some count ≡ count_in (members_of layout.now) }
    ensures { OnOk result (Adds text.old text.new (listed path.now at dims.now layout.now)) }
{
    let _size = layout.size();
    let mut names = BTreeSet::new(alloc);
    let mut inner = at;
    for i in 0..count {
        let Some(member) = layout.member(i) else {
            return Ok(());
        };
        let first = note(&mut names, member)?;
        let to = member_path(alloc, path, i, member, first)?;
        list(alloc, text, &to, inner, dims, member)?;
        inner += u128::from(extent(layout, member));
    }
    Ok(())
}

/// Adds the line of a value.
fn list_value(
    alloc: Global,
    text: &mut String,
    path: &str,
    at: u128,
    dims: &str,
    kind: ValueKind,
    order: Order,
) -> Result<(), AllocError>
    ensures { OnOk result (Adds text.old text.new (value_text (shown path.now) at kind order dims.now)) }
{
    let path = if path.is_empty() { "." } else { path };
    let kind = kind.name();
    let order = order.name();
    let line = format!(in alloc; "{path} {at} {kind} {order}{dims}\n")?;
    text.push_str(&line)
}

/// The path of a sequence's elements.
fn element_path(alloc: Global, path: &str) -> Result<String, AllocError>
    ensures { IfOk result (Goes path.now (codes "[]")) }
{
    format!(in alloc; "{path}[]")
}

/// Notes the member's name, and tells whether it is the first of that name.
#[tactic(auto, using(crate::proofs::Noted::noted))]
fn note<'a>(names: &mut BTreeSet<&'a str, Global>, member: &'a Layout) -> Result<bool, AllocError>
    ensures first { IfOk result (λ first. first ≡ is_new names.old (name_of member.now)) }
    ensures noted { OnOk result (Notes names.old names.new (name_of member.now)) }
{
    match member.name() {
        Some(name) => Ok(names.insert(name)?),
        None => Ok(false),
    }
}

/// The path of a group's member, by its name where it is the first of that name.
fn member_path(
    alloc: Global,
    path: &str,
    i: u64,
    member: &Layout,
    first: bool,
) -> Result<String, AllocError>
    ensures text { IfOk result (Goes path.now (piece_of (step_by first i (name_of member.now)))) }
    ensures longer { IfOk result (λ inner. length path.now < length (string_bytes inner)) }
{
    match member.name() {
        Some(name) if first => named_path(alloc, path, name),
        _ => numbered_path(alloc, path, i),
    }
}

fn named_path(alloc: Global, path: &str, name: &str) -> Result<String, AllocError>
    ensures { IfOk result (Goes path.now (codes "." ++ name.now)) }
{
    format!(in alloc; "{path}.{name}")
}

fn numbered_path(alloc: Global, path: &str, i: u64) -> Result<String, AllocError>
    ensures { IfOk result (Goes path.now (codes ".#" ++ decimal i)) }
{
    format!(in alloc; "{path}.#{i}")
}

/// The bytes from a group's member to the next one.
#[tactic(auto, using(crate::proofs::Resolving::size_small))]
fn extent(group: &Layout, member: &Layout) -> u64
    ensures extent { result ≡ extent_of group.now member.now }
    ensures fits { result ≤ 2 ^ 40 }
{
    match group.form() {
        Form::Struct(_) => member.size(),
        _ => 0,
    }
}
