ghost use Rattle.std.specs.Prelude.{◌≡◌, ◌++◌, string_bytes, IfOk, OnOk};
ghost use Rattle.fm_group_text.specs.Printed.{group_text, groups_text, total_text};

use fm_group_lists::Groups;
use itoa::Buffer;
use std::alloc::{AllocError, Global};

/// The text of groups: for each number, in rising order, a line with the number, a space and its count, and last `total`
/// and the sum of the counts modulo 2^64, which is how many values there are where they are so few.
pub fn print_groups(alloc: Global, groups: &Groups) -> Result<String, AllocError>
    ensures { IfOk result (λ text. string_bytes text ≡ groups_text groups.now) }
{
    let mut text = String::new(alloc);
    for k in 0..groups.len() {
        let (number, count) = groups.at(k);
        push_group(&mut text, number, count)?;
    }
    push_total(&mut text, groups.total())?;
    Ok(text)
}

/// Adds the line of a number and its count.
fn push_group(text: &mut String, number: i64, count: u64) -> Result<(), AllocError>
    ensures { OnOk result (string_bytes text.new ≡ string_bytes text.old ++ group_text (number, count)) }
{
    text.push_str(Buffer::new().format(number))?;
    text.push(' ')?;
    text.push_str(Buffer::new().format(count))?;
    text.push('\n')
}

/// Adds the line of how many there are.
fn push_total(text: &mut String, total: u64) -> Result<(), AllocError>
    ensures { OnOk result (string_bytes text.new ≡ string_bytes text.old ++ total_text total) }
{
    text.push_str("total ")?;
    text.push_str(Buffer::new().format(total))?;
    text.push('\n')
}
