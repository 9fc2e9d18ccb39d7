ghost use Rattle.std.specs.Prelude.{◌≡◌, ◌++◌, ◌∷◌, ◌<◌, [], codes, string_bytes, IfOk, OnOk};
ghost use Rattle.std.specs.Fmt.{decimal};
ghost use Rattle.fm_workers.specs.Counts.{number_of};
ghost use Rattle.fm_workers.specs.Printed.{count_text, counts_text, place_text, total_text};

use crate::counts::Counts;
use itoa::Buffer;
use std::alloc::{AllocError, Global};

/// The text of counts: for each number that comes, in rising order, a line with the number, a space and how often, and
/// last `total` and how many there are.
pub fn print_counts(alloc: Global, counts: &Counts) -> Result<String, AllocError>
    ensures text { IfOk result (λ text. string_bytes text ≡ counts_text counts.now) }
{
    let mut text = String::new(alloc);
    for k in 0..256 {
        push_place(&mut text, counts, (k + 128) % 256)?;
    }
    push_total(&mut text, counts.total())?;
    Ok(text)
}

fn push_total(text: &mut String, total: u128) -> Result<(), AllocError>
    ensures { OnOk result (string_bytes text.new ≡ string_bytes text.old ++ total_text total) }
{
    text.push_str("total ")?;
    text.push_str(Buffer::new().format(total))?;
    text.push('\n')?;
    Ok(())
}

/// Adds the line of a place, if its number comes.
fn push_place(text: &mut String, counts: &Counts, place: usize) -> Result<(), AllocError>
    requires { place < 256 }
    ensures { OnOk result (string_bytes text.new ≡ string_bytes text.old ++ place_text counts.now place) }
{
    let count = counts.at(place);
    if count == 0 {
        return Ok(());
    }
    text.push_str(Buffer::new().format(number_at(place)))?;
    text.push(' ')?;
    text.push_str(Buffer::new().format(count))?;
    text.push('\n')?;
    Ok(())
}

/// The number that is counted at a place.
fn number_at(place: usize) -> i64
    requires { place < 256 }
    ensures { result ≡ number_of place }
{
    if place < 128 {
        return place as i64;
    }
    place as i64 - 256
}
