ghost use Rattle.std.specs.Prelude.{◌≡◌, ◌≤◌, ◌<◌};
ghost use Rattle.fm_top_pooled.specs.Stocked.{IsMadeFor};
ghost use Rattle.fm_words.specs.Shapes.{IsValid};

use fm_top_load::RECORD_FILE_LIMIT;
use fm_words::Shape;

/// The first pass, and one for each worker of the greatest crew: the pool is made before it is said how many there are.
const PASSES: u32 = 1 + 16;

/// How many pages an arena has at most: a few long ones, since a visit asks for its page anew.
const MOST_PAGES: u64 = 32;

/// The words of the least page, in which 256 counts have room.
const LEAST_PAGE: u64 = 256;

/// The shape of a pool for an arena of so many bytes, and for one of so many beside it: each has pages of its own, as
/// many as it takes. A page has a power of two of words.
pub fn shape_for(room: u64, beside: u64) -> Shape
    requires room { room ≤ RECORD_FILE_LIMIT }
    requires beside { beside ≤ RECORD_FILE_LIMIT }
    ensures valid { IsValid result }
    ensures made { IsMadeFor room beside result }
{
    let words = room.max(beside).div_ceil(8);
    let page_words = words
        .div_ceil(MOST_PAGES)
        .next_power_of_two()
        .max(LEAST_PAGE);
    let page_size = 8 * page_words;
    let first = room.div_ceil(page_size).max(1);
    let second = beside.div_ceil(page_size);
    Shape {
        passes: PASSES,
        slots: slots_for(beside),
        pages: (first + second) as u32,
        page_words: page_words as u32,
        reach: first.max(second) as u32,
        generations: 1,
    }
}

/// A slot for the one arena, and one for that beside it, if it has any bytes.
fn slots_for(beside: u64) -> u32
    ensures one { beside ≡ 0 → result ≡ 1 }
    ensures two { 0 < beside → result ≡ 2 }
{
    if beside == 0 { 1 } else { 2 }
}
