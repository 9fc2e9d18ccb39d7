ghost use Rattle.fm_rule.specs.Passes.{IsOf};
ghost use Rattle.fm_pages.specs.Places.{CanFind, Placed};

use fm_rule::{Pass, Pool, step_find};

/// Where a word of the arena that the pass is inside stands in the pool's table, in a page that is lent to the arena.
///
/// It stands there while the pass is inside.
#[inline(always)]
pub fn place_of(pool: &Pool, pass: &mut Pass, word: u64) -> u64
    requires of { IsOf pool.now pass.old }
    requires find { CanFind pass.old word }
    ensures { Placed pass.old pass.new word result }
{
    // Any pass is sound, which its calls alone tell.
    let _number = pass.number();
    match pass.known_place(word) {
        Some(place) => place,
        None => read_place(pool, pass, word),
    }
}

/// By the map word of the word's part.
#[inline(always)]
fn read_place(pool: &Pool, pass: &mut Pass, word: u64) -> u64
    requires of { IsOf pool.now pass.old }
    requires find { CanFind pass.old word }
    ensures { Placed pass.old pass.new word result }
{
    // Any pass is sound, which its calls alone tell.
    let _number = pass.number();
    match pass.inside() {
        None => unreachable!(),
        Some(a) => step_find(pool, pass, a, word),
    }
}
