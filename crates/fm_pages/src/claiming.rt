ghost use Rattle.std.specs.Prelude.{◌≡◌, ◌<◌, ◌%◌, [], IfSome};
ghost use Rattle.std.specs.Int.{bit_at};
ghost use Rattle.fm_rule.specs.Passes.{IsOf};
ghost use Rattle.fm_pages.specs.Claims.{ClaimOutcome, HasClaimed, LookOutcome, TryOutcome, Went};

use crate::maker::Maker;
use crate::page::Page;
use fm_base::Refusal;
use fm_rule::{Pass, Pool, step_give_page, step_take_page};
use fm_words::lowest_bit;
use std::sync::Wait;

/// A page to try, and the word of page bits to expect, in which its bit is 1.
#[derive(Clone, Copy)]
struct Bid {
    page: u32,
    word: u64,
    ghost has: { bit_at word (page % 64) ≡ 1 },
}

/// Takes a free page into the pass's hand: the lowest one of the first word of page bits that shows any. `PoolFull` comes
/// only where each word was 0 at a step of the call.
///
/// It tries until no other pass took or gave a page between its look and its exchange.
pub fn claim<R: Wait>(rt: &R, pool: &Pool, pass: &mut Pass) -> Result<Page, Refusal>
    requires of { IsOf pool.now pass.old }
    requires none { pass.old.pages ≡ [] }
    ensures { ClaimOutcome pass.old pass.new result }
{
    for _ in rt.forever() {
        match guess(pool) {
            Some(bid) => {
                if try_page(pool, pass, bid) {
                    return Ok(Page {
                        index: bid.page,
                        maker: Maker::of(pool, pass),
                    });
                }
            }
            None => {
                if finds_none(pool, pass) {
                    return Err(Refusal::PoolFull);
                }
            }
        }
    }
    unreachable!()
}

/// The first page that a load of its word shows free. It tells nothing.
fn guess(pool: &Pool) -> Option<Bid>
    ensures { IfSome result (λ bid. bid.page < pool.now.shape.pages) }
{
    let shape = pool.shape();
    for group in 0..shape.page_groups() {
        let word = pool.guess_pages(group);
        let first = 64 * group;
        if let Some(bit) = lowest_bit(word, (shape.pages - first).min(64)) {
            return Some(Bid {
                page: first + bit,
                word,
            });
        }
    }
    None
}

/// Whether it took the page.
fn try_page(pool: &Pool, pass: &mut Pass, bid: Bid) -> bool
    requires of { IsOf pool.now pass.old }
    requires none { pass.old.pages ≡ [] }
    requires low { bid.page < pool.now.shape.pages }
    ensures { TryOutcome pass.old pass.new bid.page result }
{
    let found = step_take_page(pool, pass, bid.page / 64, bid.word, bid.page % 64);
    found == bid.word
}

/// Whether each word of page bits was found 0.
fn finds_none(pool: &Pool, pass: &mut Pass) -> bool
    requires of { IsOf pool.now pass.old }
    requires none { pass.old.pages ≡ [] }
    ensures { LookOutcome pass.old pass.new result }
{
    let groups = pool.shape().page_groups();
    for group in 0..groups {
        if step_take_page(pool, pass, group, 0, 0) != 0 {
            return false;
        }
    }
    true
}

/// Gives the page in the pass's hand back.
pub fn free_page(pool: &Pool, pass: &mut Pass, page: Page)
    requires of { IsOf pool.now pass.old }
    requires page { HasClaimed pass.old page }
    ensures { Went pass.old pass.new [] }
{
    let Page { index, maker: _ } = page;
    step_give_page(pool, pass, index)
}
