ghost use Rattle.fm_words.specs.Shapes.{IsValid};
ghost use Rattle.fm_bench.specs.Ready.{IsFree};

use crate::gates::PAGES;
use crate::pools::{AGAIN, given, made};
use fm_base::Refusal;
use fm_close::close;
use fm_gate::allocate;
use fm_rule::{Pass, Pool};
use fm_words::Shape;
use std::alloc::Global;
use std::sync::Wait;

/// The words of an arena that is filled word by word.
const WORDS: u32 = 8_192;

/// 64 slots and 4,096 pages of 64 bytes, of which an arena has 65 at most: 63 arenas leave one page.
const MANY_PAGED: Shape = Shape {
    slots: 64,
    pages: 4_096,
    reach: 65,
    ..AGAIN
};

/// A pool whose arenas are opened, given their bytes and closed.
#[derive(Clone, Copy)]
pub struct Opening {
    shape: Shape,
    /// How many bytes each gives.
    bytes: u64,
    /// How many arenas of 65 pages are opened before.
    before: u64,
}

/// One of 64 bytes.
pub const SMALL: Opening = Opening {
    shape: AGAIN,
    bytes: 64,
    before: 0,
};

/// One of 1,048,576 words, which are wiped at each close.
pub const LARGE: Opening = Opening {
    shape: Shape {
        page_words: 1_048_576,
        ..AGAIN
    },
    bytes: 8_388_608,
    before: 0,
};

/// One of 1 MiB in 64 pages, each of which is taken, wiped and given back.
pub const PAGED: Opening = Opening {
    shape: Shape {
        page_words: 2_048,
        ..PAGES
    },
    bytes: 1_048_576,
    before: 0,
};

/// One that may have 32 MiB, and gives nothing.
pub const EMPTY: Opening = Opening {
    shape: Shape {
        page_words: 65_536,
        ..PAGES
    },
    bytes: 0,
    before: 0,
};

/// One of 64 bytes in a pool of 4,096 pages, which takes the first one.
pub const FIRST_PAGE: Opening = Opening {
    shape: MANY_PAGED,
    bytes: 64,
    before: 0,
};

/// The same where other arenas have all other pages, so that it takes the last one.
pub const LAST_PAGE: Opening = Opening {
    shape: MANY_PAGED,
    bytes: 64,
    before: 63,
};

/// Opens an arena of a pool of 16 passes, allocates its bytes and closes it, so often. Answers how often.
pub fn opens<R: Wait>(rt: &R, alloc: Global, count: u64, opening: Opening) -> Result<u64, Refusal>
    requires { IsValid opening.shape }
{
    let (pool, mut pass) = made(alloc, opening.shape)?;
    for _ in 0..opening.before {
        given(rt, &pool, &mut pass, 65 * 64)?;
    }
    turns(rt, pool, pass, opening.bytes, count)
}

/// The calls alone. The pool and the pass are moved here, so that the compiler knows that nothing else has a name for
/// them.
fn turns<R: Wait>(
    rt: &R,
    pool: Pool,
    mut pass: Pass,
    bytes: u64,
    count: u64,
) -> Result<u64, Refusal>
    requires { IsFree pool pass }
{
    for _ in 0..count {
        let arena = given(rt, &pool, &mut pass, bytes)?;
        close(rt, &pool, &mut pass, arena)?;
    }
    Ok(count)
}

/// Allocates 8 bytes again and again, 8,192 times in each arena before it is closed. Answers how often.
pub fn gives<R: Wait>(rt: &R, alloc: Global, count: u64) -> Result<u64, Refusal> {
    let shape = Shape {
        page_words: WORDS,
        ..AGAIN
    };
    let (pool, mut pass) = made(alloc, shape)?;
    for _ in 0..count / u64::from(WORDS) {
        let arena = given(rt, &pool, &mut pass, 8)?;
        for _ in 1..WORDS {
            allocate(rt, &pool, &mut pass, arena, 8, 8)?;
        }
        close(rt, &pool, &mut pass, arena)?;
    }
    Ok(count)
}
