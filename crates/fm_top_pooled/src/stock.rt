ghost use Rattle.std.specs.Prelude.{◌≡◌, ◌≤◌, length, IfOk};
ghost use Rattle.fm_top_pooled.specs.Stocked.{IsStock, bytes_in_pool};

use crate::shape::shape_for;
use crate::stocking::{give, open_shared};
use fm_arena::Shared;
use fm_rule::{Pass, Pool};
use fm_segment::Segment;
use fm_top_load::{RECORD_FILE_LIMIT, put_held};
use std::alloc::{AllocError, Global};
use std::sync::Wait;

/// Bytes in an arena of a pool of their own, which has a slot and pages left for another arena of `beside` bytes.
#[derive(Drop)]
pub struct Stock {
    pub pool: Pool,
    pub pass: Pass,
    pub segment: Segment,
    pub beside: u64,
}

/// Room for so many bytes, in a pool that has just that, and what another arena of `beside` bytes takes.
pub fn stock_of_room<R: Wait>(
    rt: &R,
    alloc: Global,
    size: u64,
    beside: u64,
) -> Result<Stock, AllocError>
    requires short { size ≤ RECORD_FILE_LIMIT }
    requires few { beside ≤ RECORD_FILE_LIMIT }
    ensures stock { IfOk result (λ s. IsStock s.beside s.pool s.pass s.segment) }
    ensures beside { IfOk result (λ s. s.beside ≡ beside) }
    ensures size { IfOk result (λ s. s.segment.size ≡ size) }
{
    let shape = shape_for(size, beside);
    let Ok((pool, mut pass)) = Pool::make(alloc, shape) else {
        return Err(AllocError);
    };
    let arena = open_shared(rt, &pool, &mut pass);
    give(rt, &pool, &mut pass, arena, size);
    Ok(Stock {
        pool,
        pass,
        segment: Segment::of(arena, 0, size),
        beside,
    })
}

/// Puts the bytes into a pool that has just their room, and what another arena of `beside` bytes takes, and gives the
/// list back.
pub fn stock_of_bytes<R: Wait>(
    rt: &R,
    alloc: Global,
    bytes: Vec<u8>,
    beside: u64,
) -> Result<Stock, AllocError>
    requires short { length bytes.items ≤ RECORD_FILE_LIMIT }
    requires few { beside ≤ RECORD_FILE_LIMIT }
    ensures stock { IfOk result (λ s. IsStock s.beside s.pool s.pass s.segment) }
    ensures beside { IfOk result (λ s. s.beside ≡ beside) }
    ensures bytes { IfOk result (λ s. bytes_in_pool s.pass s.segment ≡ bytes.items) }
{
    let stock = stock_of_room(rt, alloc, bytes.len() as u64, beside)?;
    Ok(fill(rt, stock, &bytes))
}

/// Puts as many bytes as there is room for.
fn fill<R: Wait>(rt: &R, stock: Stock, bytes: &[u8]) -> Stock
    requires stock { IsStock stock.beside stock.pool stock.pass stock.segment }
    requires all { length bytes.now ≡ stock.segment.size }
    ensures stock { IsStock result.beside result.pool result.pass result.segment }
    ensures beside { result.beside ≡ stock.beside }
    ensures bytes { bytes_in_pool result.pass result.segment ≡ bytes.now }
{
    let Stock {
        pool,
        pass,
        segment,
        beside,
    } = stock;
    let mut memory = Shared::new(&pool, pass);
    put_held(rt, &mut memory, segment.arena(), 0, bytes);
    Stock {
        pass: memory.into_pass(),
        pool,
        segment,
        beside,
    }
}
