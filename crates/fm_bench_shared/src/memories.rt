ghost use Rattle.std.specs.Prelude.{◌≡◌, None};
ghost use Rattle.fm_arena.specs.Shares.{CanShare};

use crate::cells::cells;
use crate::counts::counts;
use crate::inside::visited;
use crate::queries::queries;
use crate::ranges::{SIZE, ranges};
use fm_arena::Shared;
use fm_base::Memory;
use fm_mono::Mono;
use fm_rule::{Pass, Pool};
use fm_words::Shape;
use std::alloc::Global;
use std::sync::Wait;

/// The loop that is asked for: its name, how often it goes round, and the layout or the query that it takes.
#[derive(Drop)]
pub struct Asked {
    pub what: String,
    pub count: u64,
    pub text: String,
}

/// Runs the loop over a `Mono`.
pub fn over_mono<R: Wait>(rt: &R, alloc: Global, asked: &Asked) -> Option<u64> {
    let mut memory = Mono::make(alloc, 2 * SIZE);
    looped(rt, alloc, &mut memory, asked)
}

/// Runs the loop over a pool of one pass, whose two arenas give as many bytes as those of the `Mono`.
pub fn over_shared<R: Wait>(rt: &R, alloc: Global, asked: &Asked) -> Option<u64> {
    let shape = Shape {
        passes: 16,
        slots: 2,
        pages: 16,
        page_words: 1_048_576,
        reach: 16,
        generations: 1,
    };
    let (pool, pass) = Pool::make(alloc, shape).ok()?;
    over_pool(rt, alloc, pool, pass, asked)
}

/// The pool and the pass are moved here, so that the compiler knows that nothing else has a name for them.
fn over_pool<R: Wait>(rt: &R, alloc: Global, pool: Pool, pass: Pass, asked: &Asked) -> Option<u64>
    requires { CanShare pool pass }
{
    let mut memory = Shared::new(&pool, pass);
    looped(rt, alloc, &mut memory, asked)
}

/// Runs the loop of this name; none where there is no such loop, or it was refused.
fn looped<R: Wait, M: Memory>(rt: &R, alloc: Global, m: &mut M, asked: &Asked) -> Option<u64>
    requires { (M.view m.old).inside ≡ None }
{
    match asked.what.as_str() {
        "known" | "gets" | "handles" => cells(rt, alloc, m, asked).ok(),
        "counts" => counts(rt, alloc, m, asked).ok(),
        "queries" => queries(rt, alloc, m, &asked.text, asked.count).ok(),
        "visit-known" | "visit-handles" | "visit-words" | "visit-bytes" => {
            visited(rt, alloc, m, asked).ok()
        }
        _ => ranges(rt, m, asked),
    }
}
