ghost use Rattle.std.specs.Prelude.{◌≡◌, None};
ghost use Rattle.fm_base.specs.View.{Did};
ghost use Rattle.fm_rule_calls.specs.Told.{view_of_pass};
ghost use Rattle.fm_workers_chunks.specs.Taking.{IsAtDesk, IsOnTerms, ServesAll};

use crate::desk::{Desk, Server};
use crate::job::Job;
use crate::serving::serve_chunk;
use crate::terms::Terms;
use fm_arena::Shared;
use fm_io::Turns;
use std::alloc::Global;
use std::sync::Wait;

/// Takes jobs, serves their chunks, and gives back what was served, up to a stop. Each chunk is a call of the worker's,
/// and a stop is none. A refusal stands in what is served, and ends nothing.
pub fn serve_chunks<R: Wait, T: Turns, K: Terms>(
    rt: &R,
    alloc: Global,
    turns: &T,
    desk: &Desk<'_, K>,
    memory: &mut Shared,
    server: &mut Server,
)
    requires outside { memory.old.inside ≡ None }
    requires terms { IsOnTerms K.home K.limit K.plan memory.old desk.now.query.now }
    requires ready { IsAtDesk desk.now server.old }
    ensures did { Did (view_of_pass memory.old) (view_of_pass memory.new)
        (ServesAll desk.now memory.old.caller K.plan server.new) }
    ensures outside { memory.new.inside ≡ None }
{
    let mut call = 0u64;
    for _ in rt.forever() {
        let Job::Serve(chunk) = desk.jobs.take(rt, &mut server.taking) else {
            return;
        };
        turns.before(rt, call);
        let served = serve_chunk(rt, alloc, memory, desk.query, chunk);
        turns.after(call);
        desk.served.push(rt, &mut server.giving, served);
        call = call.wrapping_add(1);
    }
    unreachable!()
}
