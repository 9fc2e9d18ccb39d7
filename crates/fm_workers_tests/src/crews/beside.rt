ghost use Rattle.std.specs.Prelude.{◌≡◌, ◌<◌, ◌≤◌, []};
ghost use Rattle.fm_rule_calls.specs.Told.{view_of_pass};
ghost use Rattle.fm_gate.specs.Needs.{IsOutside};
ghost use Rattle.fm_segment.specs.Access.{IsKnown};

use super::{ANSWER, made, query, stocked};
use crate::compared::same;
use crate::printed::printed;
use fm_arena::Shared;
use fm_base::{Kind, Refusal};
use fm_io::FreeGate;
use fm_records::Query;
use fm_rule::{Pass, Pool};
use fm_segment::Segment;
use fm_workers::query_beside;
use fm_workers_crew::Beside;
use std::alloc::AllocGlobal;
use std::process::Abort;
use std::sync::Wait;
use std::thread::Threads;

/// Raises a number, and makes no entry.
#[derive(Drop)]
struct Raises;

impl Beside<u32> for Raises {
    ghost use Rattle.std.specs.Prelude.{◌≡◌, [], ⊤};

    ghost can = { λ beside v number. ⊤ };

    ghost does = { λ beside done old new caller own. own ≡ [] };

    fn act<R: Wait>(&mut self, _rt: &R, number: &mut u32, _memory: &mut Shared) {
        *number = number.saturating_add(1);
    }

    ghost stays = { λ beside p q number same lasts can. can };
}

/// What a crew of two answers, as text, and how often a number was raised beside it.
fn asked_beside<R: Abort + AllocGlobal + Threads + Wait + Sync>(
    rt: &R,
    pool: &Pool,
    pass: Pass,
    q: &Query,
    s: &Segment,
) -> (Result<Vec<u8>, Refusal>, u32)
    requires outside { IsOutside pool.now pass }
    requires no_page { pass.pages ≡ [] }
    requires known { IsKnown (view_of_pass pass) s.now }
{
    let alloc = rt.alloc();
    same(rt, s.first() % q.record_alignment(), 0);
    same(rt, s.size() % q.record_size(), 0);
    same(rt, s.arena().is_confined(), false);
    let mut raised = 0;
    let (_pass, asked) = query_beside(
        rt,
        alloc,
        pool,
        pass,
        q,
        s,
        2,
        &FreeGate,
        &mut Raises,
        &mut raised,
    );
    let answer = match asked {
        Ok(Ok(answer)) => printed(alloc, q, &answer),
        Ok(Err(refusal)) | Err(refusal) => Err(refusal),
    };
    (answer, raised)
}

/// What they are in a pool of so many passes.
fn asked_of<R: Abort + AllocGlobal + Threads + Wait + Sync>(
    rt: &R,
    passes: u32,
) -> (Result<Vec<u8>, Refusal>, u32)
    requires some { 0 < passes }
    requires few { passes < 65 }
{
    let q = query(rt);
    let (pool, mut pass) = made(rt, passes, 8);
    let s = stocked(rt, &pool, &mut pass, Kind::Shared);
    asked_beside(rt, &pool, pass, &q, &s)
}

#[test]
fn a_number_is_raised_beside_a_crew(rt: HostRuntime) {
    let (answer, raised) = asked_of(&rt, 3);
    same(&rt, answer.as_deref(), Ok(ANSWER));
    same(&rt, raised, 1);
}

#[test]
fn nothing_is_raised_where_a_pass_is_wanting(rt: HostRuntime) {
    let (answer, raised) = asked_of(&rt, 2);
    same(&rt, answer.err(), Some(Refusal::NoPass));
    same(&rt, raised, 0);
}
