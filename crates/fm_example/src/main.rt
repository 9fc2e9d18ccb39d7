//! A program to begin with: copy this folder, give it a name and a line of its own in `crates.txt`, and change it.
//!
//! Sales stand side by side in an arena that two threads share. Their prices are put and added up through a handle, in
//! loops; then one thread adds to the first price while the other closes the arena, and whoever comes later is refused. So
//! it goes on each of two days, with a worker of its own each: the first one's pass is gathered, and the second one gets
//! its number again. Then two arenas are closed beside other work (`closes`), and it is counted how often each price comes
//! (`counts`).
#![tactic(auto)]

mod closes;
mod counts;
mod prices;

ghost use Rattle.std.specs.Prelude.{◌≡◌, IfOk, None, [], length};
ghost use Rattle.fm_base.specs.Learnt.{AfterClose, CanVisit};
ghost use Rattle.fm_arena.specs.Lasting.{SamePool};
ghost use Rattle.fm_arena.specs.Shares.{CanShare};
ghost use Rattle.fm_rule_calls.specs.Told.{view_of_pass};
ghost use Rattle.fm_gate.specs.Crews.{HasNothing};
ghost use Rattle.fm_handle.specs.Learnt.{CanPut};

use crate::closes::close_beside_work;
use crate::counts::count_prices;
use crate::prices::{SALE_SIZE, SALES, add_up, put_prices};
use fm_arena::{Arena, Shared, a_worker_can_be_gathered, keeps_its_pool};
use fm_base::{Kind, Refusal};
use fm_gate::a_crew_stands;
use fm_group::Groups;
use fm_handle::VarHandle;
use fm_lanes::{Value, ValueKind};
use fm_ljson::layout_from_json;
use fm_path::{parse_path, resolve};
use fm_rule::{Pass, Pool};
use fm_segment::Segment;
use fm_words::Shape;
use std::alloc::Global;
use std::process::ExitCode;
use std::sync::Wait;
use std::thread::{Threads, join_mut};

/// A record of 16 bytes.
const SALE: &str =
    r#"{"type":"struct","members":[{"type":"long","name":"id"},{"type":"long","name":"price"}]}"#;

/// One page of 64 bytes, which four sales fill, and one slot for the arenas of both days; a pass for each thread.
const SHAPE: Shape = Shape {
    passes: 2,
    slots: 1,
    pages: 1,
    page_words: 8,
    reach: 1,
    generations: 2,
};

/// What was found on a day.
#[derive(Clone, Copy, Debug)]
struct Found {
    /// The first sale's price, as it was put.
    put: Value,
    /// What the prices of all sales come to.
    total: i64,
    /// What the thread that added found, or that it was too late.
    added: Result<Value, Refusal>,
    /// What is found once the arena is closed.
    after: Result<Value, Refusal>,
}

fn main(rt: HostRuntime) -> ExitCode {
    let printed = match sell(&rt, rt.alloc()) {
        Ok((first, second)) => print_day(&rt, 1, first).and_then(|()| print_day(&rt, 2, second)),
        Err(refusal) => println!(rt; "refused {refusal}"),
    };
    let printed = printed.and_then(|()| print_jobs(&rt, close_beside_work(&rt, rt.alloc())));
    match printed.and_then(|()| print_counts(&rt, count_prices(&rt, rt.alloc()))) {
        Ok(()) => ExitCode::SUCCESS,
        Err(_) => ExitCode::FAILURE,
    }
}

/// Prints what was found on a day.
fn print_day(rt: &HostRuntime, day: u32, found: Found) -> std::io::Result<()> {
    let in_time = found.added == Ok(found.put) || found.added == Err(Refusal::Closed);
    println!(rt;
        "day {day}: put {:?}, {} in all\nadded or too late {in_time}\nafter {:?}",
        found.put, found.total, found.after
    )
}

/// Prints how many jobs were done while two arenas were closed.
fn print_jobs(rt: &HostRuntime, jobs: Result<u32, Refusal>) -> std::io::Result<()> {
    match jobs {
        Ok(jobs) => println!(rt; "closed beside {jobs} jobs"),
        Err(refusal) => println!(rt; "refused {refusal}"),
    }
}

/// Prints how often each price came.
fn print_counts(rt: &HostRuntime, groups: Result<Groups, Refusal>) -> std::io::Result<()> {
    let groups = match groups {
        Ok(groups) => groups,
        Err(refusal) => return println!(rt; "refused {refusal}"),
    };
    for k in 0..groups.len() {
        let (price, count) = groups.at(k);
        println!(rt; "price {price}: {count}")?;
    }
    Ok(())
}

/// Makes the handle and a pool, and sells on two days.
fn sell<R: Threads + Wait + Sync>(rt: &R, alloc: Global) -> Result<(Found, Found), Refusal> {
    let price = price_of_a_sale(alloc)?;
    let (pool, ours) = Pool::make(alloc, SHAPE)?;
    let (ours, first) = sell_for_a_day(rt, &pool, ours, &price)?;
    let (_, second) = sell_for_a_day(rt, &pool, ours, &price)?;
    Ok((first, second))
}

/// Draws a pass for the day's worker, and gathers it at the end, so that its number comes back.
fn sell_for_a_day<R: Threads + Wait + Sync>(
    rt: &R,
    pool: &Pool,
    mut ours: Pass,
    price: &VarHandle,
) -> Result<(Pass, Found), Refusal>
    requires ours { CanShare pool.now ours }
    requires closed { length price.now.dims ≡ 0 }
    requires long { price.now.value.kind ≡ ValueKind.Long }
    ensures { IfOk result (λ r. CanShare pool.now r.0) }
{
    a_crew_stands();
    a_worker_can_be_gathered();
    let theirs = pool.draw(rt, &mut ours)?;
    let mut ours = Shared::new(pool, ours);
    let mut theirs = Shared::new(pool, theirs);
    let found = share(rt, price, &mut ours, &mut theirs)?;
    let mut ours = ours.into_pass();
    pool.gather(&mut ours, theirs.into_pass());
    Ok((ours, found))
}

/// A handle for the price. What a layout that is read may have otherwise is tested, once.
fn price_of_a_sale(alloc: Global) -> Result<VarHandle, Refusal>
    ensures closed { IfOk result (λ price. length price.dims ≡ 0) }
    ensures long { IfOk result (λ price. price.value.kind ≡ ValueKind.Long) }
{
    let layout = layout_from_json(alloc, SALE.as_bytes())?;
    let path = parse_path(alloc, ".price")?;
    let price = VarHandle::of(resolve(alloc, &layout, &path)?);
    if price.resolved().dims().len() != 0 || price.resolved().value().kind != ValueKind::Long {
        return Err(Refusal::NotValue);
    }
    Ok(price)
}

/// Puts prices, adds to the first in one thread while the other closes the arena, and looks at it afterwards.
fn share<R: Threads + Wait + Sync>(
    rt: &R,
    price: &VarHandle,
    ours: &mut Shared,
    theirs: &mut Shared,
) -> Result<Found, Refusal>
    requires closed { length price.now.dims ≡ 0 }
    requires long { price.now.value.kind ≡ ValueKind.Long }
    requires same { SamePool ours.old theirs.old }
    requires ours { ours.old.inside ≡ None }
    requires theirs { theirs.old.inside ≡ None }
    requires nothing { HasNothing theirs.old }
    ensures ours { IfOk result (λ found. SamePool ours.old ours.new × (ours.new.inside ≡ None)) }
    ensures theirs { IfOk result (λ found. SamePool theirs.old theirs.new × (theirs.new.inside ≡ None)) }
    ensures nothing { IfOk result (λ found. HasNothing theirs.new) }
{
    keeps_its_pool();
    a_worker_can_be_gathered();
    let arena = Arena::start(rt, ours, Kind::Shared)?;
    let sales = arena.allocate(rt, ours, SALES * SALE_SIZE, 8)?;
    put_prices(rt, price, ours, &sales)?;
    let total = add_up(price, ours, &sales)?;
    let first = sales.as_slice(0, SALE_SIZE)?;
    let put = price.get(ours, &first, 0, &[])?;
    theirs.meet(ours.note());
    let (added, closed) = race(rt, price, ours, theirs, arena, &first, Value::Long(50));
    closed?;
    let after = price.get(ours, &first, 0, &[]);
    Ok(Found {
        put,
        total,
        added,
        after,
    })
}

/// Closes the arena while the worker adds to the first sale's price in a thread of its own.
fn race<R: Threads + Wait + Sync>(
    rt: &R,
    price: &VarHandle,
    ours: &mut Shared,
    theirs: &mut Shared,
    arena: Arena,
    sale: &Segment,
    more: Value,
) -> (Result<Value, Refusal>, Result<(), Refusal>)
    requires can { CanPut (view_of_pass theirs.old) price.now sale.now [] more }
    requires known { CanVisit (view_of_pass ours.old) arena.id }
    requires nothing { HasNothing theirs.old }
    ensures closed { AfterClose (view_of_pass ours.old) (view_of_pass ours.new) arena.id result.1 }
    ensures outside { theirs.new.inside ≡ None }
    ensures same { SamePool theirs.old theirs.new }
    ensures nothing { HasNothing theirs.new }
{
    join_mut(
        rt,
        &mut || add(rt, price, theirs, sale, more),
        &mut || arena.close(rt, ours),
    )
}

/// The worker's part: it adds to the first sale's price, or comes too late.
fn add<R: Wait>(
    rt: &R,
    price: &VarHandle,
    theirs: &mut Shared,
    sale: &Segment,
    more: Value,
) -> Result<Value, Refusal>
    requires can { CanPut (view_of_pass theirs.old) price.now sale.now [] more }
    requires nothing { HasNothing theirs.old }
    ensures outside { theirs.new.inside ≡ None }
    ensures same { SamePool theirs.old theirs.new }
    ensures nothing { HasNothing theirs.new }
{
    keeps_its_pool();
    a_worker_can_be_gathered();
    price.get_and_add(rt, theirs, sale, 0, &[], more)
}
