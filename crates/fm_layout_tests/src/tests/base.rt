use crate::tests::compared::same;
use crate::tests::told::refusal_told;
use fm_base::{ArenaId, Caller, Kind, Refusal};
use std::alloc::Global;
use std::process::Abort;

/// Stops where the refusal isn't printed so.
fn is_printed<R: Abort>(rt: &R, alloc: Global, refusal: Refusal, wanted: &str) {
    same(rt, refusal_told(alloc, refusal).as_str(), wanted);
}

#[test]
fn refusals_print_their_number_and_arguments(rt: HostRuntime) {
    let alloc = rt.alloc();
    is_printed(&rt, alloc, Refusal::Closed, "1");
    is_printed(&rt, alloc, Refusal::Held(2), "7 2");
    is_printed(&rt, alloc, Refusal::CannotClose(Kind::Global), "8 0");
    is_printed(&rt, alloc, Refusal::CannotClose(Kind::Automatic), "8 1");
    is_printed(&rt, alloc, Refusal::NoRoom(60), "10 60");
    is_printed(&rt, alloc, Refusal::MemberMisaligned(1, 4), "21 1 4");
    is_printed(&rt, alloc, Refusal::Memory, "99");
}

/// A name of caller 3 in term 4.
fn name(kind: Kind) -> ArenaId {
    ArenaId {
        slot: 1,
        generation: 2,
        kind,
        owner: 3,
        term: 4,
    }
}

/// Stops where the names are the same.
fn differ<R: Abort>(rt: &R, a: ArenaId, other: ArenaId) {
    same(rt, (a != other, other), (true, other));
}

#[test]
fn a_name_differs_in_each_part(rt: HostRuntime) {
    let a = name(Kind::Shared);
    differ(&rt, a, ArenaId { slot: 0, ..a });
    differ(&rt, a, ArenaId { generation: 0, ..a });
    differ(&rt, a, name(Kind::Confined));
    differ(&rt, a, ArenaId { owner: 0, ..a });
    differ(&rt, a, ArenaId { term: 0, ..a });
}

/// Stops where an arena of this kind isn't closable so, or is open to others than its owner, or to its owner alone.
fn is_kind<R: Abort>(rt: &R, kind: Kind, closable: bool, open_to_all: bool) {
    let owner = Caller { number: 3, term: 4 };
    let a = name(kind);
    same(rt, (kind.is_closable(), kind), (closable, kind));
    same(rt, (a.is_confined(), kind), (!open_to_all, kind));
    same(rt, (a.may_be_used_by(owner), kind), (true, kind));
    same(
        rt,
        (a.may_be_used_by(Caller { number: 2, ..owner }), kind),
        (open_to_all, kind),
    );
    same(
        rt,
        (a.may_be_used_by(Caller { term: 5, ..owner }), kind),
        (open_to_all, kind),
    );
}

#[test]
fn kinds_say_who_may_use_an_arena_and_who_ends_it(rt: HostRuntime) {
    is_kind(&rt, Kind::Global, false, true);
    is_kind(&rt, Kind::Automatic, false, true);
    is_kind(&rt, Kind::Confined, true, false);
    is_kind(&rt, Kind::Shared, true, true);
}

#[test]
fn a_number_of_another_term_is_another_caller(rt: HostRuntime) {
    let first = Caller { number: 3, term: 0 };
    same(&rt, first != Caller { term: 1, ..first }, true);
    same(&rt, first, Caller { number: 3, term: 0 });
}
