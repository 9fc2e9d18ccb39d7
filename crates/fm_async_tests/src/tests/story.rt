use crate::tests::pools::{begun, opened, reader, small_pool};
use fm_async::Closer;
use fm_gate::leave;

/// Does the loop's own work, and asks once a turn whether the arena has ended.
fn add_up(closer: &mut Closer<'_>, jobs: &[u64]) -> u64 {
    let mut total: u64 = 0;
    for job in jobs {
        if closer.advance().is_none() {
            return total;
        }
        total = total.wrapping_add(*job);
    }
    total
}

#[test]
fn a_loop_works_until_the_reader_has_left(rt: HostRuntime) {
    let (pool, mut ours) = small_pool(&rt);
    let arena = opened(&rt, &pool, &mut ours);
    let mut theirs = reader(&rt, &pool, &mut ours, arena);
    let mut closer = begun(&rt, &pool, ours, arena);
    assert_eq!(rt; add_up(&mut closer, &[3, 4]), 7);
    leave(&pool, &mut theirs);
    assert_eq!(rt; add_up(&mut closer, &[5]), 0);
    assert!(rt; closer.is_ended());
    closer.sweep();
}
