use crate::tests::compared::same;
use fm_top_demo::made_records;

/// The second record: 1, 1, and 7919 - 50,000.
const SECOND: &[u8] = b"\x01\0\0\0\x01\0\0\0\x9f\x5b\xff\xff\xff\xff\xff\xff";

#[test]
fn records_follow_each_other(rt: HostRuntime) {
    let bytes = made_records(rt.alloc(), 3).expect(&rt, "records");
    same(&rt, bytes.len(), 48);
    same(&rt, bytes.get(16..32), Some(SECOND));
}

#[test]
fn there_may_be_none(rt: HostRuntime) {
    let bytes = made_records(rt.alloc(), 0).expect(&rt, "no records");
    same(&rt, bytes.len(), 0);
}
