use fm_io::MemFiles;
use std::alloc::{AllocError, AllocGlobal, Global};
use std::process::Abort;

/// A record of an id, a kind, a price and four tags, as a user writes it.
const SALE: &str =
    "{\"type\":\"struct\",\"members\":[{\"type\":\"int\",\"name\":\"id\"},{\"type\":\"short\",\"name\":\"kind\"},\
    {\"type\":\"padding\",\"size\":2},{\"type\":\"long\",\"name\":\"price\"},\
    {\"type\":\"sequence\",\"name\":\"tags\",\"count\":4,\"element\":{\"type\":\"byte\"}},{\"type\":\"padding\",\"size\":4}]}";

/// Two sales, of ids 1 and 2, kinds 2 and 3, and prices 250 and -40, with four tags each; and a byte more.
const RAGGED: [u8; 49] = [
    1, 0, 0, 0, 2, 0, 0, 0, 0xfa, 0, 0, 0, 0, 0, 0, 0, 1, 2, 3, 4, 0, 0, 0, 0, 2, 0, 0, 0, 3, 0, 0,
    0, 0xd8, 0xff, 0xff, 0xff, 0xff, 0xff, 0xff, 0xff, 5, 0, 0, 0xff, 0, 0, 0, 0, 0,
];

/// Two records of 16 bytes, whose longs at byte 8 are -3 and 5.
const LONGS: [u8; 32] = [
    0, 0, 0, 0, 0, 0, 0, 0, 0xfd, 0xff, 0xff, 0xff, 0xff, 0xff, 0xff, 0xff, 0, 0, 0, 0, 0, 0, 0, 0,
    5, 0, 0, 0, 0, 0, 0, 0,
];

/// Two workers add to one number.
const ADDED: &str =
    "pool 1 1 8 1000 1\nfirst open a shared\nfirst alloc a s 8 8\n1 add s long 0 5\n2 add s long 0 7\n\
    last get s long 0\n";

/// A worker has two lines and another one; the first and the last lines are those of no worker.
const SHARED: &str =
    "pool 1 1 8 1000 1\nfirst open a shared\nfirst alloc a s 16 8\n1 set s long 0 5\n1 get s long 0\n2 set s long 8 7\n\
    last get s long 8\n";

/// A slot is used twice, and its bytes are zero again.
const TWICE: &str =
    "pool 1 1 8 1000 1\nfirst open a shared\nfirst alloc a s 8 8\nfirst set s long 0 7\nfirst close a\n\
    first open b shared\nfirst alloc b t 8 8\nfirst get t long 0\nfirst get s long 0\n";

/// A copy of each of these files.
pub fn listed(
    alloc: Global,
    files: &[(&str, &[u8])],
) -> Result<Vec<(String, Vec<u8>)>, AllocError> {
    let mut all = Vec::new(alloc);
    for (name, bytes) in files {
        all.push((String::from_str(alloc, name)?, bytes.to_vec(alloc)?))?;
    }
    Ok(all)
}

/// `Sale`, of which `Sales` has two records, `Empty` none, and `Ragged` two and a byte more; records of longs; `Void`, a
/// layout of which no records are, and `Broken`, which is none; and scripts.
fn all_files(alloc: Global) -> Result<Vec<(String, Vec<u8>)>, AllocError> {
    let all = [
        ("Sale", SALE.as_bytes()),
        ("Sales", &RAGGED[..48]),
        ("Longs", LONGS.as_slice()),
        ("Added", ADDED.as_bytes()),
        ("Empty", b"".as_slice()),
        ("Ragged", RAGGED.as_slice()),
        ("Void", b"{\"type\":\"struct\",\"members\":[]}".as_slice()),
        ("Broken", b"{".as_slice()),
        ("Shared", SHARED.as_bytes()),
        ("Twice", TWICE.as_bytes()),
    ];
    listed(alloc, &all)
}

/// All of them, where the read of this number fails and each gives at most so many bytes.
pub fn files<R: AllocGlobal + Abort>(rt: &R, failing: u64, most: usize) -> MemFiles {
    let all = all_files(rt.alloc()).expect(rt, "memory");
    let failing = vec![in rt.alloc(); failing].expect(rt, "memory");
    MemFiles::new(all, failing).with_piece(most.max(1))
}

/// The file `L` of a layout's text, and the file `R` of its records.
pub fn with_records<R: AllocGlobal + Abort>(rt: &R, layout: &str, records: &[u8]) -> MemFiles {
    let all = [("L", layout.as_bytes()), ("R", records)];
    MemFiles::new(
        listed(rt.alloc(), &all).expect(rt, "memory"),
        Vec::new(rt.alloc()),
    )
}

/// Bytes 0 to 250, again and again.
pub fn repeating<R: AllocGlobal + Abort>(rt: &R, count: usize) -> Vec<u8> {
    let mut bytes = Vec::new(rt.alloc());
    for k in 0..count {
        bytes.push((k % 251) as u8).expect(rt, "memory");
    }
    bytes
}
