//! What values and bytes got in a visit are measured against: loads by index, and copies of slices.
use crate::memories::Asked;
use crate::table::{COLUMNS, ROWS, number};
use byteorder::{ByteOrder, LittleEndian};
use std::alloc::{AllocError, Global};

/// Runs the loop over a list of words that it owns; none where there is no such loop, or memory ran out.
pub fn over_list(alloc: Global, asked: &Asked) -> Option<u64> {
    let count = asked.count;
    let table = listed(alloc, count).ok()?;
    match asked.what.as_str() {
        "visit-known" => Some(loads(&table, count)),
        "visit-words" => Some(words(&table, count)),
        "visit-bytes" => Some(bytes(&table, count)),
        _ => None,
    }
}

/// The words of the table.
fn listed(alloc: Global, times: u64) -> Result<Vec<u64>, AllocError> {
    let mut table = Vec::with_capacity(alloc, 8_192)?;
    for cell in 0..ROWS * COLUMNS {
        table.push(number(cell, times))?;
    }
    Ok(table)
}

/// A word by its index.
fn loads(table: &[u64], count: u64) -> u64 {
    let mut joined: u64 = 0;
    for turn in 0..count {
        let cell = joined.wrapping_add(turn) % (ROWS * COLUMNS);
        if let Some(v) = table.get(cell as usize) {
            joined ^= *v;
        }
    }
    joined
}

/// All words into another slice.
fn words(table: &[u64], count: u64) -> u64 {
    let mut into = [0; 8_192];
    let mut joined: u64 = 0;
    for turn in 0..count {
        if table.len() == into.len() {
            into.copy_from_slice(table);
        }
        joined ^= into[(turn % 8_192) as usize];
    }
    joined
}

/// The same of bytes.
fn bytes(table: &[u64], count: u64) -> u64 {
    let mut from = [0; 65_536];
    if table.len() == 8_192 {
        LittleEndian::write_u64_into(table, &mut from);
    }
    let mut into = [0; 65_536];
    let mut joined: u64 = 0;
    for turn in 0..count {
        into.copy_from_slice(&from);
        joined ^= u64::from(into[(turn % 65_536) as usize]);
    }
    joined
}
