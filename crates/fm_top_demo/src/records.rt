ghost use Rattle.std.specs.Prelude.{◌≡◌, ◌<◌, ◌≤◌, ◌^◌, ◌++◌, IfOk, OnOk};
ghost use Rattle.fm_base_bytes.specs.Bytes.{bytes_of};
ghost use Rattle.fm_base_bytes.specs.Signed.{unsigned_of};
ghost use Rattle.fm_top_demo.specs.Records.{amount_of, made_record, made_records};

use fm_lanes::{Value, encode};
use std::alloc::{AllocError, Global};

/// The most records that are made.
pub const MOST_RECORDS: u32 = 1_000_000;

/// How many bytes a record has.
const RECORD_SIZE: usize = 16;

/// So many records, one behind another: an int `id`, which is the record's number from 0 on, a short `kind`, two bytes
/// of padding, and a long `amount`, all little.
pub fn made_records(alloc: Global, count: u32) -> Result<Vec<u8>, AllocError>
    requires { count ≤ MOST_RECORDS }
    ensures { IfOk result (λ bytes. bytes.items ≡ made_records count) }
{
    let mut bytes = Vec::with_capacity(alloc, count as usize * RECORD_SIZE)?;
    for k in 0..count {
        push_record(&mut bytes, u64::from(k))?;
    }
    Ok(bytes)
}

/// Puts the record of this number behind others.
fn push_record(bytes: &mut Vec<u8>, k: u64) -> Result<(), AllocError>
    requires { k < MOST_RECORDS }
    ensures { OnOk result (bytes.new.items ≡ bytes.old.items ++ made_record k) }
{
    push_number(bytes, k, 4)?;
    push_number(bytes, k % 7, 2)?;
    push_number(bytes, 0, 2)?;
    push_number(bytes, amount(k), 8)
}

/// The amount of the record of this number, in two's complement.
fn amount(k: u64) -> u64
    requires { k < MOST_RECORDS }
    ensures { result ≡ unsigned_of 8 (amount_of k) }
{
    encode(Value::Long((k * 7919 % 100_003) as i64 - 50_000))
}

/// Puts the lowest bytes of a number behind others, so many, the lowest first.
fn push_number(bytes: &mut Vec<u8>, number: u64, width: usize) -> Result<(), AllocError>
    requires { width ≤ 8 }
    ensures { OnOk result (bytes.new.items ≡ bytes.old.items ++ bytes_of width number) }
{
    bytes.extend_from_slice(&number.to_le_bytes()[..width])
}
