ghost use Rattle.std.specs.Prelude.{◌≡◌, ◌++◌, IfOk, OnOk};
ghost use Rattle.fm_c_calls.specs.Numbered.{PutsNumbers, end_numbers, found_numbers, listed_numbers, numbers_of, sum_numbers};

use crate::answering::{answer_over, read_query};
use crate::output::put_front;
use fm_base::Refusal;
use fm_records::{Found, Numbers};
use std::alloc::{AllocError, Global};

/// The forms of items, each the first number of what one finds.
const COUNT: i64 = 0;

const SUM: i64 = 1;

const LEAST: i64 = 2;

const GREATEST: i64 = 3;

const LIST: i64 = 4;

/// Puts the numbers that the items of a query find in records, of the layout whose JSON the bytes are: for each item, in
/// their order, its form, how many numbers it has, and then these.
///
/// A count has one number, in 64 bits; a sum two, the low 64 bits and the high ones of its two's complement; a least and a
/// greatest one number or none; a list all of them. Refused as `put_answer`. A refused call puts nothing.
pub fn put_numbers(
    alloc: Global,
    json: &[u8],
    query: &[u8],
    records: &[u8],
    out: &mut [i64],
) -> Result<u64, Refusal>
    ensures { PutsNumbers json.now query.now records.now out.old out.new result }
{
    let query = read_query(alloc, json, query)?;
    let answer = answer_over(alloc, &query, records)?;
    let Ok(numbers) = numbers_of(alloc, answer.found()) else {
        return Err(Refusal::Memory);
    };
    Ok(put_front(out, &numbers))
}

fn numbers_of(alloc: Global, found: &[Found]) -> Result<Vec<i64>, AllocError>
    ensures { IfOk result (λ numbers. numbers.items ≡ numbers_of found.now) }
{
    let mut numbers = Vec::new(alloc);
    for one in found {
        push_found(&mut numbers, one)?;
    }
    Ok(numbers)
}

/// Adds an item's form, how many numbers it found, and these.
fn push_found(numbers: &mut Vec<i64>, found: &Found) -> Result<(), AllocError>
    ensures { OnOk result (numbers.new.items ≡ numbers.old.items ++ found_numbers found.now) }
{
    match found {
        Found::Count(n) => numbers.extend_from_slice(&[COUNT, 1, n.cast_signed()]),
        Found::Sum(n) => push_sum(numbers, *n),
        Found::Least(n) => push_end(numbers, LEAST, *n),
        Found::Greatest(n) => push_end(numbers, GREATEST, *n),
        Found::Listed(list) => push_listed(numbers, list),
    }
}

/// Adds a number of 128 bits as two.
fn push_sum(numbers: &mut Vec<i64>, sum: i128) -> Result<(), AllocError>
    ensures { OnOk result (numbers.new.items ≡ numbers.old.items ++ sum_numbers sum) }
{
    let bits = sum.cast_unsigned();
    let low = (bits & 0xffff_ffff_ffff_ffff) as u64;
    let high = (bits >> 64) as u64;
    numbers.extend_from_slice(&[SUM, 2, low.cast_signed(), high.cast_signed()])
}

/// Adds a number that may be missing.
fn push_end(numbers: &mut Vec<i64>, form: i64, end: Option<i64>) -> Result<(), AllocError>
    ensures { OnOk result (numbers.new.items ≡ numbers.old.items ++ end_numbers form end) }
{
    match end {
        None => numbers.extend_from_slice(&[form, 0]),
        Some(n) => numbers.extend_from_slice(&[form, 1, n]),
    }
}

fn push_listed(numbers: &mut Vec<i64>, list: &Numbers) -> Result<(), AllocError>
    ensures { OnOk result (numbers.new.items ≡ numbers.old.items ++ listed_numbers list.now) }
{
    numbers.reserve(list.len())?;
    numbers.extend_from_slice(&[LIST, (list.len() as u64).cast_signed()])?;
    for k in 0..list.len() {
        numbers.push(list.at(k))?;
    }
    Ok(())
}
