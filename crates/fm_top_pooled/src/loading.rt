ghost use Rattle.std.specs.Prelude.{◌≡◌, ◌+◌, ◌≤◌, ◌<◌, length, IfOk};
ghost use Rattle.std.specs.Result.{result_err};
ghost use Rattle.fm_io.specs.Reads.{ReadsFile};
ghost use Rattle.fm_top_load.specs.Reading.{GoesBy, ReadsFurther, portion_limit};
ghost use Rattle.fm_top_load.specs.Whole.{ByReads, CanRead, IsPortion, TellsLoad};
ghost use Rattle.fm_top_pooled.specs.Stocked.{HoldsFirst, HoldsWhole, IsStock, LoadsStock, PutsFile, bytes_in_pool};

use crate::finishing::take_apart;
use crate::record_file::RecordFile;
use crate::stock::{Stock, stock_of_bytes, stock_of_room};
use fm_arena::Shared;
use fm_io::Files;
use fm_segment::Segment;
use fm_top_load::{
    LoadFault, Portion, RECORD_FILE_LIMIT, Reached, Room, Stretch, put_stretch, read_rest,
    read_whole,
};
use std::alloc::{AllocError, Global};
use std::sync::Wait;

/// Reads a whole record file into a pool.
///
/// Where its size is guessed, the pool is made before the file is read, portion by portion, into it. If it turns out
/// longer, or nothing is guessed, it is read into a list, and the pool is made then. What is read doesn't depend on it.
pub fn load_stock<R: Wait, F: Files>(
    rt: &R,
    alloc: Global,
    files: &mut F,
    file: &RecordFile<'_>,
) -> Result<Stock, LoadFault>
    requires few { file.now.beside ≤ RECORD_FILE_LIMIT }
    ensures { LoadsStock file.now.beside (F.view files.old) (F.view files.new) file.now.name.now result }
{
    match file.guess {
        Some(size) if 0 < size && size <= RECORD_FILE_LIMIT => {
            load_guessed(rt, alloc, files, file, size)
        }
        _ => load_list(rt, alloc, files, file),
    }
}

/// Reads the file into a list, and puts that into a pool.
fn load_list<R: Wait, F: Files>(
    rt: &R,
    alloc: Global,
    files: &mut F,
    file: &RecordFile<'_>,
) -> Result<Stock, LoadFault>
    requires few { file.now.beside ≤ RECORD_FILE_LIMIT }
    ensures { LoadsStock file.now.beside (F.view files.old) (F.view files.new) file.now.name.now result }
{
    let bytes = match read_whole(alloc, files, file.name, RECORD_FILE_LIMIT) {
        Ok(bytes) => bytes,
        Err(fault) => return Err(fault),
    };
    match stock_of_bytes(rt, alloc, bytes, file.beside) {
        Ok(stock) => Ok(stock),
        Err(_) => Err(LoadFault::Memory),
    }
}

/// Reads the file into a pool that has room for so many bytes, or into a longer one.
fn load_guessed<R: Wait, F: Files>(
    rt: &R,
    alloc: Global,
    files: &mut F,
    file: &RecordFile<'_>,
    size: u64,
) -> Result<Stock, LoadFault>
    requires some { 0 < size }
    requires limit { size ≤ RECORD_FILE_LIMIT }
    requires few { file.now.beside ≤ RECORD_FILE_LIMIT }
    ensures { LoadsStock file.now.beside (F.view files.old) (F.view files.new) file.now.name.now result }
{
    let Ok(mut portion) = Portion::none(alloc) else {
        return Err(LoadFault::Memory);
    };
    let Ok(room) = stock_of_room(rt, alloc, size, file.beside) else {
        return Err(LoadFault::Memory);
    };
    let stretch = Stretch {
        name: file.name,
        limit: RECORD_FILE_LIMIT,
        at: 0,
        most: size,
    };
    if let Err(fault) = portion.read(files, &stretch) {
        return Err(fault);
    }
    let (stock, reached) = match put_file(rt, files, &stretch, &mut portion, room) {
        Ok(put) => put,
        Err(fault) => return Err(fault),
    };
    if reached.ended {
        return Ok(stock);
    }
    load_longer(rt, alloc, files, file.name, &mut portion, stock)
}

/// Puts a stretch of a file, whose first portion was read, where there is room for just that. What was put is the stock
/// then.
fn put_file<R: Wait, F: Files>(
    rt: &R,
    files: &mut F,
    stretch: &Stretch<'_>,
    portion: &mut Portion,
    room: Stock,
) -> Result<(Stock, Reached), LoadFault>
    requires stock { IsStock room.beside room.pool room.pass room.segment }
    requires all { stretch.now.most ≡ room.segment.size }
    requires some { 0 < stretch.now.most }
    requires read { CanRead stretch.now.limit stretch.now.at }
    requires next { IsPortion stretch.now.limit stretch.now.most (F.view files.old).holds stretch.now.name.now
        stretch.now.at portion.old }
    ensures put { IfOk result (λ r.
        PutsFile stretch.now (F.view files.old).holds r.0.beside r.0.pool r.0.pass r.0.segment r.1) }
    ensures beside { IfOk result (λ r. r.0.beside ≡ room.beside) }
    ensures reads { ReadsFurther (F.view files.old).reads (F.view files.new).reads stretch.now.name.now
        stretch.now.limit (GoesBy portion.old.ended (stretch.now.at + length portion.old.bytes))
        (λ next. IfOk result (λ r. GoesBy r.1.ended (stretch.now.at + r.1.count) next)) }
    ensures tells { TellsLoad ByReads stretch.now.limit (F.view files.old) (F.view files.new) stretch.now.name.now
        (result_err result) }
{
    let Stock {
        pool,
        pass,
        segment,
        beside,
    } = room;
    let arena = segment.arena();
    let mut memory = Shared::new(&pool, pass);
    let reached = match put_stretch(rt, files, stretch, portion, &mut memory, Room::Given(arena)) {
        Ok(reached) => reached,
        Err(fault) => return Err(fault),
    };
    let stock = Stock {
        pass: memory.into_pass(),
        pool,
        segment: Segment::of(arena, 0, reached.count),
        beside,
    };
    Ok((stock, reached))
}

/// Reads a file on behind its first bytes. If it ends there they are all, and else the whole file is put into a longer
/// pool.
fn load_longer<R: Wait, F: Files>(
    rt: &R,
    alloc: Global,
    files: &mut F,
    name: &str,
    portion: &mut Portion,
    first: Stock,
) -> Result<Stock, LoadFault>
    requires first { HoldsFirst (F.view files.old).holds name.now first.beside first.pool first.pass first.segment }
    requires few { first.beside ≤ RECORD_FILE_LIMIT }
    ensures holds { IfOk result (λ s.
        HoldsWhole (F.view files.old).holds name.now s.beside s.pool s.pass s.segment) }
    ensures beside { IfOk result (λ s. s.beside ≡ first.beside) }
    ensures reads { ReadsFile (F.view files.old).reads (F.view files.new).reads name.now portion_limit
        (RECORD_FILE_LIMIT + 1) first.segment.size (λ next. Unit {0}) }
    ensures tells { TellsLoad ByReads RECORD_FILE_LIMIT (F.view files.old) (F.view files.new) name.now
        (result_err result) }
{
    let rest = Stretch {
        name,
        limit: RECORD_FILE_LIMIT,
        at: first.segment.size(),
        most: RECORD_FILE_LIMIT + 1,
    };
    if let Err(fault) = portion.read(files, &rest) {
        return Err(fault);
    }
    if portion.len() == 0 {
        return Ok(first);
    }
    let beside = first.beside;
    let Ok(mut bytes) = take_out(alloc, first) else {
        return Err(LoadFault::Memory);
    };
    match read_rest(files, &rest, portion, &mut bytes) {
        Ok(()) => {}
        Err(fault) => return Err(fault),
    }
    match stock_of_bytes(rt, alloc, bytes, beside) {
        Ok(stock) => Ok(stock),
        Err(_) => Err(LoadFault::Memory),
    }
}

/// The bytes of a stock, whose pool is taken apart.
fn take_out(alloc: Global, stock: Stock) -> Result<Vec<u8>, AllocError>
    requires { IsStock stock.beside stock.pool stock.pass stock.segment }
    ensures { IfOk result (λ bytes. bytes.items ≡ bytes_in_pool stock.pass stock.segment) }
{
    let Stock {
        pool,
        pass,
        segment,
        ..
    } = stock;
    let finished = take_apart(alloc, pool, pass);
    match finished.bytes_of(alloc, segment.arena()) {
        Ok(Some(mut bytes)) => {
            bytes.truncate(segment.size() as usize);
            Ok(bytes)
        }
        // The arena is alive.
        Ok(None) => unreachable!(),
        Err(_) => Err(AllocError),
    }
}
