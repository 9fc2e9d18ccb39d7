use crate::tests::compared::same;
use fm_io::{Fault, Files, MemFiles, Piece, ReadFault, SureFiles, fill};
use std::alloc::{AllocError, AllocGlobal, Global};
use std::process::Abort;
use std::test::Fail;

/// The one file that is there.
pub const TEXT: &[u8] = b"seven b";

/// The file `f`.
pub fn one_file(alloc: Global) -> Result<Vec<(String, Vec<u8>)>, AllocError> {
    let file = (String::from_str(alloc, "f")?, TEXT.to_vec(alloc)?);
    Ok(vec![in alloc; file]?)
}

/// The file `f`, where the read of this number fails and each gives at most so many bytes.
fn files(alloc: Global, failing: u64, most: usize) -> Result<MemFiles, AllocError> {
    let failing = vec![in alloc; failing]?;
    Ok(MemFiles::new(one_file(alloc)?, failing).with_piece(most.max(1)))
}

/// Compares what a read of four bytes answers with what is wanted.
pub fn reads<R: Abort, F: Files>(
    rt: &R,
    files: &mut F,
    name: &str,
    at: u64,
    wanted: Result<Piece, Fault>,
) {
    let mut buf = [0; 4];
    same(rt, (files.read_at(name, at, &mut buf), at), (wanted, at));
}

/// Compares what is read at some places: the three pieces before the end have these lengths.
fn is_read_in<R: Abort, F: Files>(rt: &R, files: &mut F, pieces: (usize, usize, usize)) {
    let (first, later, last) = pieces;
    reads(rt, files, "f", 0, Ok(Piece::Got(first)));
    reads(rt, files, "f", 5, Ok(Piece::Got(later)));
    reads(rt, files, "f", 6, Ok(Piece::Got(last)));
    reads(rt, files, "f", 7, Ok(Piece::End));
    reads(rt, files, "f", u64::MAX, Ok(Piece::End));
    reads(rt, files, "g", 0, Ok(Piece::Missing));
}

#[test]
fn files_in_memory_are_read_in_pieces(rt: HostRuntime) -> Result<(), Fail> {
    let alloc = rt.alloc();
    is_read_in(&rt, &mut SureFiles::new(one_file(alloc)?), (4, 2, 1));
    let whole = MemFiles::new(one_file(alloc)?, Vec::new(alloc));
    is_read_in(&rt, &mut { whole }, (4, 2, 1));
    is_read_in(&rt, &mut files(alloc, u64::MAX, 2)?, (2, 2, 1));
    Ok(())
}

#[test]
fn a_listed_read_fails_alone(rt: HostRuntime) -> Result<(), Fail> {
    let mut files = files(rt.alloc(), 1, usize::MAX)?;
    reads(&rt, &mut files, "f", 0, Ok(Piece::Got(4)));
    reads(&rt, &mut files, "f", 0, Err(Fault::Failed));
    reads(&rt, &mut files, "f", 0, Ok(Piece::Got(4)));
    Ok(())
}

/// Compares how many of four bytes are filled, a byte a read of which this one fails, with what is wanted.
fn fills<R: Abort + AllocGlobal>(
    rt: &R,
    name: &str,
    at: u8,
    failing: u64,
    wanted: Result<usize, ReadFault>,
) {
    let mut files = files(rt.alloc(), failing, 1).expect(rt, "memory");
    let mut buf = [0; 4];
    same(
        rt,
        (fill(&mut files, name, u64::from(at), &mut buf), at),
        (wanted, at),
    );
}

#[test]
fn a_buffer_is_filled_up_to_the_end(rt: HostRuntime) {
    fills(&rt, "f", 0, 9, Ok(4));
    fills(&rt, "f", 4, 9, Ok(3));
    fills(&rt, "f", 7, 9, Ok(0));
    fills(&rt, "g", 0, 9, Err(ReadFault::Missing));
    fills(&rt, "f", 0, 1, Err(ReadFault::Failed));
    fills(&rt, "f", 4, 3, Err(ReadFault::Failed));
}

#[test]
fn it_is_filled_with_the_bytes_from_the_place_on(rt: HostRuntime) -> Result<(), Fail> {
    let mut files = files(rt.alloc(), 9, 1)?;
    let mut buf = [0; 4];
    same(&rt, fill(&mut files, "f", 4, &mut buf), Ok(3));
    same(&rt, &buf[..3], b"n b");
    Ok(())
}

#[test]
fn files_in_memory_guess_no_size(rt: HostRuntime) -> Result<(), Fail> {
    let sure = SureFiles::new(one_file(rt.alloc())?);
    same(&rt, sure.guess("f"), None);
    Ok(())
}
