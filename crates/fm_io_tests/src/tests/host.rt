use crate::tests::compared::same;
use crate::tests::files::{TEXT, reads};
use fm_io::{Fault, Files, HostFiles, HostSink, HostSystem, Piece, fill, write_text};
use std::alloc::AllocGlobal;
use std::fs::{self, File};
use std::path::PathBuf;
use std::process::{self, Abort};
use std::test::Fail;
use std::{env, rt};

/// A name that no other test has.
fn own_name(rt: &HostRuntime, label: &str) -> Result<String, Fail> {
    Ok(format!(in rt.alloc(); "fm_io-{label}-{}", process::id(rt.process()))?)
}

/// A path of such a name, in the folder for such.
fn own_path(rt: &HostRuntime, label: &str) -> Result<PathBuf, Fail> {
    let name = own_name(rt, label)?;
    Ok(env::temp_dir(rt)?.join(rt.alloc(), name.as_str())?)
}

/// Puts a file with this text under the path.
fn put_file<R: Abort + rt::Files>(rt: &R, path: &str, text: &[u8]) {
    let file = File::create(rt, path).expect(rt, "a file to write");
    same(rt, write_text(&mut HostSink::new(file), text), Ok(()));
}

/// Takes the file away.
fn remove_file<R: Abort + rt::Files>(rt: &R, path: &str) {
    fs::remove_file(rt, path).expect(rt, "a file to remove");
}

/// Compares a read of four bytes with what is wanted: its answer, and the bytes, blanks behind those that it gave.
fn gives<R: Abort, F: Files>(
    rt: &R,
    files: &mut F,
    name: &str,
    at: u64,
    wanted: (Piece, &[u8; 4]),
) {
    let (piece, bytes) = wanted;
    let mut buf = [b' '; 4];
    same(rt, (files.read_at(name, at, &mut buf), at), (Ok(piece), at));
    same(rt, (&buf, at), (bytes, at));
}

/// Reads a file, one that would be in it, none, and a folder.
fn read_each<R: Abort + rt::Files, F: Files>(rt: &R, files: &mut F, path: &str, inside: &str) {
    put_file(rt, path, TEXT);
    let mut buf = [0; 9];
    same(rt, fill(files, path, 2, &mut buf), Ok(5));
    same(rt, &buf[..5], b"ven b");
    reads(rt, files, inside, 0, Err(Fault::Failed));

    remove_file(rt, path);
    reads(rt, files, path, 0, Ok(Piece::Missing));
    fs::create_dir(rt, path).expect(rt, "a folder");
    reads(rt, files, path, 0, Err(Fault::Failed));
    fs::remove_dir(rt, path).expect(rt, "a folder to remove");
}

/// The files of the host.
fn host_files<R: rt::Files + AllocGlobal>(rt: &R) -> HostFiles<HostSystem<&R>> {
    HostFiles::new(rt.alloc(), HostSystem::new(rt))
}

#[test]
fn host_files_and_a_host_sink_reach_a_real_file(rt: HostRuntime) -> Result<(), Fail> {
    let path = own_path(&rt, "reached")?;
    let inside = path.join(rt.alloc(), "f")?;
    read_each(&rt, &mut host_files(&rt), path.as_str(), inside.as_str());
    Ok(())
}

/// Replaces a file that is read, and reads on.
fn replace<R: Abort + rt::Files, F: Files>(rt: &R, files: &mut F, path: &str) {
    put_file(rt, path, TEXT);
    gives(rt, files, path, 0, (Piece::Got(4), b"seve"));
    remove_file(rt, path);
    put_file(rt, path, b"new");
    gives(rt, files, path, 4, (Piece::Got(3), b"n b "));
    gives(rt, files, path, 7, (Piece::End, b"    "));
    gives(rt, files, path, 5, (Piece::Got(2), b" b  "));
    remove_file(rt, path);
}

#[test]
fn a_file_that_is_replaced_is_read_on(rt: HostRuntime) -> Result<(), Fail> {
    let path = own_path(&rt, "replaced")?;
    replace(&rt, &mut host_files(&rt), path.as_str());
    Ok(())
}

/// Guesses at a file before it is there, and while it is, and at what is no file.
fn guess_each<R: Abort + rt::Files, F: Files>(rt: &R, files: &F, path: &str) {
    same(rt, files.guess(path), None);
    put_file(rt, path, TEXT);
    same(rt, files.guess(path), Some(7));
    remove_file(rt, path);
    same(rt, files.guess("/dev/null"), None);
    same(rt, files.guess("/tmp"), None);
    same(rt, files.guess(""), None);
}

#[test]
fn the_host_guesses_sizes_of_files_alone(rt: HostRuntime) -> Result<(), Fail> {
    let path = own_path(&rt, "guessed")?;
    guess_each(&rt, &host_files(&rt), path.as_str());
    Ok(())
}
