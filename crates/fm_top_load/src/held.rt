ghost use Rattle.std.specs.Prelude.{◌≡◌, ◌+◌, ◌≤◌, length, Ok, IfOk};
ghost use Rattle.fm_segment_access.specs.Runs.{DoesPutAll};
ghost use Rattle.fm_base_bytes.specs.Bytes.{AreBytes};
ghost use Rattle.fm_base.specs.Learnt.{CanOpen};
ghost use Rattle.fm_base.specs.View.{Did, IsByItself, given_in};
ghost use Rattle.fm_top_load.specs.Held.{IsHeld, IsEmpty, PutsHeld};

use fm_base::{ArenaId, Kind, Memory};
use fm_segment_access::put_bytes;
use std::alloc::AllocError;
use std::sync::Wait;

/// The most bytes of a record file.
pub const RECORD_FILE_LIMIT: u64 = 67_108_864;

/// Opens an arena. Refused for want of memory, or of a slot of a pool.
pub fn open_held<R: Wait, M: Memory>(rt: &R, m: &mut M, kind: Kind) -> Result<ArenaId, AllocError>
    requires can { CanOpen (M.view m.old) kind }
    requires alone { IsByItself (M.view m.old) }
    ensures empty { IfOk result (IsEmpty (M.view m.new)) }
    ensures limit { (M.view m.new).limit ≡ (M.view m.old).limit }
{
    match m.open_arena(rt, kind) {
        Ok(arena) => Ok(arena),
        Err(_) => Err(AllocError),
    }
}

/// Puts bytes that the arena has given.
pub fn put_held<R: Wait, M: Memory>(rt: &R, m: &mut M, arena: ArenaId, place: u64, bytes: &[u8])
    requires held { IsHeld (M.view m.old) arena }
    requires given { place + length bytes.now ≤ given_in (M.view m.old) arena }
    requires room { place + length bytes.now ≤ (M.view m.old).limit }
    ensures did { Did (M.view m.old) (M.view m.new)
        (DoesPutAll (M.view m.old).caller arena place bytes.now (Ok tt)) }
    ensures are { AreBytes bytes.now }
    ensures puts { PutsHeld (M.view m.old) (M.view m.new) arena place bytes.now }
{
    match put_bytes(rt, m, arena, place, bytes) {
        Ok(()) => {}
        // The arena is alive, and the caller may use it.
        Err(_) => unreachable!(),
    }
}
