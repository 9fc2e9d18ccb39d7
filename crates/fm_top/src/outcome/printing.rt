ghost use Rattle.std.specs.Prelude.{◌≡◌, ◌≢◌, ◌≤◌};
ghost use Rattle.fm_top.specs.Ending.{IsUntold, end_of, status_by};
ghost use Rattle.fm_top.specs.Run.{Prints};

use crate::outcome::left::Left;
use crate::outcome::reply::Reply;
use crate::outcome::status::Status;
use crate::outcome::stop::Stop;
use crate::outcome::telling::write_stop;
use fm_io::{Fault, Sink};
use std::alloc::Global;

/// Writes what a run came to, and answers the status that this comes to, and what is left.
pub fn print_end<O: Sink>(
    alloc: Global,
    out: &mut O,
    end: Result<Reply, Stop<'_>>,
) -> (Status, Left)
    ensures prints { Prints (end_of end.entry) (O.view out.old) (O.view out.new) result.0 }
    ensures left { result.1 ≡ (end_of end.entry).left }
    ensures untold { IsUntold end.entry → (out.new ≡ out.old) × (result.0 ≡ (end_of end.entry).status) }
    ensures missing { result.0 ≡ Status.Missing → (end_of end.entry).status ≡ Status.Missing }
    ensures quiet { result.0 ≢ Status.Unwritten → (O.view out.new).faults ≡ (O.view out.old).faults }
    ensures faults_stay { (O.view out.old).faults ≤ (O.view out.new).faults }
{
    match end {
        Ok(Reply { text, left }) => (status_by(Status::Answered, text.write(alloc, out)), left),
        Err(stop) => (
            status_by(stop.status(), write_stop(alloc, out, stop)),
            Left::Nothing,
        ),
    }
}

/// The status that the writing of a text comes to, which tells this one.
fn status_by(status: Status, written: Result<(), Fault>) -> Status
    ensures { result ≡ status_by status written }
{
    match written {
        Ok(()) => status,
        Err(Fault::Failed) => Status::Unwritten,
        Err(Fault::Memory) => Status::NoMemory,
    }
}
