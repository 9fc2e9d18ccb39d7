ghost use Rattle.std.specs.Prelude.{IsErrOf, OnOk};
ghost use Rattle.fm_io.specs.Count.{Counts, Raised};
ghost use Rattle.fm_io.specs.Sink.{Appends, AppendsPrefix};
ghost use Rattle.fm_top.specs.Ending.{answered_text};

use fm_io::{Fault, Sink};
use fm_records::{Answer, write_answer};
use fm_records_query::Query;
use std::alloc::Global;

/// A query and its answer.
#[derive(Drop)]
pub struct Answered {
    pub query: Query,
    pub answer: Answer,
}

impl Answered {
    /// Writes the answer's text. After an error a prefix of it was written.
    pub fn write<O: Sink>(&self, alloc: Global, out: &mut O) -> Result<(), Fault>
        ensures whole { OnOk result
            (Appends (O.view out.old).written (O.view out.new).written (answered_text self.now)) }
        ensures prefix { AppendsPrefix (O.view out.old).written (O.view out.new).written
            (answered_text self.now) }
        ensures counted { Counts Raised (IsErrOf result Fault.Failed)
            (O.view out.old).faults (O.view out.new).faults }
    {
        write_answer(alloc, out, &self.query, &self.answer)
    }
}
