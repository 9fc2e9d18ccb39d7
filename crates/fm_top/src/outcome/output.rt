ghost use Rattle.std.specs.Prelude.{IsErrOf, OnOk};
ghost use Rattle.fm_io.specs.Count.{Counts, Raised};
ghost use Rattle.fm_io.specs.Sink.{Appends, AppendsPrefix};
ghost use Rattle.fm_top.specs.Ending.{text_of};

use crate::outcome::answered::Answered;
use fm_io::{Fault, Sink, write_text};
use fm_top_texts::RecordTexts;
use std::alloc::Global;

/// What a run prints.
#[derive(Drop)]
pub enum Output {
    /// This text.
    Whole(String),
    /// The text of these bytes.
    Bytes(Vec<u8>),
    /// The answer of a query, of which lists can be long: its text is made as it is written.
    Answer(Answered),
    /// The answers of two queries, one behind the other.
    Both(Answered, Answered),
    /// The lines of the texts of records, which are read as they are written.
    Texts(RecordTexts),
}

impl Output {
    /// Writes all of it. After an error a prefix of it was written.
    pub fn write<O: Sink>(self, alloc: Global, out: &mut O) -> Result<(), Fault>
        ensures whole { OnOk result
            (Appends (O.view out.old).written (O.view out.new).written (text_of self)) }
        ensures prefix { AppendsPrefix (O.view out.old).written (O.view out.new).written
            (text_of self) }
        ensures counted { Counts Raised (IsErrOf result Fault.Failed)
            (O.view out.old).faults (O.view out.new).faults }
    {
        match self {
            Output::Whole(text) => write_text(out, text.as_str().as_bytes()),
            Output::Bytes(bytes) => write_text(out, &bytes),
            Output::Answer(answered) => answered.write(alloc, out),
            Output::Both(first, second) => {
                first.write(alloc, out)?;
                second.write(alloc, out)
            }
            Output::Texts(mut texts) => texts.write(alloc, out),
        }
    }
}
