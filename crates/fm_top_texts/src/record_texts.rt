ghost use Rattle.std.specs.Prelude.{◌≡◌, ◌<◌, IsErrOf, OnOk};
ghost use Rattle.fm_io.specs.Count.{Counts, Raised};
ghost use Rattle.fm_io.specs.Sink.{Appends, AppendsPrefix};
ghost use Rattle.fm_top_texts.specs.Lines.{texts_text};
ghost use Rattle.fm_top_texts.specs.Plans.{LiesWithin};

use crate::plan::TextPlan;
use crate::writing::write_texts;
use fm_io::{Fault, Sink};
use fm_top_load::Loaded;
use std::alloc::Global;
use std::marker::Model;

/// The texts of a file's records: its bytes, and where in each record a text stands. It is seen as its lines.
#[derive(Drop)]
pub struct RecordTexts {
    plan: TextPlan,
    loaded: Loaded,
}

impl Model for RecordTexts {
    ghost use Rattle.std.specs.Prelude.{List, ℕ};
    ghost use Rattle.fm_top_texts.specs.Lines.{texts_text};
    ghost use Rattle.fm_top_texts.specs.Plans.{IsOfRecords};

    ghost Value = { List ℕ };

    ghost view = { λ t. texts_text t.plan t.loaded };

    ghost invariant = { λ t. IsOfRecords t.plan };
}

impl RecordTexts {
    /// The texts that the plan finds in a file that was loaded.
    pub fn of(plan: TextPlan, loaded: Loaded) -> RecordTexts
        requires sized { 0 < plan.size }
        requires within { LiesWithin plan }
        ensures { result ≡ texts_text plan loaded }
    {
        RecordTexts { plan, loaded }
    }

    /// Writes a line for each record, in their order: `text`, a space and the text's bytes in hex; `text` alone where it is
    /// empty; `refused` and the refusal where there is none. What is left behind the last record has no line.
    ///
    /// Each text is read as its line is made, and lines are written as they are made. After a fault a prefix was written.
    pub fn write<O: Sink>(&mut self, alloc: Global, out: &mut O) -> Result<(), Fault>
        ensures whole { OnOk result
            (Appends (O.view out.old).written (O.view out.new).written self.old) }
        ensures prefix { AppendsPrefix (O.view out.old).written (O.view out.new).written self.old }
        ensures counted { Counts Raised (IsErrOf result Fault.Failed)
            (O.view out.old).faults (O.view out.new).faults }
        ensures same { self.new ≡ self.old }
    {
        write_texts(alloc, out, &mut self.loaded, &self.plan)
    }
}
