ghost use Rattle.std.specs.Prelude.{IsErrOf, OnOk};
ghost use Rattle.fm_io.specs.Count.{Counts, Raised};
ghost use Rattle.fm_io.specs.Sink.{Appends, AppendsPrefix};

use crate::fault::Fault;
use crate::sink::Sink;

/// Writes the whole text, in as many writes as that takes. After an error a prefix of it was written.
pub fn write_text<O: Sink>(out: &mut O, text: &[u8]) -> Result<(), Fault>
    ensures whole { OnOk result (Appends (O.view out.old).written (O.view out.new).written text.now) }
    ensures prefix { AppendsPrefix (O.view out.old).written (O.view out.new).written text.now }
    ensures counted { Counts Raised (IsErrOf result Fault.Failed) (O.view out.old).faults
        (O.view out.new).faults }
{
    let mut taken = 0;
    while taken < text.len() {
        taken += out.write(&text[taken..])?;
    }
    Ok(())
}
