ghost use Rattle.std.specs.Prelude.{◌≡◌, ◌+◌, ◌<◌, length, IfOk};
ghost use Rattle.std.specs.Result.{result_err};
ghost use Rattle.fm_io.specs.Reads.{ReadsFile};
ghost use Rattle.fm_top_load.specs.Portions.{no_more};
ghost use Rattle.fm_top_load.specs.Reading.{GoesBy, portion_limit};
ghost use Rattle.fm_top_load.specs.Whole.{ByReads, CanRead, IsFront, IsPortion, TellsLoad};

use crate::load_fault::LoadFault;
use crate::stretch::Stretch;
use fm_io::{Files, ReadFault, fill};
use std::alloc::{AllocError, Global};
use std::marker::Model;

/// The most bytes that one read brings.
const MOST_BYTES: usize = 65_536;

/// What a read of a file brought: at most 65,536 bytes, and whether the file ends with them.
#[derive(Drop)]
pub struct Portion {
    buffer: Vec<u8>,
    count: usize,
    ended: bool,
}

impl Model for Portion {
    ghost use Rattle.fm_top_load.specs.Portions.{PortionView};

    ghost Value = { PortionView };

    ghost use Rattle.fm_top_load.specs.Buffered.{portion_of, HoldsPortion};

    ghost view = { portion_of };

    ghost invariant = { HoldsPortion };
}

impl Portion {
    /// Nothing, with room for what a read brings.
    pub fn none(alloc: Global) -> Result<Portion, AllocError>
        ensures { IfOk result (λ portion. portion ≡ no_more) }
    {
        let buffer = vec![in alloc; 0; MOST_BYTES]?;
        Ok(Portion {
            buffer,
            count: 0,
            ended: true,
        })
    }

    /// Nothing more, since the file has ended.
    pub fn end(&mut self)
        ensures { self.new ≡ no_more }
    {
        self.count = 0;
        self.ended = true;
    }

    /// Reads the next bytes of a file in place of those that were read: as many as a read brings, and at most as many
    /// as the stretch has. Fewer come only where the file ends.
    pub fn read<F: Files>(&mut self, files: &mut F, stretch: &Stretch<'_>) -> Result<(), LoadFault>
        requires can { CanRead stretch.now.limit stretch.now.at }
        requires some { 0 < stretch.now.most }
        ensures took { IfOk result (λ _. IsPortion stretch.now.limit stretch.now.most
            (F.view files.old).holds stretch.now.name.now stretch.now.at self.new) }
        ensures reads { ReadsFile (F.view files.old).reads (F.view files.new).reads stretch.now.name.now
            portion_limit (stretch.now.limit + 1) stretch.now.at
            (λ next. IfOk result (λ _. GoesBy self.new.ended (stretch.now.at + length self.new.bytes) next)) }
        ensures tells { TellsLoad ByReads stretch.now.limit (F.view files.old) (F.view files.new) stretch.now.name.now
            (result_err result) }
    {
        self.end();
        let (count, ended) = match read_into(files, stretch, &mut self.buffer) {
            Ok(read) => read,
            Err(fault) => return Err(fault),
        };
        self.count = count;
        self.ended = ended;
        Ok(())
    }

    /// The bytes.
    pub fn bytes(&self) -> &[u8]
        ensures { result.now ≡ self.now.bytes }
    {
        &self.buffer[..self.count]
    }

    /// How many bytes there are.
    pub fn len(&self) -> u64
        ensures { result ≡ length self.now.bytes }
    {
        self.count as u64
    }

    /// Whether the file ends with them.
    pub fn ended(&self) -> bool
        ensures { result ≡ self.now.ended }
    {
        self.ended
    }
}

/// Reads the next bytes of a file to the front of a buffer. Answers how many there are, and whether the file ends with
/// them.
fn read_into<F: Files>(
    files: &mut F,
    stretch: &Stretch<'_>,
    buffer: &mut [u8],
) -> Result<(usize, bool), LoadFault>
    requires can { CanRead stretch.now.limit stretch.now.at }
    requires some { 0 < stretch.now.most }
    requires room { length buffer.old ≡ MOST_BYTES }
    ensures room { length buffer.new ≡ MOST_BYTES }
    ensures took { IfOk result (λ r. IsFront stretch.now.limit stretch.now.most (F.view files.old).holds
        stretch.now.name.now stretch.now.at buffer.new r.0 r.1) }
    ensures reads { ReadsFile (F.view files.old).reads (F.view files.new).reads stretch.now.name.now portion_limit
        (stretch.now.limit + 1) stretch.now.at (λ next. IfOk result (λ r. GoesBy r.1 (stretch.now.at + r.0) next)) }
    ensures tells { TellsLoad ByReads stretch.now.limit (F.view files.old) (F.view files.new) stretch.now.name.now
        (result_err result) }
{
    let rest = stretch.limit - stretch.at;
    let room = stretch.most.min(MOST_BYTES as u64).min(rest + 1) as usize;
    let count = match fill(files, stretch.name, stretch.at, &mut buffer[..room]) {
        Ok(count) => count,
        Err(ReadFault::Missing) => return Err(LoadFault::Missing),
        Err(ReadFault::Failed) => return Err(LoadFault::Failed),
        Err(ReadFault::Memory) => return Err(LoadFault::Memory),
    };
    if count as u64 > rest {
        return Err(LoadFault::TooLong);
    }
    Ok((count, count < room))
}
