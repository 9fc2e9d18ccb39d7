ghost use Rattle.std.specs.Prelude.{◌≡◌, ◌≢◌, ◌+◌, ◌%◌, ◌<◌, ◌≤◌, length, take, drop, Err, IfOk};
ghost use Rattle.std.specs.Result.{result_err};
ghost use Rattle.fm_layout.specs.Parts.{IsValue};
ghost use Rattle.fm_layout.specs.Size.{size_of};
ghost use Rattle.fm_layout.specs.Tree.{alignment_of};
ghost use Rattle.fm_mono.specs.Shown.{view_of};
ghost use Rattle.fm_segment.specs.Alone.{Means};
ghost use Rattle.fm_text.specs.Texts.{IsTextOf, text_bytes};
ghost use Rattle.fm_top_load.specs.Held.{IsReady, loaded_in};
ghost use Rattle.fm_top_load.specs.Reading.{ReadsSome};
ghost use Rattle.fm_top_load.specs.Records.{TellsRecords};
ghost use Rattle.fm_top_load.specs.Whole.{ByReads, IsWhole, TellsLoad};

use crate::held::{RECORD_FILE_LIMIT, open_held};
use crate::load_fault::LoadFault;
use crate::loading::load_into;
use crate::whole_records::check_records;
use fm_base::{Kind, Refusal};
use fm_io::Files;
use fm_lanes::Value;
use fm_layout::Layout;
use fm_mono::Mono;
use fm_segment::Segment;
use fm_text::get_text;
use std::alloc::Global;
use std::marker::Model;
use std::sync::Wait;

/// The bytes of a record file, in an arena of one thread.
#[derive(Drop)]
pub struct Loaded {
    memory: Mono,
    segment: Segment,
}

impl Model for Loaded {
    ghost use Rattle.std.specs.Prelude.{List, ℕ};

    ghost Value = { List ℕ };

    ghost use Rattle.fm_top_load.specs.Loaded.{loaded_bytes, HoldsFile};

    ghost view = { loaded_bytes };

    ghost invariant = { HoldsFile };
}

impl Loaded {
    /// What was loaded into the segment.
    pub(crate) fn of(memory: Mono, segment: Segment) -> Loaded
        requires { IsReady (view_of memory) segment }
        ensures { result ≡ loaded_in (view_of memory) segment }
    {
        Loaded { memory, segment }
    }

    /// How many bytes there are.
    pub fn len(&self) -> u64
        ensures { result ≡ length self.now }
    {
        self.segment.size()
    }

    /// The value of this layout that stands at a place, which is aligned for it.
    #[inline(always)]
    pub fn value(&mut self, layout: &Layout, place: u64) -> Value
        requires value { IsValue layout.now }
        requires aligned { place % alignment_of layout.now ≡ 0 }
        requires within { place + size_of layout.now ≤ length self.old }
        ensures value { Means layout.now (take (size_of layout.now) (drop place self.old)) result }
        ensures same { self.new ≡ self.old }
    {
        match self.segment.get(&mut self.memory, layout, place) {
            Ok(v) => v,
            // The arena is alive, its owner reads, and the value fits.
            Err(_) => unreachable!(),
        }
    }

    /// The text in `size` bytes from a place on: those before the first byte that is 0.
    ///
    /// Refused, in this order: `NoZero` where no byte is 0, `NotText` with the length of the longest front of the text's
    /// bytes that is UTF-8. `Memory` may come in place of any answer.
    pub fn text(&mut self, alloc: Global, place: u64, size: u64) -> Result<String, Refusal>
        requires within { place + size ≤ length self.old }
        ensures text { result ≢ Err Refusal.Memory →
            IsTextOf (take size (drop place self.old)) (text_bytes result) }
        ensures same { self.new ≡ self.old }
    {
        match self.segment.as_slice(place, size) {
            Ok(slice) => get_text(alloc, &mut self.memory, &slice, 0),
            // The segment has these bytes.
            Err(_) => unreachable!(),
        }
    }
}

/// Reads a whole file of records of this size into an arena of one thread.
///
/// It reads up to the file's end, or until more bytes than the limit came.
pub fn load<R: Wait, F: Files>(
    rt: &R,
    alloc: Global,
    files: &mut F,
    name: &str,
    record_size: u64,
) -> Result<Loaded, LoadFault>
    requires { 0 < record_size }
    ensures whole { IfOk result (IsWhole (F.view files.old).holds name.now) }
    ensures short { IfOk result (λ bytes. length bytes ≤ RECORD_FILE_LIMIT) }
    ensures even { IfOk result (λ bytes. length bytes % record_size ≡ 0) }
    // It reads on where the bytes of its last read end, in portions, and up to the first byte past the limit at most.
    ensures reads { ReadsSome (F.view files.old).reads (F.view files.new).reads name.now
        RECORD_FILE_LIMIT }
    ensures tells { TellsRecords RECORD_FILE_LIMIT (F.view files.old) (F.view files.new) name.now record_size
        (result_err result) }
{
    let loaded = match load_bytes(rt, alloc, files, name) {
        Ok(loaded) => loaded,
        Err(fault) => return Err(fault),
    };
    match check_records(loaded.len(), record_size) {
        Ok(()) => Ok(loaded),
        Err(fault) => Err(fault),
    }
}

/// Reads the whole file, whatever its bytes are.
fn load_bytes<R: Wait, F: Files>(
    rt: &R,
    alloc: Global,
    files: &mut F,
    name: &str,
) -> Result<Loaded, LoadFault>
    ensures whole { IfOk result (IsWhole (F.view files.old).holds name.now) }
    ensures short { IfOk result (λ bytes. length bytes ≤ RECORD_FILE_LIMIT) }
    ensures reads { ReadsSome (F.view files.old).reads (F.view files.new).reads name.now
        RECORD_FILE_LIMIT }
    ensures tells { TellsLoad ByReads RECORD_FILE_LIMIT (F.view files.old) (F.view files.new) name.now
        (result_err result) }
{
    let mut memory = Mono::make(alloc, RECORD_FILE_LIMIT);
    let Ok(arena) = open_held(rt, &mut memory, Kind::Confined) else {
        return Err(LoadFault::Memory);
    };
    match load_into(rt, alloc, files, name, &mut memory, arena) {
        Ok(segment) => Ok(Loaded::of(memory, segment)),
        // An arena of one thread refuses room for want of memory alone.
        Err(LoadFault::Refused(_)) => Err(LoadFault::Memory),
        Err(fault) => Err(fault),
    }
}
