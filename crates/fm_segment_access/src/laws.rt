ghost use Rattle.fm_segment_access.specs.Alone.{GetsWhatWasPut, KeepsBytesElsewhere, KeepsLength};

/// A number that was put among bytes is got from them, in as many bytes as were put.
#[tactic(auto, using(crate::proofs::Splicing::gets_put))]
pub fn gets_what_was_put()
    ensures { GetsWhatWasPut }
{}

/// Bytes that lie before or behind those that were put stay.
#[tactic(auto, using(crate::proofs::Splicing::keeps_elsewhere))]
pub fn keeps_bytes_elsewhere()
    ensures { KeepsBytesElsewhere }
{}

/// There are as many bytes after bytes were put as before.
#[tactic(auto, using(crate::proofs::Splicing::keeps_count))]
pub fn keeps_length()
    ensures { KeepsLength }
{}
