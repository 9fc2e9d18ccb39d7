ghost use Rattle.fm_c_calls.specs.Output.{Fills};

/// Puts the first of these items that there is room for, and answers how many they are in all.
pub fn put_front<T: Copy>(out: &mut [T], items: &[T]) -> u64
    ensures { Fills out.old out.new items.now result }
{
    let count = items.len().min(out.len());
    out[..count].copy_from_slice(&items[..count]);
    items.len() as u64
}
