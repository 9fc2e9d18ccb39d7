/// What the callers do that use the arenas beside this one.
#[derive(Clone, Copy, Debug)]
pub enum Others {
    /// Nothing: each was gathered into this one.
    Gathered,
    /// Another visits the arena and adds `step` to the word just before calls of this one on a word, where the arena
    /// may be used by every caller: before each that has a 1 in `script`, which is read from its lowest bit on, and
    /// then from its lowest again.
    Add { script: u64, step: u64 },
    /// Another closes an arena once: that which this one enters next when `left` calls of `enter` have come, where it
    /// may be used by every caller.
    Close { left: u32 },
}
