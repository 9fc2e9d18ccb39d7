use crate::thing::Thing;
use crate::who::Who;

/// Who made a name, and what it stands for.
#[derive(Clone, Copy)]
pub struct Maker {
    pub who: Who,
    pub thing: Thing,
}
