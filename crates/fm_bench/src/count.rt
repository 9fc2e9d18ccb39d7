use fm_base::Refusal;

/// What came of some calls.
#[derive(Clone, Copy)]
pub struct Count {
    /// Those that came out as they should.
    pub fine: u64,
    /// Those that were refused.
    pub refusals: u64,
    /// Those that found what they shouldn't.
    pub wrong: u64,
}

/// No call yet.
pub const NOTHING: Count = Count {
    fine: 0,
    refusals: 0,
    wrong: 0,
};

impl Count {
    /// One call more, which was fine or not, or was refused.
    #[inline(always)]
    pub fn note(&mut self, came: Result<bool, Refusal>) {
        match came {
            Ok(true) => self.fine = self.fine.wrapping_add(1),
            Ok(false) => self.wrong = self.wrong.wrapping_add(1),
            Err(_) => self.refusals = self.refusals.wrapping_add(1),
        }
    }

    /// These calls and the others.
    pub fn and(self, other: Count) -> Count {
        Count {
            fine: self.fine.wrapping_add(other.fine),
            refusals: self.refusals.wrapping_add(other.refusals),
            wrong: self.wrong.wrapping_add(other.wrong),
        }
    }
}
