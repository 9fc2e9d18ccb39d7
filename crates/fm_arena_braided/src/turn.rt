/// What somebody else does between two calls of a memory's caller.
pub trait Turn {
    ghost use Rattle.std.specs.Prelude.{ℕ};

    /// What the turn of this number makes of it.
    ghost turns: { Self → ℕ → Self → Type 0 };

    /// Comes before the call of this number.
    fn turn(&mut self, at: u64)
        ensures { turns self.old at self.new };
}
