use fm_base::{Memory, Refusal};
use std::alloc::Global;

/// What takers do with the shares of a segment's records, of which each makes a part `P` of the result.
pub trait Job<P> {
    ghost use Rattle.std.specs.Prelude.{◌≡◌, [], None};
    ghost use Rattle.fm_base.specs.View.{Did, View};
    ghost use Rattle.fm_workers_shares.specs.Shares.{shares_in};
    ghost use Rattle.fm_workers_shares.specs.Taking.{KnowsOn, Making, MakesNext};

    /// Whether it can be done by who has seen so much.
    ghost can: { Self → View → Type 0 };

    /// Of which shares, and how.
    ghost making: { Self → Making P };

    /// How many shares there are.
    fn count(&self) -> u32
        ensures { result ≡ shares_in (making self.now).cut };

    /// The part of who has taken none yet.
    fn none(&self, alloc: Global) -> P
        ensures { (making self.now).holds [] result };

    /// Does the share of a number, and has the part hold it too.
    fn share<M: Memory>(
        &self,
        alloc: Global,
        m: &mut M,
        number: u32,
        part: &mut P,
    ) -> Result<(), Refusal>
        requires outside { (M.view m.old).inside ≡ None }
        requires can { can self.now (M.view m.old) }
        ensures did { Did (M.view m.old) (M.view m.new)
            (MakesNext (making self.now) (M.view m.old).caller number part.old part.new result) }
        ensures outside { (M.view m.new).inside ≡ None };

    /// Does what is left to do behind the last share.
    fn end<M: Memory>(&self, m: &mut M, part: &P) -> Result<(), Refusal>
        requires outside { (M.view m.old).inside ≡ None }
        requires can { can self.now (M.view m.old) }
        ensures did { Did (M.view m.old) (M.view m.new)
            ((making self.now).ends (M.view m.old).caller part.now result) }
        ensures outside { (M.view m.new).inside ≡ None };

    /// It can be done later too.
    ghost stays: { (j : Self) (v u : View) → KnowsOn v u → can j v → can j u };
}
