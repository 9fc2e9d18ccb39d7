ghost use Rattle.fm_base.specs.Learnt.{CanPatch, AfterPatch};
ghost use Rattle.fm_mono.specs.Shown.{view_of};

use super::Mono;

impl Mono {
    /// Puts the word's bits under `mask` to `bits`, as `patch` does, and answers the word found. It waits for nobody.
    pub fn put_bits(&mut self, word: u64, mask: u64, bits: u64) -> u64
        requires { CanPatch (view_of self.old) word mask bits }
        ensures { AfterPatch (view_of self.old) (view_of self.new) word mask bits result }
    {
        let found = self.word(word);
        self.put(word, found & !mask | bits);
        found
    }
}
