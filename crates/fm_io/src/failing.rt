ghost use Rattle.std.specs.Prelude.{◌≡◌, [], ℕ};

use crate::count::raised;

/// Which calls of an object in memory fail, and how many have.
#[derive(Drop)]
pub struct Failing {
    listed: Vec<u64>,
    calls: u64,
    faults: u64,
}

impl Failing {
    ghost use Rattle.fm_io.specs.Failing.{listed_calls, calls_made, calls_failed, CountsCall};

    pub fn new(listed: Vec<u64>) -> Failing
        ensures listed { listed_calls result ≡ listed.items }
        ensures made { calls_made result ≡ 0 }
        ensures failed { calls_failed result ≡ 0 }
    {
        Failing {
            listed,
            calls: 0,
            faults: 0,
        }
    }

    /// Counts a call, and answers whether it fails.
    pub fn counts_call(&mut self) -> bool
        ensures { CountsCall self.old self.new result }
    {
        let fails = self.listed.contains(&self.calls);
        self.calls = raised(self.calls);
        if fails {
            self.faults = raised(self.faults);
        }
        fails
    }
}
