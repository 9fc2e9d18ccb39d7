ghost use Rattle.std.specs.Prelude.{◌<◌, ◌^◌};
ghost use Rattle.fm_top_load.specs.Stretches.{IsWholeStretch};

/// A stretch of a file that may have `limit` bytes: from the place `at` on, at most `most` bytes.
#[derive(Clone, Copy)]
pub struct Stretch<'a> {
    pub name: &'a str,
    pub limit: u64,
    pub at: u64,
    pub most: u64,
}

impl<'a> Stretch<'a> {
    /// All of the file: it would have room for a longer one, so that it ends only where the file does.
    pub fn whole(name: &'a str, limit: u64) -> Stretch<'a>
        requires { limit < 2 ^ 40 }
        ensures { IsWholeStretch name.now limit result }
    {
        Stretch {
            name,
            limit,
            at: 0,
            most: limit / 8 * 8 + 8,
        }
    }
}
