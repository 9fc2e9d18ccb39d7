ghost use Rattle.std.specs.Prelude.{◌≡◌, ◌+◌, min};
ghost use Rattle.fm_io.specs.Count.{last_count};

/// One more, but for the last value, which stays.
pub fn raised(count: u64) -> u64
    ensures { result ≡ min (count + 1) last_count }
{
    count.saturating_add(1)
}
