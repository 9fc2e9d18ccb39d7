ghost use Rattle.std.specs.Prelude.{◌≡◌, ◌<◌};
ghost use Rattle.fm_records_query.specs.Reader.{value_of, longer, IsNumber};

/// A number of 64 bits with a sign, as far as it has been read.
#[derive(Clone, Copy)]
pub enum Number {
    /// From 0 up.
    Up(u64),
    /// Below 0 by so much.
    Down(u64),
}

const HALF: u64 = 1 << 63;

impl Number {
    /// The number with one more digit, if there is one: no zero leads, and 64 bits hold it.
    pub fn longer(self, digit: u8) -> Option<Number>
        requires number { IsNumber self }
        requires digit { digit < 10 }
        ensures { result ≡ longer self digit }
    {
        match self {
            Number::Up(n) => {
                if n == 0 || n > HALF / 10 {
                    return None;
                }
                let longer = 10 * n + u64::from(digit);
                if longer < HALF {
                    Some(Number::Up(longer))
                } else {
                    None
                }
            }
            Number::Down(n) => {
                if n > HALF / 10 {
                    return None;
                }
                let longer = 10 * n + u64::from(digit);
                if longer <= HALF {
                    Some(Number::Down(longer))
                } else {
                    None
                }
            }
        }
    }

    pub fn value(self) -> i64
        requires { IsNumber self }
        ensures { result ≡ value_of self }
    {
        match self {
            Number::Up(n) => n as i64,
            Number::Down(n) => -((n - 1) as i64) - 1,
        }
    }
}
