ghost use Rattle.std.specs.Prelude.{◌≡◌};
ghost use Rattle.fm_lanes.specs.Named.{order_text, order_named};

/// Which byte of a value stands first (`ByteOrder`, Java SE 22).
#[derive(Clone, Copy, Debug, PartialEq, Eq)]
pub enum Order {
    /// The lowest byte first.
    Little,
    /// The highest byte first.
    Big,
}

impl Order {
    /// The order's name in texts: `little` or `big`.
    pub fn name(self) -> &'static str
        ensures { result.now ≡ order_text self }
    {
        match self {
            Order::Little => "little",
            Order::Big => "big",
        }
    }

    /// The order that has this name; none where neither has.
    pub fn named(text: &str) -> Option<Order>
        ensures { result ≡ order_named text.now }
    {
        match text {
            "little" => Some(Order::Little),
            "big" => Some(Order::Big),
            _ => None,
        }
    }
}
