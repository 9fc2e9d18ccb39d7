ghost use Rattle.std.specs.Prelude.{◌≡◌};
ghost use Rattle.fm_lanes.specs.Kind.{width_of};
ghost use Rattle.fm_lanes.specs.Named.{kind_text, kind_named};

/// The kinds of value that a value layout describes (`ValueLayout`, Java SE 22), floats and addresses left out.
#[derive(Clone, Copy, Debug, PartialEq, Eq)]
pub enum ValueKind {
    /// One byte, signed.
    Byte,
    /// One byte: 0 is false, every other byte true.
    Boolean,
    /// Two bytes, unsigned.
    Char,
    /// Two bytes, signed.
    Short,
    /// Four bytes, signed.
    Int,
    /// Eight bytes, signed.
    Long,
}

impl ValueKind {
    /// The bytes that a value of this kind takes: 1, 2, 4 or 8.
    pub fn width(self) -> u32
        ensures { result ≡ width_of self }
    {
        match self {
            ValueKind::Byte | ValueKind::Boolean => 1,
            ValueKind::Char | ValueKind::Short => 2,
            ValueKind::Int => 4,
            ValueKind::Long => 8,
        }
    }

    /// The kind's name in texts: `byte`, `boolean`, `char`, `short`, `int` or `long`.
    pub fn name(self) -> &'static str
        ensures { result.now ≡ kind_text self }
    {
        match self {
            ValueKind::Byte => "byte",
            ValueKind::Boolean => "boolean",
            ValueKind::Char => "char",
            ValueKind::Short => "short",
            ValueKind::Int => "int",
            ValueKind::Long => "long",
        }
    }

    /// The kind that has this name; none where no kind has.
    #[tactic(auto, unfolding(crate::specs::Named::kind_named))]
    pub fn named(text: &str) -> Option<ValueKind>
        ensures { result ≡ kind_named text.now }
    {
        match text {
            "byte" => Some(ValueKind::Byte),
            "boolean" => Some(ValueKind::Boolean),
            "char" => Some(ValueKind::Char),
            "short" => Some(ValueKind::Short),
            "int" => Some(ValueKind::Int),
            "long" => Some(ValueKind::Long),
            _ => None,
        }
    }
}
