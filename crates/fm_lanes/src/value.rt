ghost use Rattle.std.specs.Prelude.{◌≡◌};
ghost use Rattle.fm_lanes.specs.Value.{kind_of, number_of_value};

use crate::value_kind::ValueKind;

/// A value of one of the six kinds.
#[derive(Clone, Copy, Debug, PartialEq, Eq)]
pub enum Value {
    Byte(i8),
    Boolean(bool),
    Char(u16),
    Short(i16),
    Int(i32),
    Long(i64),
}

impl Value {
    pub fn kind(self) -> ValueKind
        ensures { result ≡ kind_of self }
    {
        match self {
            Value::Byte(_) => ValueKind::Byte,
            Value::Boolean(_) => ValueKind::Boolean,
            Value::Char(_) => ValueKind::Char,
            Value::Short(_) => ValueKind::Short,
            Value::Int(_) => ValueKind::Int,
            Value::Long(_) => ValueKind::Long,
        }
    }

    /// The value as a number: a boolean is 0 or 1, a char its code.
    pub fn number(self) -> i64
        ensures { result ≡ number_of_value self }
    {
        match self {
            Value::Byte(n) => i64::from(n),
            Value::Boolean(b) => i64::from(b),
            Value::Char(n) => i64::from(n),
            Value::Short(n) => i64::from(n),
            Value::Int(n) => i64::from(n),
            Value::Long(n) => n,
        }
    }
}
