ghost use Rattle.std.specs.Prelude.{◌≡◌, ◌*◌, ◌^◌, ◌<◌, ◌≤◌};
ghost use Rattle.fm_lanes.specs.Kind.{width_of};
ghost use Rattle.fm_lanes.specs.Value.{kind_of};
ghost use Rattle.fm_lanes.specs.Coding.{decoded, encoded, turned};

use crate::lane::{bits, mask, read};
use crate::order::Order;
use crate::value::Value;
use crate::value_kind::ValueKind;

/// `v` with its lowest `width` bytes reversed for `Big`; its other bytes stay.
pub fn turned(width: u32, v: u64, order: Order) -> u64
    requires low { 1 ≤ width }
    requires high { width ≤ 8 }
    ensures turned { result ≡ turned width v order }
    ensures twice { turned width result order ≡ v }
{
    match order {
        Order::Little => v,
        Order::Big => {
            let low = read(v, 0, width);
            v - low + (low.swap_bytes() >> (64 - 8 * width))
        }
    }
}

/// The two's complement of `v` in its width; a boolean is 0 or 1.
pub fn encode(v: Value) -> u64
    ensures encoded { result ≡ encoded v }
    ensures fits { result < 2 ^ (8 * width_of (kind_of v)) }
    ensures back { decoded (kind_of v) result ≡ v }
{
    match v {
        Value::Byte(n) => u64::from(n.cast_unsigned()),
        Value::Boolean(b) => u64::from(b),
        Value::Char(n) => u64::from(n),
        Value::Short(n) => u64::from(n.cast_unsigned()),
        Value::Int(n) => u64::from(n.cast_unsigned()),
        Value::Long(n) => n.cast_unsigned(),
    }
}

/// The value that the lowest bytes of `v` mean, as many as the kind takes; a boolean is false exactly from 0.
pub fn decode(kind: ValueKind, v: u64) -> Value
    ensures decoded { result ≡ decoded kind v }
    ensures kind { kind_of result ≡ kind }
{
    match kind {
        ValueKind::Byte => Value::Byte(((v & 0xff) as u8).cast_signed()),
        ValueKind::Boolean => Value::Boolean(v & 0xff != 0),
        ValueKind::Char => Value::Char((v & 0xffff) as u16),
        ValueKind::Short => Value::Short(((v & 0xffff) as u16).cast_signed()),
        ValueKind::Int => Value::Int(((v & 0xffff_ffff) as u32).cast_signed()),
        ValueKind::Long => Value::Long(v.cast_signed()),
    }
}
