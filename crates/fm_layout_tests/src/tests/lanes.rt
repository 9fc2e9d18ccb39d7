ghost use Rattle.std.specs.Prelude.{◌≤◌};

use crate::tests::compared::same;
use fm_lanes::{Order, Value, ValueKind, bits, decode, encode, mask, read, turned, words_of};
use std::process::Abort;

/// Stops where the value isn't coded so and read again, or isn't this number.
fn is_coded<R: Abort>(rt: &R, value: Value, coded: u64, number: i64) {
    same(rt, (encode(value), value), (coded, value));
    same(rt, (decode(value.kind(), coded), coded), (value, coded));
    same(rt, (value.number(), value), (number, value));
}

#[test]
fn values_are_coded_in_twos_complement(rt: HostRuntime) {
    is_coded(&rt, Value::Byte(-128), 0x80, -128);
    is_coded(&rt, Value::Byte(127), 0x7f, 127);
    is_coded(&rt, Value::Boolean(false), 0, 0);
    is_coded(&rt, Value::Boolean(true), 1, 1);
    is_coded(&rt, Value::Char(65_535), 0xffff, 65_535);
    is_coded(&rt, Value::Short(-32_768), 0x8000, -32_768);
    is_coded(&rt, Value::Short(32_767), 0x7fff, 32_767);
    is_coded(&rt, Value::Int(-2_147_483_648), 0x8000_0000, -2_147_483_648);
    is_coded(&rt, Value::Int(-1), 0xffff_ffff, -1);
    is_coded(&rt, Value::Long(i64::MIN), 0x8000_0000_0000_0000, i64::MIN);
    is_coded(&rt, Value::Long(-3), 0xffff_ffff_ffff_fffd, -3);
}

/// Stops where the byte isn't read as this boolean.
fn is_boolean<R: Abort>(rt: &R, byte: u64, wanted: bool) {
    same(
        rt,
        (decode(ValueKind::Boolean, byte), byte),
        (Value::Boolean(wanted), byte),
    );
}

#[test]
fn every_other_byte_is_true(rt: HostRuntime) {
    is_boolean(&rt, 0, false);
    is_boolean(&rt, 1, true);
    is_boolean(&rt, 2, true);
    is_boolean(&rt, 255, true);
    is_boolean(&rt, 256, false);
}

/// Stops where the bytes of one in big order aren't those of the other, or change in little order.
fn is_turned<R: Abort>(rt: &R, width: u32, little: u64, big: u64)
    requires low { 1 ≤ width }
    requires high { width ≤ 8 }
{
    same(rt, (turned(width, little, Order::Big), width), (big, width));
    same(rt, (turned(width, big, Order::Big), width), (little, width));
    same(
        rt,
        (turned(width, little, Order::Little), width),
        (little, width),
    );
}

#[test]
fn big_order_turns_the_bytes(rt: HostRuntime) {
    is_turned(&rt, 1, 0x12, 0x12);
    is_turned(&rt, 2, 0x1234, 0x3412);
    is_turned(&rt, 4, 1, 16_777_216);
    is_turned(&rt, 8, 0x0102_0304_0506_0708, 0x0807_0605_0403_0201);
    is_turned(&rt, 2, 0xabcd_1234, 0xabcd_3412);
}

#[test]
fn lanes_are_bytes_of_a_word(rt: HostRuntime) {
    let word = 0x0807_0605_0403_0201;
    same(&rt, read(word, 0, 8), word);
    same(&rt, read(word, 2, 4), 0x0605_0403);
    same(&rt, read(word, 7, 1), 8);
    same(&rt, mask(0, 8), u64::MAX);
    same(&rt, mask(6, 2), 0xffff_0000_0000_0000);
    same(&rt, bits(6, 2, 0xab_1234), 0x1234_0000_0000_0000);
}

/// Stops where the kind isn't so wide, or isn't the one of its name.
fn is_kind<R: Abort>(rt: &R, kind: ValueKind, width: u32) {
    same(rt, (kind.width(), kind), (width, kind));
    same(
        rt,
        (ValueKind::named(kind.name()), kind),
        (Some(kind), kind),
    );
}

#[test]
fn kinds_have_widths_and_names(rt: HostRuntime) {
    is_kind(&rt, ValueKind::Byte, 1);
    is_kind(&rt, ValueKind::Boolean, 1);
    is_kind(&rt, ValueKind::Char, 2);
    is_kind(&rt, ValueKind::Short, 2);
    is_kind(&rt, ValueKind::Int, 4);
    is_kind(&rt, ValueKind::Long, 8);
    same(&rt, ValueKind::named("Int"), None);
    same(&rt, Order::named(Order::Big.name()), Some(Order::Big));
    same(&rt, Order::named("middle"), None);
}

#[test]
fn the_last_word_is_filled_with_zeros(rt: HostRuntime) {
    let bytes = [1, 0, 0, 0, 0, 0, 0, 128, 2, 1];
    let mut words = [u64::MAX; 2];
    words_of(&bytes, &mut words);
    same(&rt, words, [0x8000_0000_0000_0001, 258]);
    words_of(&bytes[..8], &mut words[..1]);
    words_of(&[], &mut words[..0]);
    same(&rt, words, [0x8000_0000_0000_0001, 258]);
}
