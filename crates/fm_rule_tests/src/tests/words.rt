ghost use Rattle.fm_words.specs.Sessions.{IsSession};

use crate::tests::compared::same;
use fm_words::{
    Life, Session, Shape, every_word_has_one_place, lowest_bit, map_of, map_word, mark_of,
    mark_word, ones, session_of, session_word, without_bit,
};
use std::process::Abort;

pub(crate) const LEAST: Shape = Shape {
    passes: 1,
    slots: 1,
    pages: 1,
    page_words: 1,
    reach: 1,
    generations: 1,
};

/// The most passes, slots, pages, parts and generations, and so the most words.
pub(crate) const GREATEST: Shape = Shape {
    passes: 4_096,
    slots: 64,
    pages: 4_096,
    page_words: 4_096,
    reach: 4_096,
    generations: u32::MAX,
};

const SMALL: Shape = Shape {
    passes: 3,
    slots: 2,
    pages: 8,
    page_words: 16,
    reach: 4,
    generations: 7,
};

const ZERO: Session = Session {
    generation: 0,
    life: Life::Free,
    kind: 0,
    owner: 0,
    holds: 0,
};

const GREATEST_FIELDS: Session = Session {
    generation: u32::MAX,
    life: Life::Closing,
    kind: 3,
    owner: 4_095,
    holds: 65_535,
};

fn is_coded<R: Abort>(rt: &R, session: Session, word: u64)
    requires { IsSession session }
{
    same(rt, session_word(session), word);
    same(rt, session_of(word), session);
}

#[test]
fn a_session_is_a_word(rt: HostRuntime) {
    let held = Session {
        generation: 5,
        life: Life::Alive,
        kind: 2,
        owner: 3,
        holds: 2,
    };
    is_coded(&rt, held, 23_085_645_826);
    is_coded(&rt, held, 0x0000_0005_6003_0002);
    let shut = Session {
        life: Life::Closing,
        holds: 0,
        ..held
    };
    is_coded(&rt, shut, 0x0000_0005_a003_0000);
}

#[test]
fn fields_lie_apart_in_a_word(rt: HostRuntime) {
    is_coded(&rt, ZERO, 0);
    is_coded(
        &rt,
        Session {
            generation: u32::MAX,
            ..ZERO
        },
        0xffff_ffff_0000_0000,
    );
    is_coded(
        &rt,
        Session {
            life: Life::Closing,
            ..ZERO
        },
        0x8000_0000,
    );
    is_coded(&rt, Session { kind: 3, ..ZERO }, 0x3000_0000);
    is_coded(
        &rt,
        Session {
            owner: 4_095,
            ..ZERO
        },
        0x0fff_0000,
    );
    is_coded(
        &rt,
        Session {
            holds: 65_535,
            ..ZERO
        },
        0xffff,
    );
    is_coded(&rt, GREATEST_FIELDS, 0xffff_ffff_bfff_ffff);
}

#[test]
fn each_two_bits_are_read_as_a_life(rt: HostRuntime) {
    let all = Session {
        life: Life::Unused,
        ..GREATEST_FIELDS
    };
    same(&rt, session_of(u64::MAX), all);
}

#[test]
fn marks_are_words(rt: HostRuntime) {
    for (slot, generation, word) in [
        (0, 0, 0x0000_0001_0000_0000),
        (0, u32::MAX, 0x0000_0001_ffff_ffff),
        (2, 5, 0x0000_0003_0000_0005),
        (63, 0, 0x0000_0040_0000_0000),
        (63, u32::MAX, 0x0000_0040_ffff_ffff),
    ] {
        same(&rt, mark_word(slot, generation), word);
        same(&rt, mark_of(word), Some((slot, generation)));
    }
    same(&rt, mark_of(0), None);
    same(&rt, mark_of(0xffff_ffff), None);
    same(&rt, mark_of(u64::MAX), Some((u32::MAX - 1, u32::MAX)));
}

#[test]
fn pages_are_mapped_by_words(rt: HostRuntime) {
    for (page, word) in [(0, 1), (7, 8), (4_095, 4_096)] {
        same(&rt, map_word(page), word);
        same(&rt, map_of(word), Some(page));
    }
    same(&rt, map_of(0), None);
    same(&rt, map_of(0xffff_ffff), Some(u32::MAX - 1));
}

#[test]
fn the_least_shape_has_one_of_each(rt: HostRuntime) {
    same(&rt, LEAST.is_valid(), true);
    same(&rt, LEAST.front_place(), 0);
    same(&rt, LEAST.draw_place(), 1);
    same(&rt, LEAST.slot_bits_place(), 2);
    same(&rt, LEAST.mark_place(0), 3);
    same(&rt, LEAST.session_place(0), 11);
    same(&rt, LEAST.given_place(0), 12);
    same(&rt, LEAST.map_place(0, 0), 13);
    same(&rt, LEAST.page_place(0, 0), 14);
    same(&rt, LEAST.page_bits_place(0), 15);
    same(&rt, LEAST.groups(), 1);
    same(&rt, LEAST.number_bits_place(0), 16);
    same(&rt, LEAST.term_place(0), 17);
    same(&rt, LEAST.words(), 18);
}

#[test]
fn the_greatest_shape_has_128_mebibytes(rt: HostRuntime) {
    same(&rt, GREATEST.is_valid(), true);
    same(&rt, GREATEST.mark_place(4_095), 32_763);
    same(&rt, GREATEST.session_place(0), 32_771);
    same(&rt, GREATEST.session_place(63), 32_834);
    same(&rt, GREATEST.given_place(0), 32_835);
    same(&rt, GREATEST.given_place(63), 32_898);
    same(&rt, GREATEST.map_place(0, 0), 32_899);
    same(&rt, GREATEST.map_place(63, 4_095), 295_042);
    same(&rt, GREATEST.page_place(0, 0), 295_043);
    same(&rt, GREATEST.page_place(4_095, 4_095), 17_072_258);
    same(&rt, GREATEST.page_groups(), 64);
    same(&rt, GREATEST.page_bits_place(0), 17_072_259);
    same(&rt, GREATEST.page_bits_place(63), 17_072_322);
    same(&rt, GREATEST.groups(), 64);
    same(&rt, GREATEST.number_bits_place(0), 17_072_323);
    same(&rt, GREATEST.number_bits_place(63), 17_072_386);
    same(&rt, GREATEST.term_place(0), 17_072_387);
    same(&rt, GREATEST.term_place(4_095), 17_076_482);
    same(&rt, GREATEST.words(), 17_076_483);
}

#[test]
fn words_of_each_kind_lie_one_after_another(rt: HostRuntime) {
    every_word_has_one_place();
    same(&rt, SMALL.is_valid(), true);
    same(&rt, SMALL.mark_place(2), 19);
    same(&rt, SMALL.session_place(1), 28);
    same(&rt, SMALL.given_place(1), 30);
    same(&rt, SMALL.map_place(0, 3), 34);
    same(&rt, SMALL.map_place(1, 0), 35);
    same(&rt, SMALL.map_place(1, 3), 38);
    same(&rt, SMALL.page_place(0, 15), 54);
    same(&rt, SMALL.page_place(1, 0), 55);
    same(&rt, SMALL.page_place(7, 15), 166);
    same(&rt, SMALL.page_bits_place(0), 167);
    same(&rt, SMALL.number_bits_place(0), 168);
    same(&rt, SMALL.term_place(2), 171);
    same(&rt, SMALL.words(), 172);
}

#[test]
fn bits_fill_words_of_64(rt: HostRuntime) {
    for (count, groups) in [
        (1, 1),
        (63, 1),
        (64, 1),
        (65, 2),
        (128, 2),
        (129, 3),
        (4_096, 64),
    ] {
        let shape = Shape {
            passes: count,
            ..LEAST
        };
        same(&rt, shape.is_valid(), true);
        same(&rt, shape.groups(), groups);
        let shape = Shape {
            pages: count,
            ..LEAST
        };
        same(&rt, shape.is_valid(), true);
        same(&rt, shape.page_groups(), groups);
    }
}

#[test]
fn pages_may_be_more_or_fewer_than_slots_can_map(rt: HostRuntime) {
    for shape in [
        Shape { pages: 7, ..SMALL },
        Shape { pages: 9, ..SMALL },
        Shape { pages: 64, ..SMALL },
        Shape { pages: 65, ..SMALL },
        Shape {
            pages: 4_096,
            reach: 4_096,
            slots: 64,
            ..SMALL
        },
        Shape { reach: 1, ..SMALL },
        Shape { reach: 8, ..SMALL },
        Shape { slots: 64, ..SMALL },
    ] {
        same(&rt, shape.is_valid(), true);
    }
}

/// Each row breaks one rule of `SMALL`, but for the one without pages: no reach is within these.
#[test]
fn shapes_beyond_a_limit_are_refused(rt: HostRuntime) {
    for shape in [
        Shape { passes: 0, ..SMALL },
        Shape {
            passes: 4_097,
            ..SMALL
        },
        Shape { slots: 0, ..SMALL },
        Shape { slots: 65, ..SMALL },
        Shape { pages: 0, ..SMALL },
        Shape {
            pages: 4_097,
            ..SMALL
        },
        Shape {
            page_words: 0,
            ..SMALL
        },
        Shape {
            page_words: 1_048_577,
            ..SMALL
        },
        Shape { reach: 0, ..SMALL },
        Shape { reach: 9, ..SMALL },
        Shape {
            generations: 0,
            ..SMALL
        },
        Shape {
            pages: 64,
            page_words: 262_145,
            ..SMALL
        },
    ] {
        same(&rt, shape.is_valid(), false);
    }
}

#[test]
fn bits_are_found_and_taken(rt: HostRuntime) {
    same(&rt, (ones(1), ones(5), ones(64)), (1, 31, u64::MAX));
    let rows = [
        (0, 64, None),
        (1, 1, Some(0)),
        (0b110, 2, Some(1)),
        (0b100, 2, None),
        (1 << 63, 64, Some(63)),
    ];
    for (word, count, bit) in rows {
        same(&rt, lowest_bit(word, count), bit);
    }
    same(&rt, without_bit(0b110, 1), 0b100);
    same(&rt, without_bit(0b110, 0), 0b110);
    same(&rt, without_bit(u64::MAX, 63), u64::MAX >> 1);
}
