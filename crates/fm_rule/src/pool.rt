ghost use Rattle.std.specs.Prelude.{◌≡◌, ◌<◌, ◌≤◌, ◌-◌, IfOk, IfErr, length};
ghost use Rattle.fm_words.specs.Shapes.{IsValid};
ghost use Rattle.fm_words.specs.Places.{IsPlace, at, groups, map, page_groups, page_word, words};
ghost use Rattle.fm_base.specs.declared.refusal.Refusal.TheVariants.{Memory};
ghost use Rattle.fm_rule_facts.specs.declared.step.Step.TheVariants.{Looks};
ghost use Rattle.fm_rule_facts.specs.Views.{IsSound, limit_of, span};
ghost use Rattle.fm_rule_facts.specs.Moves.{Tells};
ghost use Rattle.fm_rule.specs.Views.{first_pass, numbers_of, HasPart, IsKept};
ghost use Rattle.fm_rule.specs.Beginning.{AreFirst, IsBegun, IsFull};
ghost use Rattle.fm_words.specs.Bits.{number_at};

use crate::pass::{NO_ARENA, NO_PART, Part, Pass};
use crate::seen::Seen;
use atomic_table::{Play, Table, TableRule};
use fm_base::{Caller, Refusal};
use fm_words::{Shape, map_of, ones, without_bit};
use std::alloc::Global;
use std::marker::{Brand, PhantomData};

/// The rule of a pool's words.
pub struct Law;

impl TableRule<(), Seen, Shape> for Law {
    ghost use Rattle.fm_rule_facts.specs.Facts.{Rule};
    ghost use Rattle.fm_rule_facts.specs.Splits.{first_view};

    ghost holds = { λ z s. Rule z s.words s.views };

    ghost first = { first_view };
}

/// Which step a call makes. Each call picks it.
pub trait Aim {
    ghost use Rattle.fm_rule_facts.specs.declared.step.Step.{Step};

    ghost step: { Step };
}

impl Aim for Brand {
    ghost step = { Looks };
}

/// What a step tells its caller.
pub struct Told<J> {
    of: PhantomData<J>,
}

impl<J: Aim> Play<(), Seen> for Told<J> {
    ghost use Rattle.std.specs.Prelude.{◌≡◌};

    ghost then = { λ st m found n. Tells J.step m.0 found n.0 × (n.1 ≡ m.1) };
}

/// Words that passes share.
#[derive(Drop)]
pub struct Pool {
    pub(crate) table: Table<(), Seen, Shape, Law, Global>,
    pub(crate) shape: Shape,
    ghost shape_is: { shape ≡ table.shared.key },
    ghost sized: { table.shared.table_id.words ≡ words shape },
    ghost slotless: { table.shared.table_id.slots ≡ 0 },
    ghost valid: { IsValid shape },
}

/// A group's word of bits for so many things: each has its bit 1.
fn group_ones(count: u32, group: u32) -> u64
    requires { number_at group 0 < count }
    ensures { IsFull count group result }
{
    ones((count - 64 * group).min(64))
}

/// A word of number bits of a new pool: each number of the group is free but number 0, which the first pass has.
fn first_numbers(shape: Shape, group: u32) -> u64
    requires { number_at group 0 < shape.passes }
    ensures { AreFirst shape group result }
{
    let word = group_ones(shape.passes, group);
    if group == 0 {
        without_bit(word, 0)
    } else {
        word
    }
}

/// Sets the page bits of a new pool.
fn set_page_bits(words: &mut Vec<u64>, shape: Shape)
    requires valid { IsValid shape }
    requires begun { IsBegun shape words.old.items 0 0 }
    ensures { IsBegun shape words.new.items (page_groups shape) 0 }
{
    for group in 0..shape.page_groups() {
        words[shape.page_bits_place(group) as usize] = group_ones(shape.pages, group);
    }
}

/// Sets the number bits of a new pool, whose page bits are set.
fn set_number_bits(words: &mut Vec<u64>, shape: Shape)
    requires valid { IsValid shape }
    requires begun { IsBegun shape words.old.items (page_groups shape) 0 }
    ensures { IsBegun shape words.new.items (page_groups shape) (groups shape) }
{
    for group in 0..shape.groups() {
        words[shape.number_bits_place(group) as usize] = first_numbers(shape, group);
    }
}

impl Pool {
    /// A pool of this shape and its first pass, which has number 0. Every slot can be taken, every page claimed, and
    /// every other number drawn.
    ///
    /// All memory is taken here. Refused: `Memory`.
    pub fn make(alloc: Global, shape: Shape) -> Result<(Pool, Pass), Refusal>
        requires { IsValid shape }
        ensures pool { IfOk result (λ r. r.0.shape ≡ shape) }
        ensures pass { IfOk result (λ r. r.1 ≡ first_pass (numbers_of r.0.table.shared.table_id) shape) }
        ensures sound { IfOk result (λ r. IsSound r.1) }
        ensures memory { IfErr result (λ e. e ≡ Memory) }
    {
        let mut words = vec![in alloc; 0u64; shape.words() as usize]?;
        words[shape.draw_place() as usize] = 1;
        words[shape.slot_bits_place() as usize] = ones(shape.slots);
        set_page_bits(&mut words, shape);
        set_number_bits(&mut words, shape);
        let (table, seat) = Table::of_words(alloc, &words, &shape)?;
        let pass = Pass {
            seat,
            caller: Caller { number: 0, term: 0 },
            is_inside: false,
            current: NO_ARENA,
            part: NO_PART,
            other: NO_PART,
            gathered: 0,
        };
        Ok((Pool { table, shape }, pass))
    }

    /// The shape that it was made in.
    pub fn shape(&self) -> Shape
        ensures shape { result ≡ self.now.shape }
        ensures valid { IsValid result }
    {
        self.shape
    }

    /// How many words an arena has.
    pub fn span(&self) -> u64
        ensures { result ≡ span self.now.shape }
    {
        u64::from(self.shape.reach) * u64::from(self.shape.page_words)
    }

    /// How many bytes an arena can give.
    pub fn limit(&self) -> u64
        ensures { result ≡ limit_of self.now.shape }
    {
        self.span() * 8
    }

    /// The part of this index of the slot's arena, where this is its map word.
    ///
    /// A call of its own: in a visit's loop its words would be made ready at each visit, used or not.
    #[inline(never)]
    pub(crate) fn part_of(&self, slot: u32, index: u32, word: u64) -> Part
        requires low { word ≤ self.now.shape.pages }
        requires place { IsPlace self.now.shape (map slot index) }
        ensures none { word ≡ 0 → result.words ≡ 0 }
        ensures some { HasPart self.now.shape index word result }
        ensures kept { 0 < result.size → IsKept self.now.shape result }
    {
        match map_of(word) {
            Some(page) => Part {
                first: u64::from(index) * u64::from(self.shape.page_words),
                words: u64::from(self.shape.page_words),
                from: self.shape.page_place(page, 0),
                slot,
                index,
                size: u64::from(self.shape.page_words),
                word,
                word_at: self.shape.map_place(slot, index),
            },
            None => NO_PART,
        }
    }

    /// Where this word of a page stands that has this map word; 0 where the map word is 0.
    pub(crate) fn word_place(&self, word: u64, offset: u32) -> u64
        requires low { word ≤ self.now.shape.pages }
        requires offset { offset < self.now.shape.page_words }
        ensures { 0 < word → result ≡ at self.now.shape (page_word (word - 1) offset) }
    {
        match map_of(word) {
            Some(page) => self.shape.page_place(page, offset),
            None => 0,
        }
    }

    /// A guess at the session word of a slot; 0 where there is no such slot. It tells nothing.
    pub fn guess_session(&self, slot: u32) -> u64 {
        if slot < self.shape.slots {
            self.peek(self.shape.session_place(slot))
        } else {
            0
        }
    }

    /// A guess at the word of slot bits. It tells nothing.
    pub fn guess_slots(&self) -> u64 {
        self.peek(self.shape.slot_bits_place())
    }

    /// A guess at a group's word of page bits. It tells nothing.
    pub fn guess_pages(&self, group: u32) -> u64
        requires { group < page_groups self.now.shape }
    {
        self.peek(self.shape.page_bits_place(group))
    }

    /// A load of the word at this place. It tells nothing.
    pub fn peek(&self, place: u64) -> u64
        requires { place < words self.now.shape }
    {
        self.table.shared.peek(place as usize)
    }
}
