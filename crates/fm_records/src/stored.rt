ghost use Rattle.std.specs.Prelude.{◌≡◌, ◌++◌, ◌∷◌, [], ◌<◌, length, slice_index_or, take, pos, true, false, ◌↔◌, fold, IfOk, OnOk, OnErr};
ghost use Rattle.fm_base_bytes.specs.Signed.{FitsBytes};
ghost use Rattle.fm_records.specs.Kept.{Becomes};
ghost use Rattle.fm_records.specs.Stored.{IsPut, StandsBehind, number_width, numbers_of, width_in, width_with};

use fm_base::Refusal;
use fm_lanes::ValueKind;
use std::alloc::{AllocError, Global};

/// Numbers in the width of one kind.
#[derive(Debug, Drop)]
pub(crate) enum Stored {
    Bytes(Vec<i8>),
    Shorts(Vec<i16>),
    Ints(Vec<i32>),
    Longs(Vec<i64>),
}

impl Stored {
    /// No numbers yet, of this kind. Takes no memory.
    pub fn new(alloc: Global, kind: ValueKind) -> Stored
        ensures none { numbers_of result ≡ [] }
        ensures width { width_in result ≡ number_width kind }
    {
        match kind {
            ValueKind::Byte | ValueKind::Boolean => Stored::Bytes(Vec::new(alloc)),
            ValueKind::Short => Stored::Shorts(Vec::new(alloc)),
            ValueKind::Char | ValueKind::Int => Stored::Ints(Vec::new(alloc)),
            ValueKind::Long => Stored::Longs(Vec::new(alloc)),
        }
    }

    /// How many there are.
    pub fn len(&self) -> usize
        ensures { result ≡ length (numbers_of self.now) }
    {
        match self {
            Stored::Bytes(items) => items.len(),
            Stored::Shorts(items) => items.len(),
            Stored::Ints(items) => items.len(),
            Stored::Longs(items) => items.len(),
        }
    }

    /// The number of this index.
    pub fn at(&self, k: usize) -> i64
        requires { k < length (numbers_of self.now) }
        ensures { result ≡ slice_index_or (numbers_of self.now) k (pos 0) }
    {
        match self {
            Stored::Bytes(items) => i64::from(items[k]),
            Stored::Shorts(items) => i64::from(items[k]),
            Stored::Ints(items) => i64::from(items[k]),
            Stored::Longs(items) => items[k],
        }
    }

    /// Adds a number at the end, if the width holds it.
    #[inline(always)]
    pub fn put(&mut self, number: i64) -> Result<bool, AllocError>
        ensures put { result ≡ Ok true → numbers_of self.new ≡ numbers_of self.old ++ number ∷ [] }
        ensures wide { result ≡ Ok false → numbers_of self.new ≡ numbers_of self.old }
        ensures fits { IfOk result (λ did. did ≡ true ↔ FitsBytes (width_in self.old) number) }
        ensures same { OnErr result (numbers_of self.new ≡ numbers_of self.old) }
        ensures width { width_in self.new ≡ width_in self.old }
    {
        match self {
            Stored::Bytes(items) => put_byte(items, number),
            Stored::Shorts(items) => put_short(items, number),
            Stored::Ints(items) => put_int(items, number),
            Stored::Longs(items) => put_long(items, number),
        }
    }

    /// Adds numbers of the same width at the end.
    pub fn extend(&mut self, more: &Stored) -> Result<bool, AllocError>
        ensures put { result ≡ Ok true → numbers_of self.new ≡ numbers_of self.old ++ numbers_of more.now }
        ensures other { result ≡ Ok false → numbers_of self.new ≡ numbers_of self.old }
        ensures alike { IfOk result (λ did. did ≡ true ↔ width_in self.old ≡ width_in more.now) }
        ensures same { OnErr result (numbers_of self.new ≡ numbers_of self.old) }
        ensures width { width_in self.new ≡ width_in self.old }
    {
        match (self, more) {
            (Stored::Bytes(items), Stored::Bytes(more)) => extended(items, more),
            (Stored::Shorts(items), Stored::Shorts(more)) => extended(items, more),
            (Stored::Ints(items), Stored::Ints(more)) => extended(items, more),
            (Stored::Longs(items), Stored::Longs(more)) => extended(items, more),
            _ => Ok(false),
        }
    }

    /// Keeps the first `n` alone.
    pub fn truncate(&mut self, n: usize)
        ensures first { numbers_of self.new ≡ take n (numbers_of self.old) }
        ensures width { width_in self.new ≡ width_in self.old }
    {
        match self {
            Stored::Bytes(items) => items.truncate(n),
            Stored::Shorts(items) => items.truncate(n),
            Stored::Ints(items) => items.truncate(n),
            Stored::Longs(items) => items.truncate(n),
        }
    }

    /// Adds a number at the end. It stands in the width of the others where that holds it; else all become longs.
    /// Refused: `Memory`, which leaves them as they were.
    #[inline(always)]
    pub fn push(&mut self, alloc: Global, number: i64) -> Result<(), Refusal>
        ensures becomes { Becomes (numbers_of self.old) (numbers_of self.new)
            (numbers_of self.old ++ number ∷ []) result }
        ensures width { OnOk result (width_in self.new ≡ width_with (width_in self.old) number) }
        ensures stays { OnErr result (width_in self.new ≡ width_in self.old) }
    {
        if self.put(number)? {
            return Ok(());
        }
        self.widen(alloc, number)
    }

    /// Makes all of them longs, and adds one more.
    fn widen(&mut self, alloc: Global, number: i64) -> Result<(), Refusal>
        ensures becomes { Becomes (numbers_of self.old) (numbers_of self.new)
            (numbers_of self.old ++ number ∷ []) result }
        ensures width { OnOk result (width_in self.new ≡ 8) }
        ensures stays { OnErr result (width_in self.new ≡ width_in self.old) }
    {
        let mut longs = self.longs(alloc)?;
        if longs.push(number).is_err() {
            return Err(Refusal::Memory);
        }
        *self = Stored::Longs(longs);
        Ok(())
    }

    /// The same numbers as longs.
    fn longs(&self, alloc: Global) -> Result<Vec<i64>, AllocError>
        ensures { IfOk result (λ longs. longs.items ≡ numbers_of self.now) }
    {
        let mut longs = Vec::new(alloc);
        for k in 0..self.len() {
            longs.push(self.at(k))?;
        }
        Ok(longs)
    }

    /// Adds numbers at the end, those of the same width all at once, and others one by one. Refused: `Memory`, which
    /// leaves the numbers as they were.
    pub fn append(&mut self, alloc: Global, more: &Stored) -> Result<(), Refusal>
        ensures becomes { Becomes (numbers_of self.old) (numbers_of self.new)
            (numbers_of self.old ++ numbers_of more.now) result }
        ensures width { OnOk result (StandsBehind self.old self.new more.now) }
    {
        if self.extend(more)? {
            return Ok(());
        }
        self.append_each(alloc, more)
    }

    /// The same one by one.
    fn append_each(&mut self, alloc: Global, more: &Stored) -> Result<(), Refusal>
        ensures becomes { Becomes (numbers_of self.old) (numbers_of self.new)
            (numbers_of self.old ++ numbers_of more.now) result }
        ensures width { OnOk result (width_in self.new
            ≡ fold width_with (width_in self.old) (numbers_of more.now)) }
    {
        let len = self.len();
        for k in 0..more.len() {
            if self.push(alloc, more.at(k)).is_err() {
                self.truncate(len);
                return Err(Refusal::Memory);
            }
        }
        Ok(())
    }
}

/// Adds a number at the end, if a byte holds it.
#[inline(always)]
fn put_byte(items: &mut Vec<i8>, number: i64) -> Result<bool, AllocError>
    ensures { IsPut 1 items.old.items items.new.items number result }
{
    if number < -128 || number > 127 {
        return Ok(false);
    }
    items.push(number as i8)?;
    Ok(true)
}

/// The same of a short.
#[inline(always)]
fn put_short(items: &mut Vec<i16>, number: i64) -> Result<bool, AllocError>
    ensures { IsPut 2 items.old.items items.new.items number result }
{
    if number < -32_768 || number > 32_767 {
        return Ok(false);
    }
    items.push(number as i16)?;
    Ok(true)
}

/// The same of an int.
#[inline(always)]
fn put_int(items: &mut Vec<i32>, number: i64) -> Result<bool, AllocError>
    ensures { IsPut 4 items.old.items items.new.items number result }
{
    if number < -2_147_483_648 || number > 2_147_483_647 {
        return Ok(false);
    }
    items.push(number as i32)?;
    Ok(true)
}

/// The same of a long, which holds each.
#[inline(always)]
fn put_long(items: &mut Vec<i64>, number: i64) -> Result<bool, AllocError>
    ensures { IsPut 8 items.old.items items.new.items number result }
{
    items.push(number)?;
    Ok(true)
}

/// Adds all of these at the end.
fn extended<T: Copy>(items: &mut Vec<T>, more: &Vec<T>) -> Result<bool, AllocError>
    ensures put { OnOk result (items.new.items ≡ items.old.items ++ more.now.items) }
    ensures did { IfOk result (λ did. did ≡ true) }
    ensures same { OnErr result (items.new.items ≡ items.old.items) }
{
    items.extend_from_slice(more.as_slice())?;
    Ok(true)
}
