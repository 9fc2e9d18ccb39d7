ghost use Rattle.std.specs.Prelude.{◌≡◌, ◌≤◌, ◌<◌, ◌+◌, ◌++◌, ◌∷◌, [], MatchOption, length, map, vec_capacity, All, IfOk, List};
ghost use Rattle.std.specs.Option.{option_map};
ghost use Rattle.fm_base.specs.declared.arena_id.ArenaId.{ArenaId};
ghost use Rattle.fm_rule_facts.specs.Views.{View};
ghost use Rattle.fm_script_lines.specs.Numbers.{number_at};
ghost use Rattle.fm_script_lines.specs.Standings.{IsBacked, lent, standing_as, arena_of, segment_of, hold_in, handle_in, standing_of, unheld, handed_back};
ghost use Rattle.fm_script_lines.specs.Tables.{IsOwn};
ghost use Rattle.fm_script_lines.specs.Tokens.{Backs};

use crate::bound::Bound;
use crate::numbers::Numbers;
use crate::outcome::LineOutcome;
use crate::reply::Reply;
use crate::standing::Standing;
use fm_arena::AutoHandle;
use fm_gate::Hold;
use fm_path_text::NameText;
use std::alloc::{AllocError, Global};

/// What the names of a pass's lines stand for, and the names of others' lines that it may use, by the numbers of the
/// lines that make them.
pub struct Table<'a> {
    pub(crate) names: &'a Numbers,
    /// Of the lines before all workers', in a worker's table.
    pub(crate) base: &'a [Standing],
    /// The number of the first line of its own.
    pub(crate) start: usize,
    /// Of its own lines, as far as they have run.
    pub(crate) own: Vec<Standing>,
    ghost behind: { length base.now ≤ start },
}

impl<'a> Table<'a> {
    ghost use Rattle.fm_script_lines.specs.Learnt.{IsFresh, KeepsTable, TookFrom};

    /// Of no lines of its own yet, with room for so many. The first has the number `start`.
    pub fn new(
        alloc: Global,
        names: &'a Numbers,
        base: &'a [Standing],
        start: usize,
        lines: usize,
    ) -> Result<Table<'a>, AllocError>
        requires { length base.now ≤ start }
        ensures { IfOk result (IsFresh names.now base.now start lines) }
    {
        let own = Vec::with_capacity(alloc, lines)?;
        Ok(Table {
            names,
            base,
            start,
            own,
        })
    }

    /// What its own names stand for, as far as their lines have run.
    pub fn standings(&self) -> &[Standing]
        ensures { result.now ≡ self.now.own.items }
    {
        self.own.as_slice()
    }

    /// Puts another pass's names behind its own.
    pub fn take_over(&mut self, others: &[Bound])
        requires room { length self.old.own.items + length others.now ≤ vec_capacity self.old.own }
        ensures keeps { KeepsTable self.old self.new }
        ensures own { self.new.own.items ≡ self.old.own.items ++ map standing_as others.now }
        ensures backs { (p : View) (holds handles : List ArenaId)
            → Backs p holds handles self.old.base.now self.old.own.items
            → All (IsBacked p) (map standing_as others.now)
            → Backs p holds handles self.old.base.now self.new.own.items }
    {
        for other in others {
            self.own.push_reserved(other.standing());
        }
    }

    /// Takes in what the next of its own lines came to, and answers the reply.
    pub(crate) fn take_in(&mut self, out: LineOutcome) -> Reply
        requires { length self.old.own.items < vec_capacity self.old.own }
        ensures keeps { KeepsTable self.old self.new }
        ensures own { self.new.own.items ≡ self.old.own.items ++ out.made ∷ [] }
        ensures reply { result ≡ out.reply }
    {
        let LineOutcome { reply, made } = out;
        self.own.push_reserved(made);
        reply
    }

    /// What the name is bound to, by a line before all workers' or by one of its own that has run.
    pub(crate) fn at(&self, name: &NameText) -> Bound
        ensures arena { arena_of (standing_as result)
            ≡ arena_of (standing_of self.now.base.now self.now.start self.now.own.items
            (number_at self.now.names.now name.now)) }
        ensures segment { segment_of (standing_as result)
            ≡ segment_of (standing_of self.now.base.now self.now.start self.now.own.items
            (number_at self.now.names.now name.now)) }
    {
        let Some(number) = self.names.of(name) else {
            return Bound::Nothing;
        };
        if number < self.base.len() {
            return self.base[number].bound();
        }
        if number < self.start {
            return Bound::Nothing;
        }
        match self.own.get(number - self.start) {
            Some(standing) => standing.bound(),
            None => Bound::Nothing,
        }
    }

    /// The handle that it is bound to by a line of its own, unless that was given back.
    pub(crate) fn handle(&self, name: &NameText) -> Option<&AutoHandle>
        ensures { option_map (λ h. h.now) result
            ≡ handle_in (standing_of self.now.base.now self.now.start self.now.own.items
            (number_at self.now.names.now name.now)) }
    {
        let at = self.own_place(name)?;
        match &self.own[at] {
            Standing::Automatic(_, handle) | Standing::Handle(handle) => handle.as_ref(),
            _ => None,
        }
    }

    /// Takes the hold out that the name is bound to.
    pub(crate) fn take_hold(&mut self, name: &NameText) -> Option<Hold>
        ensures keeps { KeepsTable self.old self.new }
        ensures took { TookFrom unheld hold_in self.old self.new name.now result }
    {
        let at = self.own_place(name)?;
        match &mut self.own[at] {
            Standing::Hold(hold) => hold.take(),
            _ => None,
        }
    }

    /// Takes the handle out.
    pub(crate) fn take_handle(&mut self, name: &NameText) -> Option<AutoHandle>
        ensures keeps { KeepsTable self.old self.new }
        ensures took { TookFrom handed_back handle_in self.old self.new name.now result }
    {
        let at = self.own_place(name)?;
        match &mut self.own[at] {
            Standing::Automatic(_, handle) => handle.take(),
            Standing::Handle(handle) => handle.take(),
            _ => None,
        }
    }

    /// The place of the line that makes the name, if it is one of its own.
    fn own_place(&self, name: &NameText) -> Option<usize>
        ensures { MatchOption result
            ((at : _) → IsOwn (length self.now.base.now) self.now.start (length self.now.own.items)
            (number_at self.now.names.now name.now) at → ⊥)
            (IsOwn (length self.now.base.now) self.now.start (length self.now.own.items)
            (number_at self.now.names.now name.now)) }
    {
        let number = self.names.of(name)?;
        if number < self.base.len()
            || number < self.start
            || self.own.len() <= number - self.start
        {
            return None;
        }
        Some(number - self.start)
    }
}
