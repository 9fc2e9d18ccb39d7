ghost use Rattle.std.specs.Prelude.{◌≡◌, ◌++◌, ◌∷◌, [], OnOk, MatchBool, List, ℕ};
ghost use Rattle.fm_layout.specs.Name.{IsName};
ghost use Rattle.fm_script_text.specs.Knowing.{Knows, maker_at, is_spent_at, may_use_at, newer, spent_more};
ghost use Rattle.fm_script_text.specs.Rules.{uses, is_new, made, given_back, is_settled, is_owed, IsAdmitted};
ghost use Rattle.fm_script_text.specs.Syntax.{IsWho};
ghost use Rattle.fm_script_text.specs.declared.line.Line.{Line};

use crate::command::Command;
use crate::maker::Maker;
use crate::names::Names;
use crate::thing::{Role, Thing};
use crate::who::Who;
use fm_path_text::NameText;
use std::alloc::{AllocError, Global};
use std::collections::{BTreeMap, BTreeSet};
use std::str;

impl Names {
    /// Those of no lines.
    pub fn new(alloc: Global) -> Names
        ensures { Knows result [] }
    {
        Names {
            makers: BTreeMap::new(alloc),
            given_back: BTreeSet::new(alloc),
            phase: 0,
            passes: 1,
        }
    }

    /// Whether the line breaks no rule behind those before.
    pub fn admits(&self, who: Who, command: &Command) -> bool
        ensures { (before : List Line) → Knows self.now before → MatchBool result
            (IsAdmitted before who command.now) (IsAdmitted before who command.now → ⊥) }
    {
        self.phase <= who.phase() && self.makes_new(command) && self.uses_known(who, command)
    }

    /// Takes an admitted line's names in.
    pub fn note(&mut self, alloc: Global, who: Who, command: &Command) -> Result<(), AllocError>
        requires { IsWho who }
        ensures { OnOk result ((before : List Line) (l : Line) → Knows self.old before → l.who ≡ who
            → l.command ≡ command.now → IsAdmitted before who command.now → Knows self.new (before ++ l ∷ [])) }
    {
        self.make(alloc, who, command)?;
        self.give_back(alloc, command)?;
        self.phase = who.phase();
        self.passes = self.passes.max(who.pass() + 1);
        Ok(())
    }

    /// Whether what the line makes is given back, if it has to be.
    pub fn settles(&self, command: &Command) -> bool
        ensures { result ≡ is_settled (is_spent_at self.now) (made command.now) }
    {
        match command.makes() {
            None => true,
            Some((name, thing)) => !is_owed(thing) || self.is_spent(name),
        }
    }

    fn make(&mut self, alloc: Global, who: Who, command: &Command) -> Result<(), AllocError>
        ensures made { OnOk result ((name : List ℕ) →
            maker_at self.new name ≡ newer who (made command.now) name (maker_at self.old name)) }
        ensures rest { OnOk result (self.new.given_back ≡ self.old.given_back) }
        ensures phase { OnOk result (self.new.phase ≡ self.old.phase) }
        ensures passes { OnOk result (self.new.passes ≡ self.old.passes) }
    {
        let Some((name, thing)) = command.makes() else {
            return Ok(());
        };
        let key = String::from_str(alloc, text_of(name))?;
        self.makers.insert(key, Maker { who, thing })?;
        Ok(())
    }

    fn give_back(&mut self, alloc: Global, command: &Command) -> Result<(), AllocError>
        ensures given_back { OnOk result ((name : List ℕ) →
            is_spent_at self.new name ≡ spent_more (given_back command.now) name (is_spent_at self.old name)) }
        ensures rest { OnOk result (self.new.makers ≡ self.old.makers) }
        ensures phase { OnOk result (self.new.phase ≡ self.old.phase) }
        ensures passes { OnOk result (self.new.passes ≡ self.old.passes) }
    {
        let Some(name) = command.gives_back() else {
            return Ok(());
        };
        let key = String::from_str(alloc, text_of(name))?;
        self.given_back.insert(key)?;
        Ok(())
    }

    fn makes_new(&self, command: &Command) -> bool
        ensures { result ≡ is_new (maker_at self.now) (made command.now) }
    {
        match command.makes() {
            None => true,
            Some((name, _)) => self.maker(name).is_none(),
        }
    }

    fn uses_known(&self, who: Who, command: &Command) -> bool
        ensures { result ≡ uses (may_use_at self.now who) command.now }
    {
        match command {
            Command::Open { .. } => true,
            Command::Alloc { arena, .. } | Command::Hold { arena, .. } => self.may_use(
                who,
                arena,
                Role::Arena,
            ),
            Command::Alive { arena } | Command::Close { arena, .. } => self.may_use(
                who,
                arena,
                Role::Arena,
            ),
            Command::Slice { segment, .. } | Command::Readonly { segment, .. } => {
                self.may_use(who, segment, Role::Segment)
            }
            Command::Fill { segment, .. } => self.may_use(who, segment, Role::Segment),
            Command::Get(cell)
            | Command::Set(cell, _)
            | Command::Add(cell, _)
            | Command::Cas(cell, _, _) => { self.may_use(who, &cell.segment, Role::Segment) }
            Command::Copy { source, target } => {
                self.may_use(who, source, Role::Segment) && self.may_use(who, target, Role::Segment)
            }
            Command::Mismatch { segment, other } => {
                self.may_use(who, segment, Role::Segment) && self.may_use(who, other, Role::Segment)
            }
            Command::Unhold { hold } => self.may_use(who, hold, Role::Hold),
            Command::Again { handle, .. } | Command::Back { handle } => self.may_use(
                who,
                handle,
                Role::Handle,
            ),
        }
    }

    fn may_use(&self, who: Who, name: &NameText, role: Role) -> bool
        ensures { result ≡ may_use_at self.now who name.now role }
    {
        match self.maker(name) {
            None => false,
            Some(maker) => {
                maker.thing.plays(role) && role.is_at_hand(self.is_spent(name), maker.who, who)
            }
        }
    }

    fn maker(&self, name: &NameText) -> Option<Maker>
        ensures { result ≡ maker_at self.now name.now }
    {
        self.makers.get(text_of(name)).copied()
    }

    fn is_spent(&self, name: &NameText) -> bool
        ensures { result ≡ is_spent_at self.now name.now }
    {
        self.given_back.contains(text_of(name))
    }
}

/// Whether it has to be given back.
fn is_owed(thing: Thing) -> bool
    ensures { result ≡ is_owed thing }
{
    match thing {
        Thing::Automatic | Thing::Hold | Thing::Handle => true,
        Thing::Arena | Thing::Segment => false,
    }
}

/// The name as text.
fn text_of(name: &NameText) -> &str
    ensures { result.now ≡ name.now }
{
    match str::from_utf8(name.as_bytes()) {
        Ok(text) => text,
        Err(_) => unreachable!(),
    }
}
