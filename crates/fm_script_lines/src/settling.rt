ghost use Rattle.std.specs.Option.{option_map};
ghost use Rattle.std.specs.Prelude.{◌≡◌, None, IfSome};
ghost use Rattle.fm_arena.specs.Handles.{HasHandle};
ghost use Rattle.fm_arena.specs.Learnt.{CanUnhold};
ghost use Rattle.fm_script_lines.specs.Runs.{WentOn};
ghost use Rattle.fm_script_lines.specs.Standings.{IsSpent, hold_of, handle_of, lent, standing_as};
ghost use Rattle.fm_script_lines.specs.Tokens.{MaySpend, without};

use crate::bound::Bound;
use crate::standing::Standing;
use crate::table::Table;
use crate::tokens::{end_handle, end_hold};
use fm_arena::{AutoHandle, Shared};
use fm_gate::Hold;
use std::sync::Wait;

impl<'a> Table<'a> {
    ghost use Rattle.fm_script_lines.specs.Learnt.{AfterSettle, CanSettle};

    /// Gives back the holds and handles that its own lines left. The pass then has those that it had before them.
    /// `others` gets what each name stands for to other passes.
    pub fn settle<R: Wait>(self, rt: &R, m: &mut Shared, others: &mut Vec<Bound>)
        requires { CanSettle m.old self others.old }
        ensures { AfterSettle m.old m.new self.entry others.new.items }
    {
        let Table {
            names: _,
            base: _,
            start: _,
            mut own,
        } = self;
        while let Some(standing) = own.pop() {
            others.push_reserved(spend(rt, m, standing));
        }
        own.destroy_empty();
        others.reverse();
    }
}

/// Gives back what it stands for, if that is a hold or a handle, and answers what it stands for to other passes.
fn spend<R: Wait>(rt: &R, m: &mut Shared, standing: Standing) -> Bound
    requires { MaySpend m.old standing }
    ensures spent { IsSpent standing → m.new ≡ m.old }
    ensures holds { m.new.holds ≡ without (hold_of standing) m.old.holds }
    ensures handles { m.new.handles ≡ without (handle_of standing) m.old.handles }
    ensures went { WentOn m.old m.new }
    ensures lent { standing_as result ≡ lent standing }
{
    match standing {
        Standing::Nothing => Bound::Nothing,
        Standing::Arena(id) => Bound::Arena(id),
        Standing::Segment(segment) => Bound::Segment(segment),
        Standing::Hold(hold) => {
            spend_hold(m, hold);
            Bound::Nothing
        }
        Standing::Automatic(id, handle) => {
            spend_handle(rt, m, handle);
            Bound::Arena(id)
        }
        Standing::Handle(handle) => {
            spend_handle(rt, m, handle);
            Bound::Nothing
        }
    }
}

fn spend_hold(m: &mut Shared, hold: Option<Hold>)
    requires outside { m.old.inside ≡ None }
    requires can { IfSome hold (CanUnhold m.old) }
    ensures same { option_map (λ h. h.arena) hold ≡ None → m.new ≡ m.old }
    ensures holds { m.new.holds ≡ without (option_map (λ h. h.arena) hold) m.old.holds }
    ensures handles { m.new.handles ≡ m.old.handles }
    ensures went { WentOn m.old m.new }
{
    if let Some(hold) = hold {
        end_hold(m, hold);
    }
}

fn spend_handle<R: Wait>(rt: &R, m: &mut Shared, handle: Option<AutoHandle>)
    requires outside { m.old.inside ≡ None }
    requires can { IfSome handle (HasHandle m.old) }
    ensures same { option_map (λ h. h.arena) handle ≡ None → m.new ≡ m.old }
    ensures holds { m.new.holds ≡ m.old.holds }
    ensures handles { m.new.handles ≡ without (option_map (λ h. h.arena) handle) m.old.handles }
    ensures went { WentOn m.old m.new }
{
    if let Some(handle) = handle {
        end_handle(rt, m, handle);
    }
}
