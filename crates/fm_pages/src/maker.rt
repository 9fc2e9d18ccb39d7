ghost use Rattle.std.specs.Prelude.{◌≡◌};
ghost use Rattle.fm_rule.specs.Passes.{IsOf};
ghost use Rattle.fm_pages.specs.Makers.{made_by_pass};

use fm_base::Caller;
use fm_rule::{Note, Pass, Pool};
use std::marker::Model;

/// Which pass made a page, a hold, a handle or a close: that pass alone uses it.
#[derive(Drop)]
pub struct Maker {
    caller: Caller,
    /// It tells the pool, and has no bytes.
    note: Note,
}

impl Model for Maker {
    ghost use Rattle.fm_pages.specs.Makers.{Made};

    ghost Value = { Made };

    ghost view = { λ m. record { home = m.note.home; caller = m.caller } };
}

impl Maker {
    /// The pass, which stays as it is.
    pub fn of(pool: &Pool, pass: &mut Pass) -> Maker
        requires { IsOf pool.now pass.old }
        ensures same { pass.new ≡ pass.old }
        ensures maker { result ≡ made_by_pass pass.old }
    {
        Maker {
            caller: pass.caller(),
            note: pool.note(pass),
        }
    }
}
