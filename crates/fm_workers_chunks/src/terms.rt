use crate::job::Job;
use crate::served::Served;
use fm_workers_queue::Promise;
use std::marker::{Brand, PhantomData};

/// What the chunks of a desk promise. Who opens the desk picks it.
pub trait Terms {
    ghost use Rattle.std.specs.Prelude.{ℕ, List};
    ghost use Rattle.fm_records_query.specs.Plan.{Plan};
    ghost use Rattle.fm_base.specs.declared.arena_id.ArenaId.{ArenaId};
    ghost use Rattle.fm_base.specs.Calls.{Entry};

    /// The pool of their notes.
    ghost home: { List ℕ };

    /// How many bytes an arena can give.
    ghost limit: { ℕ };

    /// By which query they are answered.
    ghost plan: { Plan };

    /// What a chunk of this number, with so many bytes of this arena, shows of what was seen when it was put.
    ghost stands: { ℕ → ArenaId → ℕ → List Entry → Type 0 };
}

impl Terms for Brand {
    ghost use Rattle.std.specs.Prelude.{[], ⊤};
    ghost use Rattle.fm_workers_chunks.specs.Plans.{no_plan};

    ghost home = { [] };

    ghost limit = { 0 };

    ghost plan = { no_plan };

    ghost stands = { λ number arena count seen. ⊤ };
}

/// The promise by these terms.
pub struct Promised<K> {
    of: PhantomData<K>,
}

impl<K: Terms> Promise<Job> for Promised<K> {
    ghost use Rattle.fm_workers_chunks.specs.Jobs.{IsJob};

    ghost promises = { IsJob K.home K.limit K.plan K.stands };
}

impl<K: Terms> Promise<Served> for Promised<K> {
    ghost use Rattle.fm_workers_chunks.specs.Served.{IsServed};

    ghost promises = { IsServed K.home K.limit K.plan K.stands };
}
