ghost use Rattle.std.specs.Prelude.{◌≡◌, ◌++◌, ◌∷◌, []};

use fm_records::Answer;
use std::alloc::{AllocError, Global};
use std::marker::Model;

/// A share, and what it answers.
#[derive(Drop)]
pub struct Done {
    pub job: u32,
    pub answer: Answer,
}

/// What a taker answered, in the order in which it took the shares.
#[derive(Drop)]
pub struct Answers {
    pub(crate) done: Vec<Done>,
}

impl Model for Answers {
    ghost use Rattle.std.specs.Prelude.{List};
    ghost use Rattle.fm_workers_shares.specs.declared.answers.Done.{Done};

    ghost Value = { List Done };

    ghost view = { λ a. a.done.items };
}
