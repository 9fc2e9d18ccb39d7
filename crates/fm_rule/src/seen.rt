use std::marker::Model;

/// What a seat has seen. No value of it is made.
#[derive(Drop)]
pub struct Seen {
    nothing: u8,
}

impl Model for Seen {
    ghost use Rattle.fm_rule_facts.specs.Views.{View};
    ghost use Rattle.fm_rule_facts.specs.Splits.{nothing_seen};

    ghost Value = { View };

    ghost view = { λ s. nothing_seen };
}

impl Seen {
    /// Nothing.
    pub fn nothing(&self) -> u8 {
        self.nothing
    }
}
