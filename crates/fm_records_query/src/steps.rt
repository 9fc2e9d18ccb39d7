ghost use Rattle.std.specs.Prelude.{◌≡◌, ◌++◌, ◌∷◌, [], length, OnOk};

use fm_path::PathStep;
use std::alloc::{AllocError, Global};
use std::marker::Model;

/// The steps of a path, seen as their list.
#[derive(Drop)]
pub struct Steps {
    steps: Vec<PathStep>,
}

impl Model for Steps {
    ghost use Rattle.std.specs.Prelude.{List};
    ghost use Rattle.fm_path_text.specs.declared.step.PathStep.{PathStep};

    ghost Value = { List PathStep };

    ghost view = { λ steps. steps.steps.items };
}

impl Steps {
    /// No steps. Takes no memory.
    pub fn new(alloc: Global) -> Steps
        ensures { result ≡ [] }
    {
        Steps {
            steps: Vec::new(alloc),
        }
    }

    /// These steps.
    pub fn of(steps: Vec<PathStep>) -> Steps
        ensures { result ≡ steps.items }
    {
        Steps { steps }
    }

    /// The steps as a vector again.
    pub fn into_vec(self) -> Vec<PathStep>
        ensures { result.items ≡ self }
    {
        self.steps
    }

    /// How many there are.
    pub fn len(&self) -> usize
        ensures { result ≡ length self.now }
    {
        self.steps.len()
    }

    /// Adds a step at the end.
    pub fn push(&mut self, step: PathStep) -> Result<(), AllocError>
        ensures { OnOk result (self.new ≡ self.old ++ step ∷ []) }
    {
        self.steps.push(step)?;
        Ok(())
    }

    pub fn as_slice(&self) -> &[PathStep]
        ensures { result.now ≡ self.now }
    {
        self.steps.as_slice()
    }
}
