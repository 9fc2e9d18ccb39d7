ghost use Rattle.std.specs.Prelude.{◌≡◌};
ghost use Rattle.fm_script_text.specs.Scripts.{script_of};

use crate::line::Line;
use fm_words::Shape;
use std::marker::Model;

/// A script: the shape of its pool, and its lines behind the pool's, in their order in the file.
#[derive(Drop)]
pub struct Script {
    shape: Shape,
    lines: Vec<Line>,
}

impl Model for Script {
    ghost use Rattle.fm_script_text.specs.Scripts.{ScriptOf, script_of};

    ghost Value = { ScriptOf };

    ghost view = { λ script. script_of script.shape script.lines.items };
}

impl Script {
    /// The script of these lines, over a pool of this shape.
    pub fn of(shape: Shape, lines: Vec<Line>) -> Script
        ensures { result ≡ script_of shape lines.items }
    {
        Script { shape, lines }
    }

    pub fn shape(&self) -> Shape
        ensures { result ≡ self.now.shape }
    {
        self.shape
    }

    pub fn lines(&self) -> &[Line]
        ensures { result.now ≡ self.now.lines }
    {
        self.lines.as_slice()
    }
}
