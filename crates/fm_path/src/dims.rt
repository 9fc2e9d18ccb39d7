ghost use Rattle.std.specs.Prelude.{◌≡◌, ◌+◌, ◌++◌, ◌∷◌, [], length, OnOk, OnErr, IsTrue, ◌↔◌};
ghost use Rattle.fm_path_meaning.specs.Walk.{with_dim};
ghost use Rattle.fm_path.specs.Wide.{wide_dims};

use fm_path_meaning::Dim;
use std::alloc::{AllocError, Global};
use std::marker::Model;

/// The dims of a resolved path, in the order of its open steps, seen as their list.
#[derive(Debug, Drop)]
pub struct Dims {
    items: Vec<Dim>,
    /// Those that have other than one index.
    wide: Vec<Dim>,
}

impl Model for Dims {
    ghost use Rattle.std.specs.Prelude.{List, ◌≡◌};
    ghost use Rattle.fm_path_meaning.specs.declared.dim.Dim.{Dim};
    ghost use Rattle.fm_path.specs.Wide.{wide_dims};

    ghost Value = { List Dim };

    ghost view = { λ dims. dims.items.items };

    ghost invariant = { λ dims. dims.wide.items ≡ wide_dims dims.items.items };
}

impl Dims {
    /// No dims. Takes no memory.
    pub fn new(alloc: Global) -> Dims
        ensures { result ≡ [] }
    {
        Dims {
            items: Vec::new(alloc),
            wide: Vec::new(alloc),
        }
    }

    /// Adds a dim at the end. Want of memory leaves the dims as they were.
    pub fn push(&mut self, dim: Dim) -> Result<(), AllocError>
        ensures ok { OnOk result (self.new ≡ self.old ++ dim ∷ []) }
        ensures same { OnErr result (self.new ≡ self.old) }
    {
        self.items.push(dim)?;
        if dim.bound != 1 && self.wide.push(dim).is_err() {
            let _last = self.items.pop();
            return Err(AllocError);
        }
        Ok(())
    }

    /// Adds the dim at the end, if there is one.
    pub(crate) fn add(&mut self, dim: Option<Dim>) -> Result<(), AllocError>
        ensures { OnOk result (self.new ≡ self.old ++ with_dim dim []) }
    {
        match dim {
            None => Ok(()),
            Some(dim) => self.push(dim),
        }
    }

    /// How many there are.
    pub fn len(&self) -> usize
        ensures { result ≡ length self.now }
    {
        self.items.len()
    }

    /// Whether there is none: the path leaves no index open.
    pub fn is_empty(&self) -> bool
        ensures { IsTrue result ↔ (self.now ≡ []) }
    {
        self.items.is_empty()
    }

    pub fn as_slice(&self) -> &[Dim]
        ensures { result.now ≡ self.now }
    {
        self.items.as_slice()
    }

    /// Those that have other than one index: the others lead nowhere, so whoever goes through all values needs these alone.
    pub fn wide(&self) -> &[Dim]
        ensures { result.now ≡ wide_dims self.now }
    {
        self.wide.as_slice()
    }
}
