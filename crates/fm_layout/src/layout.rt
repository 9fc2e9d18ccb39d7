mod constructors;
mod copies;
mod equality;
mod extent;

ghost use Rattle.std.specs.Prelude.{◌≡◌};
ghost use Rattle.std.specs.Option.{option_copied};
ghost use Rattle.fm_layout.specs.Tree.{alignment_of, name_of};
ghost use Rattle.fm_layout.specs.Size.{size_of};
ghost use Rattle.fm_layout.specs.WellFormed.{IsWellFormed};
ghost use Rattle.fm_layout.specs.Named.{HasNames, IsNameIfAny};
ghost use Rattle.fm_layout.specs.Parts.{children_of, element_of, form_of, member_of};

use crate::form::Form;
use fm_lanes::{Order, ValueKind};
use std::marker::Model;
use std::slice;

/// A layout: what stands where in a run of bytes. Contracts see it as a tree.
#[derive(Debug, Drop)]
#[cycle(layout)]
pub struct Layout {
    size: u64,
    alignment: u64,
    name: Option<String>,
    node: Node,
}

#[derive(Debug, Drop)]
#[cycle(layout)]
enum Node {
    Value(ValueKind, Order),
    Padding,
    Sequence(u64, Box<Layout>),
    Struct(Vec<Layout>),
    Union(Vec<Layout>),
}

impl Model for Layout {
    ghost use Rattle.std.specs.Prelude.{◌≡◌};
    ghost use Rattle.fm_layout.specs.Tree.{Tree};
    ghost use Rattle.fm_layout.specs.Depth.{depth};
    ghost use Rattle.fm_layout.specs.Sound.{IsSound};

    ghost Value = { Tree };

    ghost use Rattle.fm_layout.specs.Codes.{tree_code};

    ghost coded = { tree_code };

    ghost use Rattle.fm_layout.specs.Views.{label, tree_of};

    ghost view = { λ a. tree_of a.size (label a.alignment a.name) a.node };

    ghost invariant = { λ a. IsSound a.size (tree_of a.size (label a.alignment a.name) a.node) };

    ghost size = { depth };

    ghost use Rattle.fm_layout.specs.Falls.{children_fall};

    ghost size_decreases = { λ a h. children_fall a.size (label a.alignment a.name) a.node };
}

impl Layout {
    /// The size in bytes, in constant time (`byteSize`).
    pub fn size(&self) -> u64
        ensures size { result ≡ size_of self.now }
        ensures well_formed { IsWellFormed self.now }
        ensures named { HasNames self.now }
    {
        self.size
    }

    /// The alignment in bytes, in constant time (`byteAlignment`).
    pub fn alignment(&self) -> u64
        ensures alignment { result ≡ alignment_of self.now }
        ensures well_formed { IsWellFormed self.now }
    {
        self.alignment
    }

    /// What the layout is, with the count of its elements or members.
    pub fn form(&self) -> Form
        ensures form { result ≡ form_of self.now }
        ensures well_formed { IsWellFormed self.now }
    {
        match &self.node {
            Node::Value(kind, order) => Form::Value(*kind, *order),
            Node::Padding => Form::Padding,
            Node::Sequence(count, _) => Form::Sequence(*count),
            Node::Struct(members) => Form::Struct(members.len() as u64),
            Node::Union(members) => Form::Union(members.len() as u64),
        }
    }

    /// The name; `None` exactly where the layout has none.
    pub fn name(&self) -> Option<&str>
        ensures name { option_copied result ≡ name_of self.now }
        ensures named { IsNameIfAny (name_of self.now) }
    {
        match &self.name {
            None => None,
            Some(name) => Some(name.as_str()),
        }
    }

    /// Member `i` of a struct or union, counted from 0; `None` exactly where there is no such member.
    pub fn member(&self, i: u64) -> Option<&Layout>
        ensures { option_copied result ≡ member_of i self.now }
    {
        match &self.node {
            Node::Struct(members) => members.get(i as usize),
            Node::Union(members) => members.get(i as usize),
            _ => None,
        }
    }

    /// The element of a sequence; `None` exactly for every other layout.
    pub fn element(&self) -> Option<&Layout>
        ensures { option_copied result ≡ element_of self.now }
    {
        match &self.node {
            Node::Sequence(_, element) => Some(&**element),
            _ => None,
        }
    }

    /// What stands directly in it: members, or the one element.
    fn children(&self) -> &[Layout]
        ensures { result.now ≡ children_of self.now }
    {
        match &self.node {
            Node::Value(_, _) | Node::Padding => &[],
            Node::Sequence(_, element) => slice::from_ref(&**element),
            Node::Struct(members) => members,
            Node::Union(members) => members,
        }
    }
}
