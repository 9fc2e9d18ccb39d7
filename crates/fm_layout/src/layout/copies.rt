ghost use Rattle.std.specs.Prelude.{◌≡◌, IfOk, IfErr};
ghost use Rattle.fm_layout.specs.Views.{name_bytes};

use super::{Layout, Node};
use fm_base::Refusal;
use std::alloc::{AllocError, Global};

impl Layout {
    /// An equal layout. Refused: `Memory`.
    pub fn try_clone(&self, alloc: Global) -> Result<Layout, Refusal>
        ensures same { IfOk result (λ l. l ≡ self.now) }
        ensures memory { IfErr result (λ e. e ≡ Refusal.Memory) }
    {
        Ok(self.copy(alloc)?)
    }

    #[cycle(copies)]
    fn copy(&self, alloc: Global) -> Result<Layout, AllocError>
        ensures { IfOk result (λ l. l ≡ self.now) }
    {
        let name = clone_name(alloc, &self.name)?;
        let node = match &self.node {
            Node::Value(kind, order) => Node::Value(*kind, *order),
            Node::Padding => Node::Padding,
            Node::Sequence(count, element) => {
                Node::Sequence(*count, Box::new(alloc, element.copy(alloc)?)?)
            }
            Node::Struct(members) => Node::Struct(clone_all(alloc, members)?),
            Node::Union(members) => Node::Union(clone_all(alloc, members)?),
        };
        Ok(Layout {
            size: self.size,
            alignment: self.alignment,
            name,
            node,
        })
    }
}

/// The layouts, each an equal one.
#[cycle(copies)]
fn clone_all(alloc: Global, layouts: &[Layout]) -> Result<Vec<Layout>, AllocError>
    ensures { IfOk result (λ v. v.items ≡ layouts.now) }
{
    let mut all = Vec::new(alloc);
    for layout in layouts {
        all.push(layout.copy(alloc)?)?;
    }
    Ok(all)
}

fn clone_name(alloc: Global, name: &Option<String>) -> Result<Option<String>, AllocError>
    ensures { IfOk result (λ n. name_bytes n ≡ name_bytes name.now) }
{
    match name {
        None => Ok(None),
        Some(name) => Ok(Some(String::from_str(alloc, name)?)),
    }
}
