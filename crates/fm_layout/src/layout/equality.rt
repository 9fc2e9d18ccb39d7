ghost use Rattle.std.specs.Prelude.{◌≡◌, ◌↔◌, IsTrue};
ghost use Rattle.fm_layout.specs.Parts.{HasSameHead};
ghost use Rattle.fm_layout.specs.Views.{name_bytes};

use super::Layout;

impl PartialEq for Layout {
    ghost use Rattle.std.specs.Prelude.{◌≡◌, ◌↔◌, IsTrue};
    ghost use Rattle.std.specs.Cmp.{partial_equiv_from_equiv};
    ghost use Rattle.fm_layout.specs.Same.{same_tree};
    ghost use Rattle.fm_layout.specs.Alike.{same_tree-equivalence};

    ghost eq = { same_tree };

    ghost laws = { partial_equiv_from_equiv same_tree-equivalence };

    /// Whether they are equal in all parts.
    fn eq(&self, other: &Layout) -> bool
        ensures tested { result ≡ same_tree self.now other.now }
        ensures same { IsTrue result ↔ (self.now ≡ other.now) }
    {
        same(self, other)
    }
}

impl Eq for Layout {
    ghost use Rattle.fm_layout.specs.Alike.{same_tree-equivalence};

    ghost laws = { same_tree-equivalence };
}

/// Whether they are equal in all parts.
#[cycle(same)]
fn same(a: &Layout, b: &Layout) -> bool
    ensures { IsTrue result ↔ (a.now ≡ b.now) }
{
    same_head(a, b) && same_all(a.children(), b.children())
}

/// Whether the lists are equal.
#[cycle(same)]
fn same_all(a: &[Layout], b: &[Layout]) -> bool
    ensures { IsTrue result ↔ (a.now ≡ b.now) }
{
    if a.len() != b.len() {
        return false;
    }
    for i in 0..a.len() {
        if !same(&a[i], &b[i]) {
            return false;
        }
    }
    true
}

/// Whether they are equal but for what stands in them.
fn same_head(a: &Layout, b: &Layout) -> bool
    ensures { IsTrue result ↔ HasSameHead a.now b.now }
{
    if a.size() != b.size() || a.alignment() != b.alignment() {
        return false;
    }
    a.form() == b.form() && same_name(&a.name, &b.name)
}

fn same_name(a: &Option<String>, b: &Option<String>) -> bool
    ensures { IsTrue result ↔ (name_bytes a.now ≡ name_bytes b.now) }
{
    match (a, b) {
        (None, None) => true,
        (Some(a), Some(b)) => a.as_str() == b.as_str(),
        _ => false,
    }
}
