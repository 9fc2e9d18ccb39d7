ghost use Rattle.fm_path.specs.Laws.{LieInside, LieAligned, LieApart, LinesResolve, StandOnce, ValuesHaveLines};

use fm_layout::Layout;

/// Does nothing. What it promises holds of every layout: each of its places lies inside it, at a multiple of the
/// place's own alignment.
#[tactic(auto, using(fm_path_meaning::proofs::Listed::stands, fm_path_meaning::proofs::Inside::inside, fm_path_meaning::proofs::Inside::place_aligned))]
pub fn places_lie_inside(layout: &Layout)
    ensures inside { LieInside layout.now }
    ensures aligned { LieAligned layout.now }
{
    let _size = layout.size();
}

/// Does nothing. What it promises holds of every layout: two of its values are one, or share no byte, or the first
/// step in which their places differ is at a union.
#[tactic(auto, using(fm_path_meaning::proofs::Listed::stands, fm_path_meaning::proofs::Inside::apart))]
pub fn values_lie_apart(layout: &Layout)
    ensures { LieApart layout.now }
{
    let _size = layout.size();
}

/// Does nothing. What it promises holds of every layout: two of its places with the same steps are one.
#[tactic(auto, using(fm_path_meaning::proofs::Once::place_once))]
pub fn places_stand_once(layout: &Layout)
    ensures { StandOnce layout.now }
{
    let _size = layout.size();
}

/// Does nothing. What it promises holds of every layout: the path of each line that `list_places` writes is resolved to
/// the offset, the type, the order, the strides and the bounds that stand in the line, and each value of the layout is
/// what some line's path comes to at some indices.
#[tactic(auto, using(crate::proofs::Walked::line_resolves, crate::proofs::Reached::value_has_line))]
pub fn lines_are_of_values(layout: &Layout)
    ensures resolve { LinesResolve layout.now }
    ensures values { ValuesHaveLines layout.now }
{
    let _size = layout.size();
}
