ghost use Rattle.std.specs.Prelude.{IfErr, IfOk};
ghost use Rattle.fm_records_query.specs.Lists.{IsList, IsNoList};
ghost use Rattle.fm_records_query.specs.Records.{IsRecord};

use crate::fold::Fold;
use crate::query::Query;
use crate::resolving::resolve_all;
use crate::steps::Steps;
use crate::syntax::ItemSyntax;
use fm_base::Refusal;
use fm_layout::Layout;
use fm_path::parse_path;
use std::alloc::Global;

/// The query that lists the values of the path of this text, over all records of this layout. Its item's text is that
/// of `list(PATH)`.
///
/// Refused, in this order: as `parse_path` refuses the text; as `resolve` refuses the path; `Memory`.
pub fn parse_list(alloc: Global, text: &str, layout: &Layout) -> Result<Query, Refusal>
    requires { IsRecord layout.now }
    ensures list { IfOk result (IsList text.now layout.now) }
    ensures refused { IfErr result (IsNoList text.now layout.now) }
{
    let path = match parse_path(alloc, text) {
        Ok(path) => path,
        Err(refusal) => return Err(refusal),
    };
    let item = ItemSyntax::Of(Fold::All, Steps::of(path));
    match resolve_all(alloc, layout, &[item]) {
        Ok(items) => Ok(Query::of(layout.size(), layout.alignment(), items, Vec::new(alloc))),
        Err(refusal) => Err(refusal),
    }
}
