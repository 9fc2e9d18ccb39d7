ghost use Rattle.std.specs.Prelude.{IfOk, IfErr};
ghost use Rattle.fm_records_query.specs.Records.{IsRecord};
ghost use Rattle.fm_records_query.specs.Grammar.{IsTextOf, IsNoText};
ghost use Rattle.fm_records_query.specs.Parsed.{IsParsed, IsNoQuery};

use crate::query::Query;
use crate::resolving::resolve_all;
use crate::spot::Spot;
use crate::syntax::QuerySyntax;
use fm_base::Refusal;
use fm_layout::Layout;
use std::alloc::Global;

/// The query that this text spells, over records of this layout: `ITEMS` or `ITEMS where CONDITIONS`.
///
/// ITEMS are 1 to 16 with a `,` between them, each `count` or one of `sum(PATH)`, `min(PATH)`, `max(PATH)` and
/// `list(PATH)`. CONDITIONS are 1 to 16 with ` and ` between them, each a path, one of `=`, `!=`, `<`, `<=`, `>` and
/// `>=`, and a number of 64 bits with no leading zero and no `-0`, without spaces. A path is as `parse_path` reads it.
///
/// Refused, in this order: `BadQuery` with the length in bytes of the longest prefix that begins some query's text,
/// where the text is none; as `resolve` refuses the first item's path that it refuses; the same of the conditions' paths,
/// of which each is also refused by `StillOpen` at its first step that leaves an index open, where `resolve` takes it.
/// `Memory`.
pub fn parse_query(alloc: Global, text: &str, layout: &Layout) -> Result<Query, Refusal>
    requires { IsRecord layout.now }
    ensures query { IfOk result (IsParsed text.now layout.now) }
    ensures refused { IfErr result (IsNoQuery text.now layout.now) }
{
    let syntax = read(alloc, text)?;
    let items = resolve_all(alloc, layout, syntax.items.as_slice())?;
    let conditions = resolve_all(alloc, layout, syntax.conditions.as_slice())?;
    Ok(Query::of(layout.size(), layout.alignment(), items, conditions))
}

/// What the text says.
fn read(alloc: Global, text: &str) -> Result<QuerySyntax, Refusal>
    ensures query { IfOk result (λ query. IsTextOf text.now query) }
    ensures refused { IfErr result (IsNoText text.now) }
{
    let mut spot = Spot::start(alloc);
    for (at, byte) in text.as_bytes().iter().enumerate() {
        match spot.take(alloc, *byte)? {
            Some(to) => spot = to,
            None => return Err(Refusal::BadQuery(at as u64)),
        }
    }
    match spot.finish()? {
        Some(query) => Ok(query),
        None => Err(Refusal::BadQuery(text.len() as u64)),
    }
}
