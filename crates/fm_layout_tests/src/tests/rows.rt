ghost use Rattle.std.specs.Prelude.{◌≡◌};

use crate::tests::compared::same;
use std::alloc::Global;
use std::process::Abort;

/// What stands before the row's last arrow, and what behind it.
pub(crate) fn cut(row: &str) -> (&str, &str) {
    row.rsplit_once(" -> ").unwrap_or((row, ""))
}

/// Stops where what `ask` tells of a row's text isn't what stands behind the row's last arrow.
///
/// The rows are one text, since a prover goes through a table row by row.
pub(crate) fn answers<R: Abort, F: Fn(Global, &str) -> String>(
    rt: &R,
    alloc: Global,
    ask: F,
    rows: &str,
)
    requires { F.IsAlwaysCallable ask }
{
    for row in rows.lines() {
        let (text, wanted) = cut(row);
        let found = ask(alloc, text);
        same(rt, (found.as_str(), text), (wanted, text));
    }
}
