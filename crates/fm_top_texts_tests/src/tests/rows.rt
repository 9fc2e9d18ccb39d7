ghost use Rattle.std.specs.Prelude.{◌≡◌, true};

use std::fmt::Debug;
use std::process::Abort;

/// Compares what was found with what is wanted.
pub(crate) fn same<R: Abort, T: PartialEq + Debug + Drop>(rt: &R, found: T, wanted: T)
    ensures { T.eq found wanted ≡ true }
{
    assert_eq!(rt; found, wanted);
}

/// A row: a path, a file in hex, and behind an arrow what is printed, with a semicolon in place of each end of a line.
pub(crate) fn parts_of(row: &str) -> (&str, &str, &str) {
    let (asked, wanted) = row.split_once(" -> ").unwrap_or((row, ""));
    let (path, file) = asked.split_once(' ').unwrap_or((asked, ""));
    (path, file, wanted)
}
