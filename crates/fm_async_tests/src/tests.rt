ghost use Rattle.std.specs.Prelude.{◌≡◌, true};

mod adds;
mod borrows;
mod polls;
mod pools;
mod sets;
mod story;
mod threads;
mod unlucky;

use std::fmt::Debug;
use std::process::Abort;

fn same<R: Abort, T: PartialEq + Debug + Drop>(rt: &R, found: T, wanted: T)
    ensures { T.eq found wanted ≡ true }
{
    assert_eq!(rt; found, wanted);
}
