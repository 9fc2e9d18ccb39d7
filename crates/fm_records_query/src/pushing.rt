ghost use Rattle.std.specs.Prelude.{◌≡◌, ◌++◌, ◌∷◌, [], IfOk};

use std::alloc::AllocError;

/// The list with one more.
pub(crate) fn with_more<T: Drop>(mut list: Vec<T>, one: T) -> Result<Vec<T>, AllocError>
    ensures { IfOk result (λ more. more.items ≡ list.items ++ one ∷ []) }
{
    list.push(one)?;
    Ok(list)
}
