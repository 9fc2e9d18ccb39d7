ghost use Rattle.std.specs.Prelude.{◌≡◌, Ok, IfOk, IfErr};
ghost use Rattle.fm_base.specs.declared.refusal.Refusal.TheVariants.{Memory};

use fm_base::Refusal;
use std::alloc::AllocError;

/// What was answered, where nothing but memory can have been wanting.
pub fn unless_wanting<T>(answered: Result<T, Refusal>) -> Result<T, AllocError>
    requires { IfErr answered (λ refusal. refusal ≡ Memory) }
    ensures { IfOk result (λ value. answered ≡ Ok value) }
{
    match answered {
        Ok(value) => Ok(value),
        Err(_) => Err(AllocError),
    }
}
