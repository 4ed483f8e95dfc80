//! Lists that are joined.
ghost use Rattle.std.specs.Prelude.{◌≡◌, ◌++◌, IfOk};

use std::alloc::AllocError;

// Some, and then others.
pub(crate) fn joined<T: Drop>(first: Vec<T>, others: Vec<T>) -> Result<Vec<T>, AllocError>
    ensures { IfOk result (λ all. all.items ≡ first.items ++ others.items) }
{
    let mut all = first;
    for one in others {
        all.push(one)?;
    }
    Ok(all)
}
