//! Laws about the definitions alone.
ghost use Rattle.std.specs.Prelude.{◌≡◌};

use crate::solve_options::DEFAULT_TAKE;

/// The value of the constant of this crate that definitions name: the default destruction size is 4.
pub fn numbers()
    ensures { DEFAULT_TAKE ≡ 4 }
{}
