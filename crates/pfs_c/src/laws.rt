//! Laws about the definitions alone.
ghost use Rattle.pfs_c.specs.Building.{NehLaw};
ghost use Rattle.pfs_c.specs.Faults.{InsertionLaw, JobsLaw, ShopLaw};

/// NEH inserts the ranking into the empty sequence.
pub fn neh()
    ensures { NehLaw }
{
    pfs_search::laws::ranking();
}

/// Validation finds no fault exactly in what the functions are defined for.
pub fn no_fault()
    ensures shop { ShopLaw }
    ensures jobs { JobsLaw }
    ensures insertion { InsertionLaw }
{}
