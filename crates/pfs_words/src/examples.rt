//! Examples of the definitions: what some command lines ask for. They are proved.
ghost use Rattle.std.specs.Prelude.{◌∷◌, [], Some, codes};
ghost use Rattle.pfs_words.specs.Jobs.{AsksFor, AsksForNothing};

use crate::Job;
use pfs_layout::Layout;

/// Command lines that ask for a job, one for each of these commands.
pub fn jobs_asked_for()
    ensures value { AsksFor (codes "value") (codes "--layout" ∷ codes "orlib" ∷ codes "f" ∷ [])
        (Job.Value Layout.OrLib 1 (Some (codes "f"))) }
    ensures check { AsksFor (codes "check") (codes "f" ∷ codes "--layout=taillard" ∷ codes "--block" ∷ codes "2"
        ∷ codes "o" ∷ []) (Job.Check Layout.Taillard 2 (codes "f") (codes "o")) }
    ensures table { AsksFor (codes "table") (codes "--layout" ∷ codes "taillard" ∷ codes "--" ∷ codes "--f" ∷ codes "o"
        ∷ []) (Job.Table Layout.Taillard 1 (codes "--f") (codes "o")) }
    ensures convert { AsksFor (codes "convert") (codes "--to" ∷ codes "orlib" ∷ codes "--from" ∷ codes "taillard"
        ∷ codes "f" ∷ []) (Job.Convert Layout.Taillard Layout.OrLib 1 (codes "f")) }
    ensures generate { AsksFor (codes "generate") (codes "5" ∷ codes "1" ∷ codes "873654221" ∷ [])
        (Job.Generate 5 1 873654221) }
{}

/// Command lines that ask for no job, each for another reason.
pub fn lines_rejected()
    ensures no_command { AsksForNothing (codes "help") [] }
    ensures no_layout { AsksForNothing (codes "value") (codes "f" ∷ []) }
    ensures unknown_layout { AsksForNothing (codes "value") (codes "--layout" ∷ codes "x" ∷ codes "f" ∷ []) }
    ensures block_1001 { AsksForNothing (codes "value")
        (codes "--layout" ∷ codes "orlib" ∷ codes "--block" ∷ codes "1001" ∷ codes "f" ∷ []) }
    ensures help { AsksForNothing (codes "value") (codes "--help" ∷ []) }
    ensures jobs_5001 { AsksForNothing (codes "generate") (codes "5001" ∷ codes "1" ∷ codes "1" ∷ []) }
{}
