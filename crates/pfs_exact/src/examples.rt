//! What the definitions say of small numbers.
ghost use Rattle.std.specs.Prelude.{◌≡◌};
ghost use Rattle.pfs_exact.specs.MostNodes.{most_nodes};

/// The sequences of distinct jobs, of any length. With two jobs they are the empty one, two of one job and two of both.
pub fn nodes()
    ensures none { most_nodes 0 ≡ 1 }
    ensures two { most_nodes 2 ≡ 5 }
    ensures four { most_nodes 4 ≡ 65 }
    ensures ten { most_nodes 10 ≡ 9864101 }
{}
