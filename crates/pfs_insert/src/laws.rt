//! Laws of the definitions. They are about no code.
ghost use Rattle.pfs_insert.specs.Exchange.{ExchangeLaw};
ghost use Rattle.pfs_insert.specs.Insertion.{BestPlaceLaw};

/// The best place is one of the sequence's places. The makespan with the job at any other place is at
/// least as long, and at any earlier place it is longer.
pub fn best_place()
    ensures { BestPlaceLaw }
{}

/// The makespan with a job inserted is the greatest, over the machines, of this sum: the weight of a
/// heaviest path to the inserted job's operation on the machine, plus the weight of a heaviest path that
/// begins on the same machine in the next row, which is a row of the sequence without the job. For a path
/// leaves the inserted row at one machine, and its front part can be exchanged for any other that ends
/// there.
pub fn exchange()
    ensures { ExchangeLaw }
{}
