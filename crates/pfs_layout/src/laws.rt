//! Laws about the definitions, and one law about readers.
ghost use Rattle.std.specs.Prelude.{◌≡◌, ℕ, List};
ghost use Rattle.pfs_layout.specs.Reader.{HasRead, FinishMeets};
ghost use Rattle.pfs_layout.specs.Laws.{InstanceFile, SomeFile, OneVerdict, RejectionLaw, AcceptedLaw};
ghost use Rattle.pfs_layout.specs.Laws.{FaultStays, ByteFaultLaw, FreeAfter, WiderLimits, EarlierFiles};
ghost use Rattle.pfs_layout.specs.Laws.{DueAndBack, DueFronts, CanonicalLaw, CanonicalTextsFit, SeedsStay};
ghost use Rattle.pfs_layout.specs.Laws.{GeneratedWithin};

use crate::LayoutFault;
use crate::reader::{BlockReader, PIECE};
use crate::scan::CEILING;
use pfs_base::Instance;

/// An input has a problem's file exactly if the lines of some prefix of it, a `Front`, lead to the wanted number
/// of complete blocks, the last of which is the problem's.
pub fn instance_file()
    ensures { InstanceFile }
{}

/// An input has a file of some problem exactly if the lines of some prefix of it, a `Front`, lead to the wanted
/// number of complete blocks, after which the next block is sought.
pub fn some_file()
    ensures { SomeFile }
{}

/// Every input either has the file of exactly one problem, or has exactly one fault, and not both.
#[tactic(auto, using(crate::proofs::Published::LawLemmas::one_verdict))]
pub fn one_verdict()
    ensures { OneVerdict }
{}

/// `rejection` computes which fault an input has.
pub fn rejection()
    ensures { RejectionLaw }
{}

/// `accepted` computes which problem's file an input has.
pub fn accepted()
    ensures { AcceptedLaw }
{}

/// A fault at a byte remains the input's fault, for any bytes that follow.
#[tactic(auto, using(crate::proofs::Files::EndLemmas::fault_stays))]
pub fn fault_stays()
    ensures { FaultStays }
{}

/// A fault is the first at a byte exactly if it is the input's fault and its place is a byte, not the end.
pub fn byte_fault()
    ensures { ByteFaultLaw }
{}

/// Any bytes may follow the wanted block: the input then has the file of the same problem.
pub fn free_after()
    ensures { FreeAfter }
{}

/// A file under some limits is a file of the same problem under wider ones.
#[tactic(auto, using(crate::proofs::Files::EndLemmas::wider_limits))]
pub fn wider_limits()
    ensures { WiderLimits }
{}

/// Every instance file of earlier versions, which accepted at most 2,000 jobs and times of at most 1,000,000,
/// is an instance file of the same problem.
#[tactic(auto, using(crate::proofs::Files::EndLemmas::earlier_files))]
pub fn earlier_files()
    ensures { EarlierFiles }
{}

/// The numbers that are due for a problem give the problem back.
#[tactic(auto, using(crate::proofs::Files::DueLemmas::instance_due))]
pub fn due_and_back()
    ensures { DueAndBack }
{}

/// Numbers pass, place by place, exactly if they begin what is due for some problem of the size.
#[tactic(auto, using(crate::proofs::Files::DueLemmas::due_fronts))]
pub fn due_fronts()
    ensures { DueFronts }
{}

/// The text that is written of an instance is an instance file. Its first block is that instance, except that
/// the notes are 0 in the OR-Library's layout.
#[tactic(auto, using(crate::proofs::Texts::CanonicalFile::canonical_law))]
pub fn canonical_text()
    ensures { CanonicalLaw }
{}

/// The text that is written of an instance is within the limit of an instance file. The longest text is that of
/// 5,000 jobs which take 1,000,000,000 on each of 200 machines, in the OR-Library's layout: 14,450,028 bytes.
#[tactic(auto, using(crate::proofs::Texts::CanonicalFile::canonical_texts_fit))]
pub fn canonical_texts_fit()
    ensures { CanonicalTextsFit }
{}

/// Every seed that is drawn from a seed is a seed again: from 1 to 2,147,483,646.
#[tactic(auto, using(crate::proofs::GeneratorLemmas::seeds_stay))]
pub fn seeds_stay()
    ensures { SeedsStay }
{}

/// A generated instance is within the limits.
#[tactic(auto, using(crate::proofs::GeneratorLemmas::generated_within))]
pub fn generated_within()
    ensures { GeneratedWithin }
{}

/// Each of two readers returns what the definitions say of the bytes that it has read. So two readers of one
/// block and layout that have read the same bytes return equal results, however the bytes were cut into pieces.
#[tactic(auto, using(crate::proofs::Reading::OutcomeLemmas::same_results))]
pub fn cutting(
    one: BlockReader,
    other: BlockReader,
) -> (Result<Instance, LayoutFault>, Result<Instance, LayoutFault>)
    ensures one { (text : List ℕ) → HasRead one text → FinishMeets one text result.0 }
    ensures other { (text : List ℕ) → HasRead other text → FinishMeets other text result.1 }
    ensures equal { (text : List ℕ) → one.layout ≡ other.layout → one.wanted ≡ other.wanted
        → HasRead one text → HasRead other text → result.0 ≡ result.1 }
{
    (one.finish(), other.finish())
}

/// The values of this crate's constants that definitions name: the most bytes that are read at once, and the
/// number that is kept for every greater one.
pub fn numbers()
    ensures piece { PIECE ≡ 4_096 }
    ensures ceiling { CEILING ≡ 4_294_967_296 }
{}
