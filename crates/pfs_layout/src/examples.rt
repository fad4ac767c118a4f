//! What the definitions say of some files. The proofs compute it.
#![tactic(auto, unfolding(crate::proofs::Computing::computing))]

ghost use Rattle.std.specs.Prelude.{◌≡◌, ℕ, ◌+◌, ◌∷◌, [], ◌++◌, codes, length, take, map, replicate, sum};
ghost use Rattle.pfs_base.specs.Limits.{limits};
ghost use Rattle.pfs_base.specs.Lists.{below};
ghost use Rattle.pfs_layout.specs.Lines.{lines, open_line, numbers};
ghost use Rattle.pfs_layout.specs.Block.{due};
ghost use Rattle.pfs_layout.specs.File.{IsInstanceFile};
ghost use Rattle.pfs_layout.specs.Rejection.{rejection, accepted};
ghost use Rattle.pfs_layout.specs.CanonicalText.{canonical_text};
ghost use Rattle.pfs_layout.specs.Generator.{generated};
ghost use Rattle.pfs_layout.specs.Examples.{heading, ending_with, three_jobs_file, three_jobs_with, three_jobs_problem};
ghost use Rattle.pfs_layout.specs.Examples.{with_returns, two_blocks_file, one_job_problem};

use crate::{Layout, LayoutFault};

/// The lines of a text, and the numbers on a line.
pub fn lines_and_numbers()
    ensures lines { lines (codes "ab\n\n3 4") ≡ codes "ab" ∷ [] ∷ codes "3 4" ∷ [] }
    ensures ended { lines (codes "3 4\n") ≡ codes "3 4" ∷ [] }
    ensures open { open_line (codes "ab\n\n3 4") ≡ codes "3 4" }
    ensures numbers { numbers (codes " 03 42x7 ") ≡ 3 ∷ 42 ∷ 7 ∷ [] }
{}

/// Three jobs on two machines, as a file.
pub fn three_jobs()
    ensures length { length three_jobs_file ≡ 121 }
    ensures by_machine { due Layout.Taillard three_jobs_problem.shop ≡ 3 ∷ 2 ∷ 4 ∷ 2 ∷ 5 ∷ 1 ∷ [] }
    ensures by_job { due Layout.OrLib three_jobs_problem.shop ≡ 0 ∷ 3 ∷ 1 ∷ 2 ∷ 0 ∷ 2 ∷ 1 ∷ 5 ∷ 0 ∷ 4 ∷ 1 ∷ 1 ∷ [] }
    ensures file { IsInstanceFile limits Layout.Taillard three_jobs_file 1 three_jobs_problem }
    ensures accepted { accepted Layout.Taillard three_jobs_file 1 ≡ Some three_jobs_problem }
{}

/// Other files of the same three jobs.
pub fn spellings()
    ensures unended { accepted Layout.Taillard (take 120 three_jobs_file) 1 ≡ Some three_jobs_problem }
    ensures no_words { accepted Layout.Taillard (codes "3 2 0 0 0\n3 2\n4\n2 5 1") 1 ≡ Some three_jobs_problem }
    ensures carriage_returns { accepted Layout.Taillard (with_returns three_jobs_file) 1 ≡ Some three_jobs_problem }
    ensures leading_zeros { accepted Layout.Taillard
        (heading ++ codes "03 2 0 0 0\nprocessing times :\n" ++ replicate 60 48 ++ codes "3 2 4\n2 5 1\n") 1
        ≡ Some three_jobs_problem }
    ensures mixed_title { accepted Layout.Taillard (codes "5x " ++ three_jobs_file) 1 ≡ Some three_jobs_problem }
    ensures mixed_line_before { accepted Layout.Taillard (codes "x 5\n" ++ three_jobs_file) 1
        ≡ Some three_jobs_problem }
    ensures one_line { accepted Layout.Taillard (codes "3 2 0 0 0\n3 2 4 2 5 1\nwhat follows is free, 5x") 1
        ≡ Some three_jobs_problem }
{}

/// Lines of a body with a digit and a word byte.
pub fn mixed_lines()
    ensures after_digit { rejection Layout.Taillard (ending_with (codes "2 5x 1")) 1
        ≡ Some (LayoutFault.MixedLine 118) }
    ensures before_digit { rejection Layout.Taillard (ending_with (codes "x 2 5 1")) 1
        ≡ Some (LayoutFault.MixedLine 117) }
    ensures extra_number { rejection Layout.Taillard (ending_with (codes "2 5 1 7x")) 1
        ≡ Some (LayoutFault.MixedLine 122) }
    ensures greatest_byte { rejection Layout.Taillard (ending_with (codes "2 5 1" ++ 255 ∷ [])) 1
        ≡ Some (LayoutFault.MixedLine 120) }
{}

/// Numbers that are not what is due, and the longest time.
pub fn wrong_numbers()
    ensures longest { accepted Layout.Taillard (ending_with (codes "2 5 1000000000")) 1
        ≡ Some (three_jobs_with 1000000000) }
    ensures too_long { rejection Layout.Taillard (ending_with (codes "2 5 1000000001")) 1
        ≡ Some (LayoutFault.TimeRange 119) }
    ensures forty_digits { rejection Layout.Taillard (ending_with (codes "2 5 " ++ replicate 40 57)) 1
        ≡ Some (LayoutFault.TimeRange 119) }
    ensures before_word { rejection Layout.Taillard (codes "1 1 0 0 0\n9999999999 x") 1
        ≡ Some (LayoutFault.TimeRange 10) }
    ensures by_word { rejection Layout.Taillard (codes "1 1 0 0 0\n9999999999x") 1 ≡ Some (LayoutFault.MixedLine 20) }
    ensures machine { rejection Layout.OrLib (codes "d\n1 2\n0 3 2 4\n") 1 ≡ Some (LayoutFault.MachineNumber 10) }
    ensures extra { rejection Layout.Taillard (ending_with (codes "2 5 1 7")) 1 ≡ Some (LayoutFault.ExtraNumber 121) }
{}

/// Size lines with a wrong count of numbers, or with a number outside its limits.
pub fn size_lines()
    ensures greatest { rejection Layout.Taillard (codes "5000 200 4294967295 0 0") 1 ≡ Some (LayoutFault.Truncated 0) }
    ensures count { rejection Layout.Taillard (codes "3 2") 1 ≡ Some (LayoutFault.SizeCount 1) }
    ensures jobs { rejection Layout.Taillard (codes "\n5001 1 0 0 0") 1 ≡ Some (LayoutFault.SizeRange 2) }
    ensures no_machine { rejection Layout.OrLib (codes "1 0\n") 1 ≡ Some (LayoutFault.SizeRange 1) }
    ensures note { rejection Layout.Taillard (codes "1 1 4294967296 0 0") 1 ≡ Some (LayoutFault.SizeRange 1) }
    ensures forty_digits { rejection Layout.Taillard (codes "3 2 0 0 " ++ replicate 40 57) 1
        ≡ Some (LayoutFault.SizeRange 1) }
    ensures count_first { rejection Layout.Taillard (codes "5001 1") 1 ≡ Some (LayoutFault.SizeCount 1) }
{}

/// Files of several blocks.
pub fn several_blocks()
    ensures first { accepted Layout.Taillard (three_jobs_file ++ three_jobs_file) 1 ≡ Some three_jobs_problem }
    ensures second { accepted Layout.Taillard (three_jobs_file ++ three_jobs_file) 2 ≡ Some three_jobs_problem }
    ensures third { rejection Layout.Taillard (three_jobs_file ++ three_jobs_file) 3 ≡ Some (LayoutFault.NoBlock 2) }
    ensures one_job { accepted Layout.OrLib two_blocks_file 1 ≡ Some one_job_problem }
    ensures three_jobs { accepted Layout.OrLib two_blocks_file 2 ≡ Some three_jobs_problem }
    ensures no_third { rejection Layout.OrLib two_blocks_file 3 ≡ Some (LayoutFault.NoBlock 2) }
{}

/// Two files, cut at each byte.
pub fn cuts()
    ensures three_jobs { map (λ cut. rejection Layout.Taillard (take cut three_jobs_file) 1) (below 122)
        ≡ replicate 81 (Some (LayoutFault.NoBlock 0)) ++ replicate 8 (Some (LayoutFault.SizeCount 2))
        ++ replicate 21 (Some (LayoutFault.Truncated 0))
        ++ replicate 2 (Some (LayoutFault.Truncated 1)) ++ replicate 2 (Some (LayoutFault.Truncated 2))
        ++ replicate 2 (Some (LayoutFault.Truncated 3))
        ++ replicate 2 (Some (LayoutFault.Truncated 4)) ++ replicate 2 (Some (LayoutFault.Truncated 5))
        ++ replicate 2 None }
    ensures two_blocks { map (λ cut. rejection Layout.OrLib (take cut two_blocks_file) 2) (below 81)
        ≡ replicate 30 (Some (LayoutFault.NoBlock 0)) ++ replicate 2 (Some (LayoutFault.SizeCount 5))
        ++ replicate 4 (Some (LayoutFault.Truncated 0))
        ++ replicate 13 (Some (LayoutFault.NoBlock 1)) ++ replicate 2 (Some (LayoutFault.SizeCount 9))
        ++ replicate 4 (Some (LayoutFault.Truncated 0))
        ++ replicate 4 (Some (LayoutFault.Truncated 1)) ++ replicate 4 (Some (LayoutFault.Truncated 2))
        ++ replicate 4 (Some (LayoutFault.Truncated 3))
        ++ replicate 4 (Some (LayoutFault.Truncated 4)) ++ replicate 4 (Some (LayoutFault.Truncated 5))
        ++ replicate 6 None }
{}

/// What is written of the three jobs, in each layout.
pub fn canonical_texts()
    ensures by_machine { canonical_text Layout.Taillard three_jobs_problem ≡ three_jobs_file }
    ensures by_job { canonical_text Layout.OrLib three_jobs_problem
        ≡ codes "flow shop instance\n3 2\n0 3 1 2\n0 2 1 5\n0 4 1 1\n" }
{}

/// Times that are drawn from seeds, machine by machine.
pub fn drawn_times()
    ensures five { due Layout.Taillard (generated 5 1 873654221).shop ≡ 54 ∷ 83 ∷ 15 ∷ 71 ∷ 77 ∷ [] }
    ensures four { due Layout.Taillard (generated 2 2 873654221).shop ≡ 54 ∷ 83 ∷ 15 ∷ 71 ∷ [] }
    ensures least { due Layout.Taillard (generated 1 1 1).shop ≡ 1 ∷ [] }
    ensures greatest { due Layout.Taillard (generated 1 1 2147483646).shop ≡ 99 ∷ [] }
    ensures twenty { sum (take 20 (due Layout.Taillard (generated 20 5 873654221).shop)) ≡ 1121 }
    ensures notes { (generated 5 1 873654221).notes ≡ record { seed = 873654221; upper = 0; lower = 0 } }
{}
