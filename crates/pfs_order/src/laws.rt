//! Laws of the definitions alone: each function's contract is one of them.
ghost use Rattle.pfs_order.specs.OrderLaws.{WrittenIsRead, OnlyWritten, OneOrderFile, OneRejection};
ghost use Rattle.pfs_order.specs.OrderLaws.{NoneIsBoth, TextsFit};
ghost use Rattle.pfs_order.specs.OrderLaws.{CutText, LongerText, TextOrFault, SomeVerdict};
ghost use Rattle.pfs_order.specs.OrderLaws.{VersionOneIsRead};

/// The text that is written for an order, a number of machines or none, and a makespan is their order file.
#[tactic(auto, using(crate::proofs::Published::OrderVerdicts::written_file))]
pub fn written_is_read()
    ensures { WrittenIsRead }
{}

/// No other text is the order file of an order, a number of machines or none, and a makespan.
pub fn only_written()
    ensures { OnlyWritten }
{}

/// An input states at most one order, one number of machines or none, and one makespan.
#[tactic(auto, using(crate::proofs::Published::OrderVerdicts::one_file))]
pub fn one_order_file()
    ensures { OneOrderFile }
{}

/// An input is rejected in at most one way.
#[tactic(auto, using(crate::proofs::Published::OrderVerdicts::one_rejection))]
pub fn one_rejection()
    ensures { OneRejection }
{}

/// No order file is rejected.
#[tactic(auto, using(crate::proofs::Published::OrderVerdicts::not_both))]
pub fn none_is_both()
    ensures { NoneIsBoth }
{}

/// Every text of the grammar is within the limit of bytes, so the limit never decides over a text.
#[tactic(auto, using(crate::proofs::Published::OrderVerdicts::text_fits))]
pub fn texts_fit()
    ensures { TextsFit }
{}

/// A text of the grammar that is cut short is rejected at its end: no text begins another.
pub fn cut_text()
    ensures { CutText }
{}

/// A text of the grammar with more bytes after it is rejected where the text ends.
pub fn longer_text()
    ensures { LongerText }
{}

/// Each input is a text of the grammar, or has a syntax fault at some offset.
pub fn text_or_fault()
    ensures { TextOrFault }
{}

/// Each input is an order file or is rejected, and, by the laws above, in exactly one way.
pub fn some_verdict()
    ensures { SomeVerdict }
{}

/// The order files of version 1 are those that state no machines. They are read with the same order and
/// makespan as before version 2.
pub fn version_one_is_read()
    ensures { VersionOneIsRead }
{}
