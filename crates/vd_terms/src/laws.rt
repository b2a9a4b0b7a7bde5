//! Laws of plain terms and of operations: the calls do nothing.

ghost use Rattle.vd_terms.specs.OperationLaws.{BitsAreOfWords, ComparisonsAreFlags, DivisionRoundsTowardZero, ShiftsEndAt32};
ghost use Rattle.vd_terms.specs.PlainLaws.{MisshapenHaveNoSort, PlainTerms};
ghost use Rattle.vd_terms.specs.TypedLaws.{SortedAreWellSorted, WellSortedHaveSort};

/// The plain term of each kind of term; one with a wrong number of arguments has no sort.
#[tactic(auto, using(crate::proofs::PlainLemmas::plain_terms, crate::proofs::PlainLemmas::misshapen_have_no_sort))]
pub fn plain_laws()
    ensures terms { PlainTerms }
    ensures misshapen { MisshapenHaveNoSort }
{}

/// Operations of integers at their edges.
#[tactic(auto, using(crate::proofs::Edges::division_rounds_toward_zero, crate::proofs::Edges::shifts_end_at_32, crate::proofs::Edges::bits_are_of_words, crate::proofs::Edges::comparisons_are_flags))]
pub fn operation_laws()
    ensures division { DivisionRoundsTowardZero }
    ensures shifts { ShiftsEndAt32 }
    ensures bits { BitsAreOfWords }
    ensures comparisons { ComparisonsAreFlags }
{}

/// A term is well sorted over some variables exactly where it has the sort and its variables stand among these.
#[tactic(auto, using(crate::proofs::TypedLemmas::well_sorted_have_sort, crate::proofs::TypedLemmas::sorted_are_well_sorted))]
pub fn sort_laws()
    ensures sort { WellSortedHaveSort }
    ensures sorted { SortedAreWellSorted }
{}
