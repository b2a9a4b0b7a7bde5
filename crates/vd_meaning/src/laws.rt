//! Laws of meaning: the calls do nothing.

ghost use Rattle.vd_meaning.specs.Edges.{JoinsCompute, ListsEnd, PointersMove, WordsWrap};
ghost use Rattle.vd_meaning.specs.MeaningLaws.{FactsAgree, ItemsAgree, OpenedFacts, OpenedItems, OpenedTerms, SortsAreKept, StatesAgree, SubstitutedTerms, TermsAgree, TermsMeanWords, ValuationsOpen};
ghost use Rattle.vd_meaning.specs.ResourceLaws.{FittingIsResource, JoinsAdd, JoinsFail, MapsAreResources, OrderIsFree, PartsFit};

/// Terms mean arguments of their sorts whose integer values have 32 bits; values, pointers and lists at their edges.
#[tactic(auto, using(crate::proofs::TermSorts::sorts_are_kept, crate::proofs::Words::terms_mean_words, crate::proofs::Computed::words_wrap, crate::proofs::Computed::pointers_move, crate::proofs::Computed::lists_end))]
pub fn meaning_laws()
    ensures sorts { SortsAreKept }
    ensures words { TermsMeanWords }
    ensures wrap { WordsWrap }
    ensures pointers { PointersMove }
    ensures lists { ListsEnd }
{}

/// What stands over some variables means the same under valuations that agree on them.
#[tactic(auto, using(crate::proofs::Agreement::terms_agree, crate::proofs::Agreement::facts_agree, crate::proofs::Agreement::items_agree))]
pub fn agreement_laws()
    ensures terms { TermsAgree }
    ensures facts { FactsAgree }
    ensures items { ItemsAgree }
    ensures states { StatesAgree }
{}

/// With terms in the places of its variables, what is substituted or opened means what it means where the variables stand for
/// the terms; and there is such a valuation.
#[tactic(auto, using(crate::proofs::Opening::opened_facts, crate::proofs::Opening::opened_items))]
pub fn opening_laws()
    ensures valuations { ValuationsOpen }
    ensures substituted { SubstitutedTerms }
    ensures terms { OpenedTerms }
    ensures facts { OpenedFacts }
    ensures items { OpenedItems }
{}

/// Two resources join exactly where their contents agree and no share of both passes 64, and the join has the shares of both.
#[tactic(auto, using(crate::proofs::Computed::joins_compute, crate::proofs::Joining::maps_are_resources))]
pub fn join_laws()
    ensures joins { JoinsCompute }
    ensures maps { MapsAreResources }
    ensures added { JoinsAdd }
    ensures failed { JoinsFail }
{}

/// What fits a memory is a resource, and so does each part of it; items are a multiset.
#[tactic(auto, using(crate::proofs::Fitting::fitting_is_resource))]
pub fn fitting_laws()
    ensures fitting { FittingIsResource }
    ensures parts { PartsFit }
    ensures order { OrderIsFree }
{}
