//! What follows from the definitions alone.

ghost use Rattle.vd_outline.specs.Laws.{OneHead, OneHeader, OneOutline, OneFault, FaultHasHead, FaultHasNoOutline};

/// Laws for callers that reason about texts: the call does nothing.
pub fn outline_laws()
    ensures head { OneHead }
    ensures header { OneHeader }
    ensures outline { OneOutline }
    ensures fault { OneFault }
    ensures fault_has_head { FaultHasHead }
    ensures fault_has_no_outline { FaultHasNoOutline }
{}
