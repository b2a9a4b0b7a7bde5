//! What the state of a gate stands for.
ghost use Rattle.std.specs.Prelude.{◌≡◌, ℕ, List, [], ◌∷◌, ◌++◌};
ghost use Rattle.vd_gate.specs.declared.story.PastTurn.{PastTurn};

/// One turn of a gate's history. Histories stand in contracts alone, so no value of it is made.
pub struct PastTurn<E> {
    /// The number of the pass that took the turn.
    pub number: u32,
    /// What the turn recorded. A turn that was refused, say, has no entry.
    pub entry: Option<E>,
}

/// A state that stands for lists of turns, over a number that is fixed when the gate is made, the base.
///
/// It has to be `Drop`, since a gate that cannot be made, or is dropped, drops its state.
pub trait Story: Drop {
    /// What a turn may record.
    type Entry;

    /// Whether a state stands for these turns over this base. It need not keep the turns without an entry.
    ghost stands: { ℕ → Self → List (PastTurn Self.Entry) → Type 0 };

    /// The state, the turns before the last one and the pass of the last one determine the last one.
    /// An advance of the lock is not told which turn it ends: the state tells it.
    ghost one_more: { (base : ℕ) (state : Self) (turns : List (PastTurn Self.Entry)) (a b : PastTurn Self.Entry)
        → a.number ≡ b.number → stands base state (turns ++ a ∷ []) → stands base state (turns ++ b ∷ []) → a ≡ b };
}
