//! The rule table by its numbers.

ghost use Rattle.std.specs.Prelude.{◌≡◌};
ghost use Rattle.vd_rules.specs.StepNumbers.{node_number, step_number};

use vd_logic::{Step, StepNode};

#[tactic(auto, using(crate::proofs::NumberLemmas::numbers))]
fn node_number(node: &StepNode) -> u8
    ensures { result ≡ node_number node.now }
{
    match node {
        StepNode::Skip => 1,
        StepNode::Set(_, _) => 2,
        StepNode::Load(_, _, _) => 3,
        StepNode::Store(_, _, _) => 4,
        StepNode::If(_, _, _, _) => 5,
        StepNode::While(_, _, _, _, _) => 6,
        StepNode::Break(_, _) => 7,
        StepNode::Continue(_, _) => 8,
        StepNode::Return(_, _, _) => 9,
        StepNode::Fall(_, _) => 10,
        StepNode::Block(_, _, _, _) => 11,
        StepNode::Pose(_, _, _) => 12,
        StepNode::Call(_, _, _, _) => 13,
        StepNode::Malloc(_, _, _) => 14,
        StepNode::Free(_, _, _) => 15,
        StepNode::MakeLock(_, _, _, _) => 16,
        StepNode::Acquire(_, _) => 17,
        StepNode::Release(_, _, _) => 18,
        StepNode::FreeLock(_, _, _, _) => 19,
        StepNode::Spawn(_, _, _) => 20,
        StepNode::Fold(_, _, _, _, _) => 21,
        StepNode::Unfold(_, _) => 22,
        StepNode::Split(_, _, _) => 23,
        StepNode::Absurd(_) => 24,
        StepNode::Have(_, _) => 25,
        StepNode::Law(_, _, _) => 26,
        StepNode::Subst(_) => 27,
        StepNode::Rewrite(_, _, _) => 28,
        StepNode::Cut(_, _, _) => 29,
        StepNode::Glue(_, _) => 30,
        StepNode::Share(_, _, _) => 31,
        StepNode::Unshare(_, _, _) => 32,
        StepNode::Agree(_, _, _) => 33,
        StepNode::Bounds(_, _, _) => 34,
        StepNode::Apart(_, _, _) => 35,
        StepNode::Forget(_) => 36,
        StepNode::Meet(_, _) => 37,
        StepNode::Name(_, _) => 38,
    }
}

/// The number of a step's rule in the rule table, from 1.
#[tactic(auto, using(crate::proofs::NumberLemmas::step_number_is))]
pub fn number(step: &Step) -> u8
    ensures { result ≡ step_number step.now }
{
    node_number(&step.node)
}
