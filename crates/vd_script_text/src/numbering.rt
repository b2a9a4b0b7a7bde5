//! The numbers of steps.

ghost use Rattle.std.specs.Prelude.{◌≡◌, ◌≤◌, map, IfOk, OnOk};
ghost use Rattle.vd_logic_grammar.specs.Numbers as numbers;

use std::alloc::{AllocError, Global};
use vd_base::List;
use vd_logic::{Block, Step, StepNode};

/// The number behind a number.
fn following(number: u32) -> u32
    ensures { result ≡ numbers.next_number number }
{
    number.saturating_add(1)
}

#[cycle(number)]
fn in_node(alloc: Global, node: StepNode, number: &mut u32) -> Result<StepNode, AllocError>
    ensures { IfOk result (λ it. (it, number.new) ≡ numbers.numbered_node node number.old) }
{
    match node {
        StepNode::If(items, proofs, a, b) => {
            let first = in_block(alloc, a, number)?;
            let second = in_block(alloc, b, number)?;
            Ok(StepNode::If(items, proofs, first, second))
        }
        StepNode::While(invariant, behind, names, a, b) => {
            let first = in_block(alloc, a, number)?;
            let second = in_block(alloc, b, number)?;
            Ok(StepNode::While(invariant, behind, names, first, second))
        }
        StepNode::Block(count, assertion, names, a) => {
            let first = in_block(alloc, a, number)?;
            Ok(StepNode::Block(count, assertion, names, first))
        }
        StepNode::Pose(assertion, names, a) => {
            let first = in_block(alloc, a, number)?;
            Ok(StepNode::Pose(assertion, names, first))
        }
        StepNode::Malloc(name, a, b) => {
            let first = in_block(alloc, a, number)?;
            let second = in_block(alloc, b, number)?;
            Ok(StepNode::Malloc(name, first, second))
        }
        StepNode::Unfold(item, cases) => {
            let numbered = in_blocks(alloc, cases, number)?;
            Ok(StepNode::Unfold(item, numbered))
        }
        StepNode::Split(fact, a, b) => {
            let first = in_block(alloc, a, number)?;
            let second = in_block(alloc, b, number)?;
            Ok(StepNode::Split(fact, first, second))
        }
        other => Ok(other),
    }
}

#[cycle(number)]
fn in_block(alloc: Global, block: Block, number: &mut u32) -> Result<Block, AllocError>
    ensures { IfOk result (λ it. (it, number.new) ≡ numbers.numbered_block block number.old) }
{
    let Block { names, steps } = block;
    let steps = in_steps(alloc, steps, number)?;
    Ok(Block { names, steps })
}

#[cycle(number)]
#[tactic(auto, using(crate::proofs::Counting::behind_next, crate::proofs::Counting::behind_end))]
fn in_blocks(
    alloc: Global,
    blocks: List<Block>,
    number: &mut u32,
) -> Result<List<Block>, AllocError>
    ensures { IfOk result (λ it. (it, number.new) ≡ numbers.in_order (map numbers.numbered_block blocks) number.old) }
{
    let mut found = List::new(alloc);
    'each: for block in blocks.into_vec() {
        found.push(in_block(alloc, block, number)?)?;
    }
    Ok(found)
}

#[cycle(number)]
fn in_step(alloc: Global, step: Step, number: &mut u32) -> Result<Step, AllocError>
    ensures { IfOk result (λ it. (it, number.new) ≡ numbers.numbered_step step number.old) }
{
    let own = *number;
    *number = following(own);
    let node = in_node(alloc, step.node, number)?;
    Ok(Step { number: own, node })
}

#[cycle(number)]
#[tactic(auto, using(crate::proofs::Counting::behind_next, crate::proofs::Counting::behind_end))]
fn in_steps(alloc: Global, steps: List<Step>, number: &mut u32) -> Result<List<Step>, AllocError>
    ensures { IfOk result (λ it. (it, number.new) ≡ numbers.numbered_in_order steps number.old) }
{
    let mut found = List::new(alloc);
    'each: for step in steps.into_vec() {
        found.push(in_step(alloc, step, number)?)?;
    }
    Ok(found)
}

/// The steps of a section with their numbers, in reading order from 1.
pub(crate) fn numbered(alloc: Global, steps: List<Step>) -> Result<List<Step>, AllocError>
    ensures { IfOk result (λ it. it ≡ numbers.numbered_steps steps) }
{
    let mut number = 1;
    in_steps(alloc, steps, &mut number)
}
