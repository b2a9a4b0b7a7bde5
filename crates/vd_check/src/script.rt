//! Judges a body by its script.

ghost use Rattle.std.specs.Prelude.{◌≡◌, None, map, IfOk};
ghost use Rattle.vd_check.specs.Script.{vi_of, side, are_equal, is_evident, meets, set_to, return_with, apply, HasVerdict, HasVerdictFrom};
ghost use Rattle.vd_check.specs.Value.{value};
ghost use Rattle.vd_check.specs.Effect.{applied};

use crate::rule::rule_of;
use crate::value::evaluate;
use std::alloc::{AllocError, Global};
use vd_base::Name;
use vd_clight::{TExpr, TStmt, TypedFn};
use vd_logic::{Assertion, Op, Prop, Rel, Sort, Step, StepNode, Term};
use vd_store::Verdict;

// ---- postconditions

/// The n of vi(n), which stands for n modulo 2^32.
fn vi_of(args: &[Term]) -> Option<u32>
    ensures { result ≡ vi_of args.now }
{
    let [Term::Num(n)] = args else {
        return None;
    };
    if *n < 0 {
        return None;
    }
    Some((*n as u128 % 4294967296) as u32)
}

fn side(returned: u32, term: &Term) -> Option<u32>
    ensures { result ≡ side returned term.now }
{
    match term {
        Term::Var(number, Sort::Val) => { if *number == 0 { Some(returned) } else { None } }
        Term::App(Op::Vi, args) => vi_of(args.as_slice()),
        Term::Num(_) | Term::Var(_, _) | Term::Named(_) | Term::Global(_) | Term::App(_, _) => None,
    }
}

fn are_equal(a: Option<u32>, b: Option<u32>) -> bool
    ensures { result ≡ are_equal a b }
{
    match (a, b) {
        (Some(a), Some(b)) => a == b,
        _ => false,
    }
}

fn is_evident(returned: u32, prop: &Prop) -> bool
    ensures { result ≡ is_evident returned prop.now }
{
    match prop {
        Prop::Rel(Rel::Eq, a, b) => are_equal(side(returned, a), side(returned, b)),
        _ => false,
    }
}

fn meets(post: &Assertion, returned: u32) -> bool
    ensures { result ≡ meets post.now returned }
{
    post.props
        .as_slice()
        .iter()
        .all(|prop| is_evident(returned, prop))
}

// ---- rules

/// What a step does: it goes on with the statements left, ends the branch, or fails a condition of its rule.
#[derive(Clone, Copy)]
pub(crate) enum Effect<'a> {
    Goes(&'a [TStmt]),
    Ends,
    Refused(u8),
}

fn set<'a>(locals: &mut [Option<u32>], number: u32, e: &TExpr, rest: &'a [TStmt]) -> Effect<'a>
    ensures { set_to locals.old number rest.now (value locals.old e.now) ≡ applied result locals.new }
{
    match evaluate(locals, e) {
        None => Effect::Refused(2),
        Some(found) => {
            if !found.proved {
                return Effect::Refused(3);
            }
            let number = number as usize;
            if number < locals.len() {
                locals[number] = Some(found.number);
            }
            Effect::Goes(rest)
        }
    }
}

fn return_value<'a>(post: &Assertion, locals: &[Option<u32>], e: &TExpr) -> Effect<'a>
    ensures { return_with post.now (value locals.now e.now) ≡ applied result locals.now }
{
    match evaluate(locals, e) {
        None => Effect::Refused(2),
        Some(found) => {
            if found.proved && meets(post, found.number) {
                Effect::Ends
            } else {
                Effect::Refused(3)
            }
        }
    }
}

fn apply<'a>(
    post: &Assertion,
    locals: &mut [Option<u32>],
    left: &'a [TStmt],
    step: &StepNode,
) -> Effect<'a>
    ensures { apply post.now (record { locals = locals.old; left = left.now }) step.now ≡ applied result locals.new }
{
    let Some((first, rest)) = left.split_first() else {
        return Effect::Refused(1);
    };
    match step {
        StepNode::Set(_, _) => match first {
            TStmt::Set(number, e) => set(locals, *number, e, rest),
            _ => Effect::Refused(1),
        },
        StepNode::Return(_, _, _) => match first {
            TStmt::Return(Some(e)) => return_value(post, locals, e),
            _ => Effect::Refused(1),
        },
        _ => Effect::Refused(1),
    }
}

// ---- scripts

/// Follows a script from a state. The loop goes once for each step, whatever the length of the body.
fn follow(post: &Assertion, locals: &mut [Option<u32>], body: &[TStmt], script: &[Step]) -> Verdict
    ensures { HasVerdictFrom post.now 0 (record { locals = locals.old; left = body.now }) script.now result }
{
    let mut last = 0;
    let mut left = body;
    let mut steps = script;
    while let Some((step, others)) = steps.split_first() {
        match apply(post, locals, left, &step.node) {
            Effect::Goes(rest) => {
                last = step.number;
                left = rest;
                steps = others;
            }
            Effect::Ends => {
                return match others.first() {
                    None => Verdict::Accepted,
                    Some(next) => Verdict::Refused(next.number, 0, 11),
                };
            }
            Effect::Refused(condition) => {
                return Verdict::Refused(step.number, rule_of(&step.node), condition);
            }
        }
    }
    Verdict::Refused(last.saturating_add(1), 0, 10)
}

fn entry_locals(alloc: Global, temporaries: &[Name]) -> Result<Vec<Option<u32>>, AllocError>
    ensures { IfOk result (λ locals. locals.items ≡ map (λ name. None) temporaries.now) }
{
    temporaries.iter().map(|_| None).collect(alloc)
}

/// The verdict on a body by its script.
pub(crate) fn judge(
    alloc: Global,
    post: &Assertion,
    function: &TypedFn,
    script: &[Step],
) -> Result<Verdict, AllocError>
    ensures { IfOk result (HasVerdict post.now function.now script.now) }
{
    let mut locals = entry_locals(alloc, function.temps.as_slice())?;
    Ok(follow(
        post,
        locals.as_mut_slice(),
        function.body.as_slice(),
        script,
    ))
}
