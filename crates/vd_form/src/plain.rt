//! What the form allows, of what was read.

ghost use Rattle.std.specs.Prelude.{◌≡◌};
ghost use Rattle.vd_form.specs.Plain as plain;

use vd_base::{CType, Field};
use vd_clight::{BinOp, Expr, ExprNode, FnText, Stmt, StmtNode};
use vd_logic::{Assertion, Op, Prop, Rel, Sort, Spec, Step, StepNode, Term};

// ---- functions

fn is_int(t: &CType) -> bool
    ensures { result ≡ plain.is_int t.now }
{
    match t {
        CType::Int => true,
        _ => false,
    }
}

/// An expression of numbers without `u`, names, `+` and `-`.
#[tactic(auto, unfolding(crate::specs::Plain::is_plain))]
fn is_plain(e: &Expr) -> bool
    ensures { result ≡ plain.is_plain e.now }
{
    match &e.node {
        ExprNode::Num(_, unsigned) => !*unsigned,
        ExprNode::Ident(_) => true,
        ExprNode::Binary(BinOp::Add, a, b) | ExprNode::Binary(BinOp::Sub, a, b) => {
            is_plain(a.get()) && is_plain(b.get())
        }
        _ => false,
    }
}

fn is_plain_statement(s: &Stmt) -> bool
    ensures { result ≡ plain.is_plain_statement s.now }
{
    match &s.node {
        StmtNode::Assign(x, e) => is_plain(x) && is_plain(e),
        StmtNode::Return(Some(e)) => is_plain(e),
        _ => false,
    }
}

fn are_ints(fields: &[Field]) -> bool
    ensures { result ≡ plain.are_ints fields.now }
{
    fields.iter().all(|field| is_int(&field.typ))
}

fn are_plain(body: &[Stmt]) -> bool
    ensures { result ≡ plain.are_plain body.now }
{
    body.iter().all(|s| is_plain_statement(s))
}

/// A function without parameters that returns an `int`, all whose temporaries are `int`.
pub(crate) fn is_plain_function(f: &FnText) -> bool
    ensures { result ≡ plain.is_plain_function f.now }
{
    is_int(&f.ret)
        && f.params.len() == 0
        && f.temps.len() <= 999
        && are_ints(f.temps.as_slice())
        && are_plain(f.body.as_slice())
}

// ---- specifications

fn is_number(args: &[Term]) -> bool
    ensures { result ≡ plain.is_number args.now }
{
    match args {
        [Term::Num(n)] => *n >= 0,
        _ => false,
    }
}

/// `r`, or `vi(n)` of a number.
fn is_side(t: &Term) -> bool
    ensures { result ≡ plain.is_side t.now }
{
    match t {
        Term::Var(number, Sort::Val) => *number == 0,
        Term::App(Op::Vi, args) => is_number(args.as_slice()),
        Term::Num(_) | Term::Var(_, _) | Term::Named(_) | Term::Global(_) | Term::App(_, _) =>
            false,
    }
}

fn is_equation(p: &Prop) -> bool
    ensures { result ≡ plain.is_equation p.now }
{
    match p {
        Prop::Rel(Rel::Eq, a, b) => is_side(a) && is_side(b),
        _ => false,
    }
}

fn are_equations(props: &[Prop]) -> bool
    ensures { result ≡ plain.are_equations props.now }
{
    props.iter().all(|p| is_equation(p))
}

fn is_pure(a: &Assertion) -> bool
    ensures { result ≡ plain.is_pure a.now }
{
    a.opened.len() == 0 && a.locals.len() == 0 && a.items.len() == 0
}

fn is_plain_post(post: &Assertion) -> bool
    ensures { result ≡ plain.is_plain_post post.now }
{
    is_pure(post) && post.props.len() >= 1 && are_equations(post.props.as_slice())
}

/// No variables and an empty precondition; the postcondition has equations alone, and some.
pub(crate) fn is_plain_spec(s: &Spec) -> bool
    ensures { result ≡ plain.is_plain_spec s.now }
{
    is_int(&s.ret)
        && s.params.len() == 0
        && s.with.len() == 0
        && is_pure(&s.pre)
        && s.pre.props.len() == 0
        && is_plain_post(&s.post)
}

// ---- scripts

fn is_plain_step(node: &StepNode) -> bool
    ensures { result ≡ plain.is_plain_step node.now }
{
    match node {
        StepNode::Set(at, by) => at.len() == 0 && by.len() == 0,
        StepNode::Return(terms, at, by) => terms.len() == 0 && at.len() == 0 && by.len() == 0,
        _ => false,
    }
}

/// `set ;` and `return ( ) ;` alone.
pub(crate) fn are_plain_steps(steps: &[Step]) -> bool
    ensures { result ≡ plain.are_plain_steps steps.now }
{
    steps.iter().all(|step| is_plain_step(&step.node))
}
