//! Expressions.

ghost use Rattle.std.specs.Prelude.{◌≡◌, ◌<◌, ◌≤◌, length, IfOk, OnOk};
ghost use Rattle.vd_grammar.specs.Outcome.{with_front};
ghost use Rattle.vd_grammar.specs.Reads.{Reads};
ghost use Rattle.vd_cgrammar.specs.Grammar.{Sort, Rule};
ghost use Rattle.vd_cgrammar.specs.Read.{read, read_rule};

use crate::types::ctype;
use std::alloc::Global;
use vd_base::{List, hold};
use vd_cgrammar::{
    Class, Enclosed, Kind, Postfix, Tokens, behind, grouped, in_brackets, measured, name_of,
    prefixed,
};
use vd_clight::{Expr, ExprNode};
use vd_grammar::Stop;

/// A prefix operator and its operand.
#[cycle(expression)]
fn prefix(alloc: Global, tokens: &mut Tokens<'_>) -> Result<Expr, Stop>
    ensures reads { Reads (read_rule Rule.prefix tokens.old) result tokens.new }
    ensures no_longer { OnOk result (length tokens.new ≤ length tokens.old) }
{
    let operator = tokens.expect(Class::Prefix)?;
    let operand = unary(alloc, tokens)?;
    let node = prefixed(alloc, operator.kind, operand)?;
    Ok(Expr {
        place: operator.place,
        node,
    })
}

/// `sizeof` or `alignof` of a type.
fn measure(alloc: Global, tokens: &mut Tokens<'_>) -> Result<Expr, Stop>
    ensures reads { Reads (read_rule Rule.measure tokens.old) result tokens.new }
    ensures no_longer { OnOk result (length tokens.new ≤ length tokens.old) }
{
    let word = tokens.expect(Class::Measure)?;
    tokens.take(Kind::LeftParen)?;
    let typ = hold(ctype(alloc, tokens)?);
    tokens.take(Kind::RightParen)?;
    Ok(Expr {
        place: word.place,
        node: measured(word.kind, typ.out()),
    })
}

#[cycle(expression)]
fn number(alloc: Global, tokens: &mut Tokens<'_>) -> Result<Expr, Stop>
    ensures reads { Reads (read_rule Rule.number tokens.old) result tokens.new }
    ensures no_longer { OnOk result (length tokens.new ≤ length tokens.old) }
{
    let number = tokens.expect(Class::AnyNumber)?;
    let others = postfixes(alloc, tokens)?;
    let node = ExprNode::Num(number.value, number.is_unsigned);
    Ok(behind(alloc, number.place, node, others)?)
}

#[cycle(expression)]
fn name(alloc: Global, tokens: &mut Tokens<'_>) -> Result<Expr, Stop>
    ensures reads { Reads (read_rule Rule.name tokens.old) result tokens.new }
    ensures no_longer { OnOk result (length tokens.new ≤ length tokens.old) }
{
    let name = tokens.name()?;
    let others = postfixes(alloc, tokens)?;
    let node = ExprNode::Ident(name_of(alloc, name)?);
    Ok(behind(alloc, name.place, node, others)?)
}

/// A cast, or an expression in brackets.
#[cycle(expression)]
fn paren(alloc: Global, tokens: &mut Tokens<'_>) -> Result<Expr, Stop>
    ensures reads { Reads (read_rule Rule.paren tokens.old) result tokens.new }
    ensures no_longer { OnOk result (length tokens.new ≤ length tokens.old) }
{
    let bracket = tokens.take(Kind::LeftParen)?;
    let inner = after_paren(alloc, tokens)?;
    Ok(in_brackets(alloc, bracket.place, inner)?)
}

/// An operand that does not begin with a name.
#[cycle(expression)]
#[tactic(auto, using(vd_cgrammar::specs::Laws::read_is))]
pub(crate) fn plain(alloc: Global, tokens: &mut Tokens<'_>) -> Result<Expr, Stop>
    ensures reads { Reads (read Sort.Plain tokens.old) result tokens.new }
    ensures no_longer { OnOk result (length tokens.new ≤ length tokens.old) }
{
    if tokens.sees(Class::Prefix) {
        prefix(alloc, tokens)
    } else if tokens.sees(Class::Measure) {
        measure(alloc, tokens)
    } else if tokens.sees(Class::AnyNumber) {
        number(alloc, tokens)
    } else {
        paren(alloc, tokens)
    }
}

/// What stands between two binary operators.
#[cycle(expression)]
#[tactic(auto, using(vd_cgrammar::specs::Laws::read_is))]
fn unary(alloc: Global, tokens: &mut Tokens<'_>) -> Result<Expr, Stop>
    ensures reads { Reads (read Sort.Unary tokens.old) result tokens.new }
    ensures no_longer { OnOk result (length tokens.new ≤ length tokens.old) }
{
    if tokens.sees(Class::AnyName) {
        name(alloc, tokens)
    } else {
        plain(alloc, tokens)
    }
}

#[cycle(expression)]
fn cast(alloc: Global, tokens: &mut Tokens<'_>) -> Result<Enclosed, Stop>
    ensures reads { Reads (read_rule Rule.cast tokens.old) result tokens.new }
    ensures no_longer { OnOk result (length tokens.new ≤ length tokens.old) }
{
    let typ = hold(ctype(alloc, tokens)?);
    tokens.take(Kind::RightParen)?;
    let operand = unary(alloc, tokens)?;
    Ok(Enclosed::Cast(typ.out(), operand))
}

#[cycle(expression)]
fn brackets(alloc: Global, tokens: &mut Tokens<'_>) -> Result<Enclosed, Stop>
    ensures reads { Reads (read_rule Rule.brackets tokens.old) result tokens.new }
    ensures no_longer { OnOk result (length tokens.new ≤ length tokens.old) }
{
    let inner = hold(expression(alloc, tokens)?);
    tokens.take(Kind::RightParen)?;
    let others = postfixes(alloc, tokens)?;
    Ok(Enclosed::Brackets(inner.out(), others))
}

/// What stands behind the opening bracket of an operand.
#[cycle(expression)]
#[tactic(auto, using(vd_cgrammar::specs::Laws::read_is))]
fn after_paren(alloc: Global, tokens: &mut Tokens<'_>) -> Result<Enclosed, Stop>
    ensures reads { Reads (read Sort.AfterParen tokens.old) result tokens.new }
    ensures no_longer { OnOk result (length tokens.new ≤ length tokens.old) }
{
    if tokens.sees(Class::TypeWord) {
        cast(alloc, tokens)
    } else {
        brackets(alloc, tokens)
    }
}

/// An index or a field.
#[cycle(expression)]
#[tactic(auto, using(vd_cgrammar::specs::Laws::read_is, vd_grammar::specs::Loops::fronts))]
pub(crate) fn postfixes(alloc: Global, tokens: &mut Tokens<'_>) -> Result<List<Postfix>, Stop>
    ensures reads { Reads (read Sort.Postfixes tokens.old) result tokens.new }
    ensures no_longer { OnOk result (length tokens.new ≤ length tokens.old) }
{
    let mut found = List::new(alloc);
    'found: loop {
        if tokens.sees(Class::Member) {
            let sign = tokens.expect(Class::Member)?;
            let name = tokens.name()?;
            let name = name_of(alloc, name)?;
            found.push(Postfix::Member(sign.kind, name))?;
        } else if tokens.sees(Class::One(Kind::LeftBracket)) {
            tokens.take(Kind::LeftBracket)?;
            let index = hold(expression(alloc, tokens)?);
            tokens.take(Kind::RightBracket)?;
            found.push(Postfix::Index(index.out()))?;
        } else {
            return Ok(found);
        }
    }
}

/// Binary operators with their right operands.
#[cycle(expression)]
#[tactic(auto, using(vd_cgrammar::specs::Laws::read_is, vd_grammar::specs::Loops::fronts))]
pub(crate) fn operations(alloc: Global, tokens: &mut Tokens<'_>) -> Result<List<(Kind, Expr)>, Stop>
    ensures reads { Reads (read Sort.Operations tokens.old) result tokens.new }
    ensures no_longer { OnOk result (length tokens.new ≤ length tokens.old) }
{
    let mut found = List::new(alloc);
    'found: while tokens.sees(Class::Binary) {
        let operator = tokens.expect(Class::Binary)?;
        let operand = unary(alloc, tokens)?;
        found.push((operator.kind, operand))?;
    }
    Ok(found)
}

#[cycle(expression)]
fn expression_rule(alloc: Global, tokens: &mut Tokens<'_>) -> Result<Expr, Stop>
    ensures reads { Reads (read_rule Rule.expression tokens.old) result tokens.new }
    ensures no_longer { OnOk result (length tokens.new ≤ length tokens.old) }
{
    let first = hold(unary(alloc, tokens)?);
    let others = operations(alloc, tokens)?;
    Ok(grouped(alloc, first.out(), others)?)
}

#[cycle(expression)]
#[tactic(auto, using(vd_cgrammar::specs::Laws::read_is))]
pub(crate) fn expression(alloc: Global, tokens: &mut Tokens<'_>) -> Result<Expr, Stop>
    ensures reads { Reads (read Sort.Expression tokens.old) result tokens.new }
    ensures no_longer { OnOk result (length tokens.new ≤ length tokens.old) }
{
    expression_rule(alloc, tokens)
}
