//! Arguments, and the calls of functions whose names are reserved.

ghost use Rattle.std.specs.Prelude.{◌≡◌, ◌<◌, ◌≤◌, length, OnOk};
ghost use Rattle.vd_grammar.specs.Outcome.{with_front};
ghost use Rattle.vd_grammar.specs.Reads.{Reads};
ghost use Rattle.vd_cgrammar.specs.Grammar.{Sort, Rule};
ghost use Rattle.vd_cgrammar.specs.Read.{read, read_rule};

use crate::expression::expression;
use crate::types::ctype;
use std::alloc::Global;
use vd_base::{List, hold};
use vd_cgrammar::{Class, Invocation, Kind, Tokens, name_of};
use vd_clight::{Expr, ExprNode};
use vd_grammar::Stop;

/// The arguments behind others, up to the closing bracket.
#[tactic(auto, using(vd_cgrammar::specs::Laws::read_is, vd_grammar::specs::Loops::fronts))]
fn more_arguments(
    alloc: Global,
    tokens: &mut Tokens<'_>,
    first: List<Expr>,
) -> Result<List<Expr>, Stop>
    ensures reads { Reads (with_front first (read Sort.MoreArguments tokens.old)) result tokens.new }
    ensures no_longer { OnOk result (length tokens.new ≤ length tokens.old) }
{
    let mut found = first;
    'found: while !tokens.sees(Class::One(Kind::RightParen)) {
        tokens.take(Kind::Comma)?;
        found.push(expression(alloc, tokens)?)?;
    }
    tokens.take(Kind::RightParen)?;
    Ok(found)
}

#[tactic(auto, using(vd_grammar::specs::Loops::fronts))]
fn first_argument(alloc: Global, tokens: &mut Tokens<'_>) -> Result<List<Expr>, Stop>
    ensures reads { Reads (read_rule Rule.first_argument tokens.old) result tokens.new }
    ensures no_longer { OnOk result (length tokens.new ≤ length tokens.old) }
{
    let mut found = List::new(alloc);
    found.push(expression(alloc, tokens)?)?;
    more_arguments(alloc, tokens, found)
}

fn no_argument(alloc: Global, tokens: &mut Tokens<'_>) -> Result<List<Expr>, Stop>
    ensures reads { Reads (read_rule Rule.no_argument tokens.old) result tokens.new }
    ensures no_longer { OnOk result (length tokens.new ≤ length tokens.old) }
{
    tokens.take(Kind::RightParen)?;
    Ok(List::new(alloc))
}

/// The arguments of a call, up to the closing bracket.
#[tactic(auto, using(vd_cgrammar::specs::Laws::read_is))]
pub(crate) fn arguments(alloc: Global, tokens: &mut Tokens<'_>) -> Result<List<Expr>, Stop>
    ensures reads { Reads (read Sort.Arguments tokens.old) result tokens.new }
    ensures no_longer { OnOk result (length tokens.new ≤ length tokens.old) }
{
    if tokens.sees(Class::One(Kind::RightParen)) {
        no_argument(alloc, tokens)
    } else {
        first_argument(alloc, tokens)
    }
}

/// `malloc` of the size of a type.
fn malloc(alloc: Global, tokens: &mut Tokens<'_>) -> Result<Invocation, Stop>
    ensures reads { Reads (read_rule Rule.malloc tokens.old) result tokens.new }
    ensures shorter { OnOk result (length tokens.new < length tokens.old) }
{
    let function = tokens.malloc()?;
    tokens.take(Kind::LeftParen)?;
    let word = tokens.take(Kind::SizeOf)?;
    tokens.take(Kind::LeftParen)?;
    let typ = hold(ctype(alloc, tokens)?);
    tokens.take(Kind::RightParen)?;
    tokens.take(Kind::RightParen)?;
    let mut arguments = List::new(alloc);
    arguments.push(Expr {
        place: word.place,
        node: ExprNode::SizeOf(typ.out()),
    })?;
    Ok(Invocation {
        place: function.place,
        name: name_of(alloc, function)?,
        arguments,
    })
}

/// `spawn` of a function, with its arguments.
#[tactic(auto, using(vd_grammar::specs::Loops::fronts))]
fn spawn(alloc: Global, tokens: &mut Tokens<'_>) -> Result<Invocation, Stop>
    ensures reads { Reads (read_rule Rule.spawn tokens.old) result tokens.new }
    ensures shorter { OnOk result (length tokens.new < length tokens.old) }
{
    let function = tokens.spawn()?;
    tokens.take(Kind::LeftParen)?;
    let started = tokens.name()?;
    let name = name_of(alloc, started)?;
    let mut first = List::new(alloc);
    first.push(Expr {
        place: started.place,
        node: ExprNode::Ident(name),
    })?;
    let arguments = more_arguments(alloc, tokens, first)?;
    Ok(Invocation {
        place: function.place,
        name: name_of(alloc, function)?,
        arguments,
    })
}

fn library(alloc: Global, tokens: &mut Tokens<'_>) -> Result<Invocation, Stop>
    ensures reads { Reads (read_rule Rule.library tokens.old) result tokens.new }
    ensures shorter { OnOk result (length tokens.new < length tokens.old) }
{
    let function = tokens.library()?;
    tokens.take(Kind::LeftParen)?;
    let arguments = arguments(alloc, tokens)?;
    Ok(Invocation {
        place: function.place,
        name: name_of(alloc, function)?,
        arguments,
    })
}

/// The call of a function whose name is reserved.
#[tactic(auto, using(vd_cgrammar::specs::Laws::read_is))]
pub(crate) fn special(alloc: Global, tokens: &mut Tokens<'_>) -> Result<Invocation, Stop>
    ensures reads { Reads (read Sort.Special tokens.old) result tokens.new }
    ensures shorter { OnOk result (length tokens.new < length tokens.old) }
{
    if tokens.sees(Class::One(Kind::Malloc)) {
        malloc(alloc, tokens)
    } else if tokens.sees(Class::One(Kind::Spawn)) {
        spawn(alloc, tokens)
    } else {
        library(alloc, tokens)
    }
}
