//! Assignments, and what stands behind a name that begins a statement.

ghost use Rattle.std.specs.Prelude.{◌≡◌, ◌≤◌, length, OnOk};
ghost use Rattle.vd_grammar.specs.Reads.{Reads};
ghost use Rattle.vd_cgrammar.specs.Grammar.{Sort, Rule};
ghost use Rattle.vd_cgrammar.specs.Read.{read, read_rule};

use crate::call::{arguments, special};
use crate::expression::{operations, plain, postfixes};
use std::alloc::Global;
use vd_base::hold;
use vd_cgrammar::{Class, Kind, Named, Source, Tail, Tokens, grouped, name_of, source_of};
use vd_grammar::Stop;

fn special_source(alloc: Global, tokens: &mut Tokens<'_>) -> Result<Source, Stop>
    ensures reads { Reads (read_rule Rule.special_source tokens.old) result tokens.new }
    ensures no_longer { OnOk result (length tokens.new ≤ length tokens.old) }
{
    let call = hold(special(alloc, tokens)?);
    tokens.take(Kind::Semicolon)?;
    let call = call.out();
    Ok(Source::Call(call.name, call.arguments))
}

fn called_source(alloc: Global, tokens: &mut Tokens<'_>) -> Result<Tail, Stop>
    ensures reads { Reads (read_rule Rule.called_source tokens.old) result tokens.new }
    ensures no_longer { OnOk result (length tokens.new ≤ length tokens.old) }
{
    tokens.take(Kind::LeftParen)?;
    let arguments = arguments(alloc, tokens)?;
    tokens.take(Kind::Semicolon)?;
    Ok(Tail::Called(arguments))
}

fn operated_source(alloc: Global, tokens: &mut Tokens<'_>) -> Result<Tail, Stop>
    ensures reads { Reads (read_rule Rule.operated_source tokens.old) result tokens.new }
    ensures no_longer { OnOk result (length tokens.new ≤ length tokens.old) }
{
    let postfixes = postfixes(alloc, tokens)?;
    let operations = operations(alloc, tokens)?;
    tokens.take(Kind::Semicolon)?;
    Ok(Tail::Operated(postfixes, operations))
}

/// What stands behind a name at the right of `=`.
#[tactic(auto, using(vd_cgrammar::specs::Laws::read_is))]
fn after_target(alloc: Global, tokens: &mut Tokens<'_>) -> Result<Tail, Stop>
    ensures reads { Reads (read Sort.AfterTarget tokens.old) result tokens.new }
    ensures no_longer { OnOk result (length tokens.new ≤ length tokens.old) }
{
    if tokens.sees(Class::One(Kind::LeftParen)) {
        called_source(alloc, tokens)
    } else {
        operated_source(alloc, tokens)
    }
}

fn named_source(alloc: Global, tokens: &mut Tokens<'_>) -> Result<Source, Stop>
    ensures reads { Reads (read_rule Rule.named_source tokens.old) result tokens.new }
    ensures no_longer { OnOk result (length tokens.new ≤ length tokens.old) }
{
    let token = tokens.name()?;
    let rest = hold(after_target(alloc, tokens)?);
    let name = name_of(alloc, token)?;
    Ok(source_of(alloc, token.place, name, rest.out())?)
}

fn other_source(alloc: Global, tokens: &mut Tokens<'_>) -> Result<Source, Stop>
    ensures reads { Reads (read_rule Rule.other_source tokens.old) result tokens.new }
    ensures no_longer { OnOk result (length tokens.new ≤ length tokens.old) }
{
    let first = hold(plain(alloc, tokens)?);
    let others = operations(alloc, tokens)?;
    tokens.take(Kind::Semicolon)?;
    Ok(Source::Value(grouped(alloc, first.out(), others)?))
}

/// What is assigned, up to the semicolon.
#[tactic(auto, using(vd_cgrammar::specs::Laws::read_is))]
pub(crate) fn right(alloc: Global, tokens: &mut Tokens<'_>) -> Result<Source, Stop>
    ensures reads { Reads (read Sort.Right tokens.old) result tokens.new }
    ensures no_longer { OnOk result (length tokens.new ≤ length tokens.old) }
{
    if tokens.sees(Class::Reserved) {
        special_source(alloc, tokens)
    } else if tokens.sees(Class::AnyName) {
        named_source(alloc, tokens)
    } else {
        other_source(alloc, tokens)
    }
}

fn called_statement(alloc: Global, tokens: &mut Tokens<'_>) -> Result<Named, Stop>
    ensures reads { Reads (read_rule Rule.called_statement tokens.old) result tokens.new }
    ensures no_longer { OnOk result (length tokens.new ≤ length tokens.old) }
{
    tokens.take(Kind::LeftParen)?;
    let arguments = arguments(alloc, tokens)?;
    tokens.take(Kind::Semicolon)?;
    Ok(Named::Called(arguments))
}

fn assigned_statement(alloc: Global, tokens: &mut Tokens<'_>) -> Result<Named, Stop>
    ensures reads { Reads (read_rule Rule.assigned_statement tokens.old) result tokens.new }
    ensures no_longer { OnOk result (length tokens.new ≤ length tokens.old) }
{
    let postfixes = postfixes(alloc, tokens)?;
    let operations = operations(alloc, tokens)?;
    tokens.take(Kind::Assign)?;
    let source = right(alloc, tokens)?;
    Ok(Named::Assigned(postfixes, operations, source))
}

/// What stands behind a name at the begin of a statement, up to the semicolon.
#[tactic(auto, using(vd_cgrammar::specs::Laws::read_is))]
pub(crate) fn after_name(alloc: Global, tokens: &mut Tokens<'_>) -> Result<Named, Stop>
    ensures reads { Reads (read Sort.AfterName tokens.old) result tokens.new }
    ensures no_longer { OnOk result (length tokens.new ≤ length tokens.old) }
{
    if tokens.sees(Class::One(Kind::LeftParen)) {
        called_statement(alloc, tokens)
    } else {
        assigned_statement(alloc, tokens)
    }
}
