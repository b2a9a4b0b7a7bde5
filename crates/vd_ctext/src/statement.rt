//! Statements.

ghost use Rattle.std.specs.Prelude.{◌≡◌, ◌<◌, ◌≤◌, length, OnOk};
ghost use Rattle.vd_grammar.specs.Reading.{by_choice};
ghost use Rattle.vd_grammar.specs.Reads.{Reads};
ghost use Rattle.vd_cgrammar.specs.Lexeme.{kind_of};
ghost use Rattle.vd_cgrammar.specs.Grammar.{Sort, Rule, grammar, wordless_choice, last_choice};
ghost use Rattle.vd_cgrammar.specs.Read.{read, read_rule};

use crate::assignment::{after_name, right};
use crate::call::special;
use crate::expression::{expression, operations, plain};
use std::alloc::Global;
use vd_base::{List, hold};
use vd_cgrammar::{Class, Kind, Tokens, assigned, grouped, jump_of, name_of, statement_of};
use vd_clight::{Expr, Stmt, StmtNode};
use vd_grammar::Stop;

fn skip(tokens: &mut Tokens<'_>, inside: bool) -> Result<Stmt, Stop>
    ensures reads { Reads (read_rule (Rule.skip {inside = inside}) tokens.old) result tokens.new }
    ensures shorter { OnOk result (length tokens.new < length tokens.old) }
{
    let sign = tokens.take(Kind::Semicolon)?;
    Ok(Stmt {
        place: sign.place,
        node: StmtNode::Skip,
    })
}

fn no_value(tokens: &mut Tokens<'_>) -> Result<Option<Expr>, Stop>
    ensures reads { Reads (read_rule Rule.no_value tokens.old) result tokens.new }
    ensures no_longer { OnOk result (length tokens.new ≤ length tokens.old) }
{
    tokens.take(Kind::Semicolon)?;
    Ok(None)
}

fn some_value(alloc: Global, tokens: &mut Tokens<'_>) -> Result<Option<Expr>, Stop>
    ensures reads { Reads (read_rule Rule.value tokens.old) result tokens.new }
    ensures no_longer { OnOk result (length tokens.new ≤ length tokens.old) }
{
    let value = hold(expression(alloc, tokens)?);
    tokens.take(Kind::Semicolon)?;
    Ok(Some(value.out()))
}

/// What `return` gives, up to the semicolon.
#[tactic(auto, using(vd_cgrammar::specs::Laws::read_is))]
fn returned(alloc: Global, tokens: &mut Tokens<'_>) -> Result<Option<Expr>, Stop>
    ensures reads { Reads (read Sort.Returned tokens.old) result tokens.new }
    ensures no_longer { OnOk result (length tokens.new ≤ length tokens.old) }
{
    if tokens.sees(Class::One(Kind::Semicolon)) {
        no_value(tokens)
    } else {
        some_value(alloc, tokens)
    }
}

fn return_statement(alloc: Global, tokens: &mut Tokens<'_>, inside: bool) -> Result<Stmt, Stop>
    ensures reads { Reads (read_rule (Rule.return {inside = inside}) tokens.old) result tokens.new }
    ensures shorter { OnOk result (length tokens.new < length tokens.old) }
{
    let word = tokens.take(Kind::Return)?;
    let value = returned(alloc, tokens)?;
    Ok(Stmt {
        place: word.place,
        node: StmtNode::Return(value),
    })
}

fn special_statement(alloc: Global, tokens: &mut Tokens<'_>, inside: bool) -> Result<Stmt, Stop>
    ensures reads { Reads (read_rule (Rule.special_statement {inside = inside}) tokens.old) result tokens.new }
    ensures shorter { OnOk result (length tokens.new < length tokens.old) }
{
    let call = hold(special(alloc, tokens)?);
    tokens.take(Kind::Semicolon)?;
    let call = call.out();
    Ok(Stmt {
        place: call.place,
        node: StmtNode::Call(None, call.name, call.arguments),
    })
}

fn named_statement(alloc: Global, tokens: &mut Tokens<'_>, inside: bool) -> Result<Stmt, Stop>
    ensures reads { Reads (read_rule (Rule.named_statement {inside = inside}) tokens.old) result tokens.new }
    ensures shorter { OnOk result (length tokens.new < length tokens.old) }
{
    let token = tokens.name()?;
    let rest = hold(after_name(alloc, tokens)?);
    let name = name_of(alloc, token)?;
    Ok(statement_of(alloc, token.place, name, rest.out())?)
}

/// An assignment whose left side does not begin with a name.
fn other_statement(alloc: Global, tokens: &mut Tokens<'_>, inside: bool) -> Result<Stmt, Stop>
    ensures reads { Reads (read_rule (Rule.other_statement {inside = inside}) tokens.old) result tokens.new }
    ensures shorter { OnOk result (length tokens.new < length tokens.old) }
{
    let first = hold(plain(alloc, tokens)?);
    let others = operations(alloc, tokens)?;
    tokens.take(Kind::Assign)?;
    let source = hold(right(alloc, tokens)?);
    let left = grouped(alloc, first.out(), others)?;
    Ok(assigned(left, source.out()))
}

fn jump(tokens: &mut Tokens<'_>) -> Result<Stmt, Stop>
    ensures reads { Reads (read_rule Rule.jump tokens.old) result tokens.new }
    ensures shorter { OnOk result (length tokens.new < length tokens.old) }
{
    let word = tokens.expect(Class::Jump)?;
    tokens.take(Kind::Semicolon)?;
    Ok(Stmt {
        place: word.place,
        node: jump_of(word.kind),
    })
}

/// A statement that begins with no name and no word of its own.
fn last_statement(alloc: Global, tokens: &mut Tokens<'_>, inside: bool) -> Result<Stmt, Stop>
    ensures reads { Reads (by_choice grammar read (last_choice inside (kind_of tokens.old)) tokens.old) result tokens.new }
    ensures shorter { OnOk result (length tokens.new < length tokens.old) }
{
    if inside {
        if tokens.sees(Class::Jump) {
            jump(tokens)
        } else {
            other_statement(alloc, tokens, inside)
        }
    } else {
        other_statement(alloc, tokens, inside)
    }
}

/// A statement that begins with no keyword but `break` or `continue`.
fn wordless_statement(alloc: Global, tokens: &mut Tokens<'_>, inside: bool) -> Result<Stmt, Stop>
    ensures reads { Reads (by_choice grammar read (wordless_choice inside (kind_of tokens.old)) tokens.old) result tokens.new }
    ensures shorter { OnOk result (length tokens.new < length tokens.old) }
{
    if tokens.sees(Class::AnyName) {
        named_statement(alloc, tokens, inside)
    } else if tokens.sees(Class::Reserved) {
        special_statement(alloc, tokens, inside)
    } else {
        last_statement(alloc, tokens, inside)
    }
}

#[cycle(statement)]
fn if_else(alloc: Global, tokens: &mut Tokens<'_>, inside: bool) -> Result<Stmt, Stop>
    ensures reads { Reads (read_rule (Rule.if_else {inside = inside}) tokens.old) result tokens.new }
    ensures shorter { OnOk result (length tokens.new < length tokens.old) }
{
    let word = tokens.take(Kind::If)?;
    tokens.take(Kind::LeftParen)?;
    let condition = hold(expression(alloc, tokens)?);
    tokens.take(Kind::RightParen)?;
    let then = block(alloc, tokens, inside)?;
    let otherwise = otherwise(alloc, tokens, inside)?;
    Ok(Stmt {
        place: word.place,
        node: StmtNode::If(condition.out(), then, otherwise),
    })
}

#[cycle(statement)]
fn else_block(alloc: Global, tokens: &mut Tokens<'_>, inside: bool) -> Result<List<Stmt>, Stop>
    ensures reads { Reads (read_rule (Rule.else_block {inside = inside}) tokens.old) result tokens.new }
    ensures no_longer { OnOk result (length tokens.new ≤ length tokens.old) }
{
    tokens.take(Kind::Else)?;
    block(alloc, tokens, inside)
}

#[cycle(statement)]
#[tactic(auto, using(vd_cgrammar::specs::Laws::read_is))]
fn otherwise(alloc: Global, tokens: &mut Tokens<'_>, inside: bool) -> Result<List<Stmt>, Stop>
    ensures reads { Reads (read (Sort.Otherwise inside) tokens.old) result tokens.new }
    ensures no_longer { OnOk result (length tokens.new ≤ length tokens.old) }
{
    if tokens.sees(Class::One(Kind::Else)) {
        else_block(alloc, tokens, inside)
    } else {
        Ok(List::new(alloc))
    }
}

#[cycle(statement)]
fn while_loop(alloc: Global, tokens: &mut Tokens<'_>, inside: bool) -> Result<Stmt, Stop>
    ensures reads { Reads (read_rule (Rule.while {inside = inside}) tokens.old) result tokens.new }
    ensures shorter { OnOk result (length tokens.new < length tokens.old) }
{
    let word = tokens.take(Kind::While)?;
    tokens.take(Kind::LeftParen)?;
    let condition = hold(expression(alloc, tokens)?);
    tokens.take(Kind::RightParen)?;
    let body = block(alloc, tokens, true)?;
    Ok(Stmt {
        place: word.place,
        node: StmtNode::While(condition.out(), body),
    })
}

#[cycle(statement)]
fn block_rule(alloc: Global, tokens: &mut Tokens<'_>, inside: bool) -> Result<List<Stmt>, Stop>
    ensures reads { Reads (read_rule (Rule.block {inside = inside}) tokens.old) result tokens.new }
    ensures no_longer { OnOk result (length tokens.new ≤ length tokens.old) }
{
    tokens.take(Kind::LeftBrace)?;
    statements(alloc, tokens, inside)
}

#[cycle(statement)]
#[tactic(auto, using(vd_cgrammar::specs::Laws::read_is))]
fn block(alloc: Global, tokens: &mut Tokens<'_>, inside: bool) -> Result<List<Stmt>, Stop>
    ensures reads { Reads (read (Sort.Block inside) tokens.old) result tokens.new }
    ensures no_longer { OnOk result (length tokens.new ≤ length tokens.old) }
{
    block_rule(alloc, tokens, inside)
}

#[cycle(statement)]
#[tactic(auto, using(vd_cgrammar::specs::Laws::read_is))]
fn statement(alloc: Global, tokens: &mut Tokens<'_>, inside: bool) -> Result<Stmt, Stop>
    ensures reads { Reads (read (Sort.Statement inside) tokens.old) result tokens.new }
    ensures shorter { OnOk result (length tokens.new < length tokens.old) }
{
    if tokens.sees(Class::One(Kind::Semicolon)) {
        skip(tokens, inside)
    } else if tokens.sees(Class::One(Kind::If)) {
        if_else(alloc, tokens, inside)
    } else if tokens.sees(Class::One(Kind::While)) {
        while_loop(alloc, tokens, inside)
    } else if tokens.sees(Class::One(Kind::Return)) {
        return_statement(alloc, tokens, inside)
    } else {
        wordless_statement(alloc, tokens, inside)
    }
}

/// The statements up to the closing brace.
#[cycle(statement)]
#[tactic(auto, using(vd_cgrammar::specs::Laws::read_is, vd_grammar::specs::Loops::fronts))]
pub(crate) fn statements(
    alloc: Global,
    tokens: &mut Tokens<'_>,
    inside: bool,
) -> Result<List<Stmt>, Stop>
    ensures reads { Reads (read (Sort.Statements inside) tokens.old) result tokens.new }
    ensures no_longer { OnOk result (length tokens.new ≤ length tokens.old) }
{
    let mut found = List::new(alloc);
    'found: while !tokens.sees(Class::One(Kind::RightBrace)) {
        found.push(statement(alloc, tokens, inside)?)?;
    }
    tokens.take(Kind::RightBrace)?;
    Ok(found)
}
