//! Items of the heap.

ghost use Rattle.std.specs.Prelude.{◌≡◌, ◌≤◌, length};
ghost use Rattle.vd_grammar.specs.Outcome.{with_front};
ghost use Rattle.vd_grammar.specs.Reads.{Reads};
ghost use Rattle.vd_logic_grammar.specs.Grammar.{Phrase, Rule};
ghost use Rattle.vd_logic_grammar.specs.Read.{read, read_rule};

use crate::arguments::label;
use crate::expression::term;
use std::alloc::Global;
use vd_base::{List, hold};
use vd_grammar::Stop;
use vd_logic::Item;
use vd_logic_grammar::{Class, Kind, Tokens};

fn data(alloc: Global, tokens: &mut Tokens<'_>) -> Result<Item, Stop>
    ensures reads { Reads (read_rule Rule.data_ tokens.old) result tokens.new }
    ensures no_longer { length tokens.new ≤ length tokens.old }
{
    tokens.take(Kind::Data)?;
    tokens.take(Kind::LeftParen)?;
    let s = hold(term(alloc, tokens)?);
    tokens.take(Kind::Comma)?;
    let p = hold(term(alloc, tokens)?);
    tokens.take(Kind::Comma)?;
    let l = hold(term(alloc, tokens)?);
    tokens.take(Kind::RightParen)?;
    Ok(Item::Data(s.out(), p.out(), l.out()))
}

fn lock(alloc: Global, tokens: &mut Tokens<'_>) -> Result<Item, Stop>
    ensures reads { Reads (read_rule Rule.lock tokens.old) result tokens.new }
    ensures no_longer { length tokens.new ≤ length tokens.old }
{
    tokens.take(Kind::Lock)?;
    tokens.take(Kind::LeftParen)?;
    let s = hold(term(alloc, tokens)?);
    tokens.take(Kind::Comma)?;
    let p = hold(term(alloc, tokens)?);
    tokens.take(Kind::Comma)?;
    let invariant = hold(label(alloc, tokens)?);
    tokens.take(Kind::RightParen)?;
    Ok(Item::Lock(s.out(), p.out(), invariant.out()))
}

fn holds(alloc: Global, tokens: &mut Tokens<'_>) -> Result<Item, Stop>
    ensures reads { Reads (read_rule Rule.holds tokens.old) result tokens.new }
    ensures no_longer { length tokens.new ≤ length tokens.old }
{
    tokens.take(Kind::Holds)?;
    tokens.take(Kind::LeftParen)?;
    let p = hold(term(alloc, tokens)?);
    tokens.take(Kind::Comma)?;
    let invariant = hold(label(alloc, tokens)?);
    tokens.take(Kind::RightParen)?;
    Ok(Item::Holds(p.out(), invariant.out()))
}

fn token_item(alloc: Global, tokens: &mut Tokens<'_>) -> Result<Item, Stop>
    ensures reads { Reads (read_rule Rule.token_item tokens.old) result tokens.new }
    ensures no_longer { length tokens.new ≤ length tokens.old }
{
    tokens.take(Kind::TokenWord)?;
    tokens.take(Kind::LeftParen)?;
    let p = hold(term(alloc, tokens)?);
    tokens.take(Kind::Comma)?;
    let n = hold(term(alloc, tokens)?);
    tokens.take(Kind::RightParen)?;
    Ok(Item::Token(p.out(), n.out()))
}

fn predicate(alloc: Global, tokens: &mut Tokens<'_>) -> Result<Item, Stop>
    ensures reads { Reads (read_rule Rule.predicate tokens.old) result tokens.new }
    ensures no_longer { length tokens.new ≤ length tokens.old }
{
    let label = label(alloc, tokens)?;
    Ok(Item::Pred(label))
}

#[tactic(auto, using(vd_logic_grammar::specs::Laws::read_is))]
fn item(alloc: Global, tokens: &mut Tokens<'_>) -> Result<Item, Stop>
    ensures reads { Reads (read Phrase.Item_ tokens.old) result tokens.new }
    ensures no_longer { length tokens.new ≤ length tokens.old }
{
    if tokens.sees(Class::One(Kind::Data)) {
        data(alloc, tokens)
    } else if tokens.sees(Class::One(Kind::Lock)) {
        lock(alloc, tokens)
    } else if tokens.sees(Class::One(Kind::Holds)) {
        holds(alloc, tokens)
    } else if tokens.sees(Class::One(Kind::TokenWord)) {
        token_item(alloc, tokens)
    } else {
        predicate(alloc, tokens)
    }
}

/// The items behind others, up to the closing bracket.
#[tactic(auto, using(vd_logic_grammar::specs::Laws::read_is, vd_grammar::specs::Loops::fronts))]
fn more_items(alloc: Global, tokens: &mut Tokens<'_>, first: List<Item>) -> Result<List<Item>, Stop>
    ensures reads { Reads (with_front first (read Phrase.MoreItems tokens.old)) result tokens.new }
    ensures no_longer { length tokens.new ≤ length tokens.old }
{
    let mut found = first;
    'found: while !tokens.sees(Class::One(Kind::RightParen)) {
        tokens.take(Kind::Comma)?;
        found.push(item(alloc, tokens)?)?;
    }
    tokens.take(Kind::RightParen)?;
    Ok(found)
}

#[tactic(auto, using(vd_grammar::specs::Loops::fronts))]
fn first_item(alloc: Global, tokens: &mut Tokens<'_>) -> Result<List<Item>, Stop>
    ensures reads { Reads (read_rule Rule.first_item tokens.old) result tokens.new }
    ensures no_longer { length tokens.new ≤ length tokens.old }
{
    let mut found = List::new(alloc);
    found.push(item(alloc, tokens)?)?;
    more_items(alloc, tokens, found)
}

fn no_item(alloc: Global, tokens: &mut Tokens<'_>) -> Result<List<Item>, Stop>
    ensures reads { Reads (read_rule Rule.no_item tokens.old) result tokens.new }
    ensures no_longer { length tokens.new ≤ length tokens.old }
{
    tokens.take(Kind::RightParen)?;
    Ok(List::new(alloc))
}

/// The items behind an opening bracket, up to the closing one.
#[tactic(auto, using(vd_logic_grammar::specs::Laws::read_is))]
pub fn items(alloc: Global, tokens: &mut Tokens<'_>) -> Result<List<Item>, Stop>
    ensures reads { Reads (read Phrase.Items tokens.old) result tokens.new }
    ensures no_longer { length tokens.new ≤ length tokens.old }
{
    if tokens.sees(Class::One(Kind::RightParen)) {
        no_item(alloc, tokens)
    } else {
        first_item(alloc, tokens)
    }
}
