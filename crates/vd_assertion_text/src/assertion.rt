//! Assertions as they are written.

ghost use Rattle.std.specs.Prelude.{◌≡◌, ◌≤◌, length};
ghost use Rattle.vd_grammar.specs.Outcome.{with_front};
ghost use Rattle.vd_grammar.specs.Reads.{Reads};
ghost use Rattle.vd_logic_grammar.specs.Grammar.{Phrase, Rule};
ghost use Rattle.vd_logic_grammar.specs.Read.{read, read_rule};

use crate::binder::binders;
use crate::expression::term;
use crate::fact::props;
use crate::item::items;
use std::alloc::Global;
use vd_base::{List, Name, hold};
use vd_grammar::Stop;
use vd_logic::{Sort, Term};
use vd_logic_grammar::{AssertionText, Class, Kind, Tokens, name_of};

/// The values of temporaries behind others, up to the closing bracket.
#[tactic(auto, using(vd_logic_grammar::specs::Laws::read_is, vd_grammar::specs::Loops::fronts))]
fn more_locals(
    alloc: Global,
    tokens: &mut Tokens<'_>,
    first: List<(Name, Term)>,
) -> Result<List<(Name, Term)>, Stop>
    ensures reads { Reads (with_front first (read Phrase.MoreLocals tokens.old)) result tokens.new }
    ensures no_longer { length tokens.new ≤ length tokens.old }
{
    let mut found = first;
    'found: while !tokens.sees(Class::One(Kind::RightParen)) {
        tokens.take(Kind::Comma)?;
        let name = tokens.name()?;
        tokens.take(Kind::Equal)?;
        let value = hold(term(alloc, tokens)?);
        let name = name_of(alloc, name)?;
        found.push((name, value.out()))?;
    }
    tokens.take(Kind::RightParen)?;
    Ok(found)
}

#[tactic(auto, using(vd_grammar::specs::Loops::fronts))]
fn first_local(alloc: Global, tokens: &mut Tokens<'_>) -> Result<List<(Name, Term)>, Stop>
    ensures reads { Reads (read_rule Rule.first_local tokens.old) result tokens.new }
    ensures no_longer { length tokens.new ≤ length tokens.old }
{
    let name = tokens.name()?;
    tokens.take(Kind::Equal)?;
    let value = hold(term(alloc, tokens)?);
    let name = name_of(alloc, name)?;
    let mut found = List::new(alloc);
    found.push((name, value.out()))?;
    more_locals(alloc, tokens, found)
}

fn no_local(alloc: Global, tokens: &mut Tokens<'_>) -> Result<List<(Name, Term)>, Stop>
    ensures reads { Reads (read_rule Rule.no_local tokens.old) result tokens.new }
    ensures no_longer { length tokens.new ≤ length tokens.old }
{
    tokens.take(Kind::RightParen)?;
    Ok(List::new(alloc))
}

#[tactic(auto, using(vd_logic_grammar::specs::Laws::read_is))]
fn local_values(alloc: Global, tokens: &mut Tokens<'_>) -> Result<List<(Name, Term)>, Stop>
    ensures reads { Reads (read Phrase.LocalValues tokens.old) result tokens.new }
    ensures no_longer { length tokens.new ≤ length tokens.old }
{
    if tokens.sees(Class::One(Kind::RightParen)) {
        no_local(alloc, tokens)
    } else {
        first_local(alloc, tokens)
    }
}

fn some_locals(alloc: Global, tokens: &mut Tokens<'_>) -> Result<List<(Name, Term)>, Stop>
    ensures reads { Reads (read_rule Rule.locals tokens.old) result tokens.new }
    ensures no_longer { length tokens.new ≤ length tokens.old }
{
    tokens.take(Kind::Local)?;
    tokens.take(Kind::LeftParen)?;
    local_values(alloc, tokens)
}

/// The values of temporaries, or none.
#[tactic(auto, using(vd_logic_grammar::specs::Laws::read_is))]
fn locals(alloc: Global, tokens: &mut Tokens<'_>) -> Result<List<(Name, Term)>, Stop>
    ensures reads { Reads (read Phrase.Locals tokens.old) result tokens.new }
    ensures no_longer { length tokens.new ≤ length tokens.old }
{
    if tokens.sees(Class::One(Kind::Local)) {
        some_locals(alloc, tokens)
    } else {
        Ok(List::new(alloc))
    }
}

/// By its only rule; what is proved of the phrase needs the choice of a rule, and is proved at one call.
fn facts_rule(alloc: Global, tokens: &mut Tokens<'_>) -> Result<AssertionText, Stop>
    ensures reads { Reads (read_rule Rule.facts tokens.old) result tokens.new }
    ensures no_longer { length tokens.new ≤ length tokens.old }
{
    tokens.take(Kind::Prop)?;
    tokens.take(Kind::LeftParen)?;
    let props = props(alloc, tokens)?;
    let locals = locals(alloc, tokens)?;
    tokens.take(Kind::Sep)?;
    tokens.take(Kind::LeftParen)?;
    let items = items(alloc, tokens)?;
    Ok(AssertionText {
        opened: List::new(alloc),
        props,
        locals,
        items,
    })
}

/// An assertion that opens no variables.
#[tactic(auto, using(vd_logic_grammar::specs::Laws::read_is))]
pub(crate) fn facts(alloc: Global, tokens: &mut Tokens<'_>) -> Result<AssertionText, Stop>
    ensures reads { Reads (read Phrase.Facts tokens.old) result tokens.new }
    ensures no_longer { length tokens.new ≤ length tokens.old }
{
    facts_rule(alloc, tokens)
}

fn some_opened(alloc: Global, tokens: &mut Tokens<'_>) -> Result<List<(Name, Sort)>, Stop>
    ensures reads { Reads (read_rule Rule.opened tokens.old) result tokens.new }
    ensures no_longer { length tokens.new ≤ length tokens.old }
{
    tokens.take(Kind::Ex)?;
    let binders = binders(alloc, tokens)?;
    tokens.take(Kind::Semicolon)?;
    Ok(binders)
}

#[tactic(auto, using(vd_logic_grammar::specs::Laws::read_is))]
fn opened(alloc: Global, tokens: &mut Tokens<'_>) -> Result<List<(Name, Sort)>, Stop>
    ensures reads { Reads (read Phrase.Opened tokens.old) result tokens.new }
    ensures no_longer { length tokens.new ≤ length tokens.old }
{
    if tokens.sees(Class::One(Kind::Ex)) {
        some_opened(alloc, tokens)
    } else {
        Ok(List::new(alloc))
    }
}

fn assertion_rule(alloc: Global, tokens: &mut Tokens<'_>) -> Result<AssertionText, Stop>
    ensures reads { Reads (read_rule Rule.assertion tokens.old) result tokens.new }
    ensures no_longer { length tokens.new ≤ length tokens.old }
{
    let opened = opened(alloc, tokens)?;
    let facts = facts(alloc, tokens)?;
    Ok(AssertionText {
        opened,
        props: facts.props,
        locals: facts.locals,
        items: facts.items,
    })
}

/// An assertion, with the variables that it opens.
#[tactic(auto, using(vd_logic_grammar::specs::Laws::read_is))]
pub(crate) fn assertion(alloc: Global, tokens: &mut Tokens<'_>) -> Result<AssertionText, Stop>
    ensures reads { Reads (read Phrase.Assertion_ tokens.old) result tokens.new }
    ensures no_longer { length tokens.new ≤ length tokens.old }
{
    assertion_rule(alloc, tokens)
}
