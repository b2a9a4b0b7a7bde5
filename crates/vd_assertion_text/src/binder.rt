//! Variables with their sorts.

ghost use Rattle.std.specs.Prelude.{◌≡◌, ◌≤◌, length};
ghost use Rattle.vd_grammar.specs.Outcome.{with_front};
ghost use Rattle.vd_grammar.specs.Reads.{Reads};
ghost use Rattle.vd_logic_grammar.specs.Grammar.{Phrase, Rule};
ghost use Rattle.vd_logic_grammar.specs.Read.{read, read_rule};

use crate::made::sort_of;
use std::alloc::Global;
use vd_base::{List, Name};
use vd_grammar::Stop;
use vd_logic::Sort;
use vd_logic_grammar::{Class, Kind, Tokens, name_of};

/// The variables behind others.
#[tactic(auto, using(vd_logic_grammar::specs::Laws::read_is, vd_grammar::specs::Loops::fronts))]
fn more_binders(
    alloc: Global,
    tokens: &mut Tokens<'_>,
    first: List<(Name, Sort)>,
) -> Result<List<(Name, Sort)>, Stop>
    ensures reads { Reads (with_front first (read Phrase.MoreBinders tokens.old)) result tokens.new }
    ensures no_longer { length tokens.new ≤ length tokens.old }
{
    let mut found = first;
    'found: while tokens.sees(Class::One(Kind::Comma)) {
        tokens.take(Kind::Comma)?;
        let name = tokens.name()?;
        tokens.take(Kind::Colon)?;
        let word = tokens.expect(Class::SortWord)?;
        let name = name_of(alloc, name)?;
        found.push((name, sort_of(word.kind)))?;
    }
    Ok(found)
}

#[tactic(auto, using(vd_grammar::specs::Loops::fronts))]
fn first_binder(alloc: Global, tokens: &mut Tokens<'_>) -> Result<List<(Name, Sort)>, Stop>
    ensures reads { Reads (read_rule Rule.first_binder tokens.old) result tokens.new }
    ensures no_longer { length tokens.new ≤ length tokens.old }
{
    let name = tokens.name()?;
    tokens.take(Kind::Colon)?;
    let word = tokens.expect(Class::SortWord)?;
    let name = name_of(alloc, name)?;
    let mut found = List::new(alloc);
    found.push((name, sort_of(word.kind)))?;
    more_binders(alloc, tokens, found)
}

/// Variables with their sorts, or none.
#[tactic(auto, using(vd_logic_grammar::specs::Laws::read_is))]
pub(crate) fn binders(alloc: Global, tokens: &mut Tokens<'_>) -> Result<List<(Name, Sort)>, Stop>
    ensures reads { Reads (read Phrase.Binders tokens.old) result tokens.new }
    ensures no_longer { length tokens.new ≤ length tokens.old }
{
    if tokens.sees(Class::AnyName) {
        first_binder(alloc, tokens)
    } else {
        Ok(List::new(alloc))
    }
}
