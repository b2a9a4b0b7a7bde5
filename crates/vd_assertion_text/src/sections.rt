//! Sections of predicates and specifications, up to the line `end`, and assertions of scripts.

ghost use Rattle.std.specs.Prelude.{◌≡◌, ◌≤◌, length, map, IfOk};
ghost use Rattle.vd_grammar.specs.Outcome.{with_front};
ghost use Rattle.vd_grammar.specs.Reads.{Reads};
ghost use Rattle.vd_logic_grammar.specs.Grammar.{Phrase, Rule};
ghost use Rattle.vd_logic_grammar.specs.Read.{read, read_rule};
ghost use Rattle.vd_logic_grammar.specs.Variables as variables;

use crate::assertion::{assertion, facts};
use crate::binder::binders;
use crate::numbering::{hides, numbered, sorts_of, with_result};
use crate::parameters::parameters;
use crate::types::ctype;
use std::alloc::{AllocError, Global};
use vd_base::{List, Name, hold};
use vd_clight::Signature;
use vd_grammar::Stop;
use vd_logic::{Assertion, Sort, Spec};
use vd_logic_grammar::{AssertionText, Class, Kind, Tokens, name_of};

fn claim_rule(alloc: Global, tokens: &mut Tokens<'_>) -> Result<Assertion, Stop>
    ensures reads { Reads (read_rule Rule.claim tokens.old) result tokens.new }
    ensures no_longer { length tokens.new ≤ length tokens.old }
{
    let text = assertion(alloc, tokens)?;
    let (claim, _) = numbered(alloc, &[], &text)?;
    Ok(claim)
}

/// An assertion of a script, whose opened variables alone are numbered.
#[tactic(auto, using(vd_logic_grammar::specs::Laws::read_is))]
pub fn claim(alloc: Global, tokens: &mut Tokens<'_>) -> Result<Assertion, Stop>
    ensures reads { Reads (read Phrase.Claim tokens.old) result tokens.new }
    ensures no_longer { length tokens.new ≤ length tokens.old }
{
    claim_rule(alloc, tokens)
}

fn abstract_rule(alloc: Global, tokens: &mut Tokens<'_>) -> Result<(List<Sort>, bool), Stop>
    ensures reads { Reads (read_rule Rule.abstract_section tokens.old) result tokens.new }
    ensures no_longer { length tokens.new ≤ length tokens.old }
{
    tokens.take(Kind::LeftParen)?;
    let names = binders(alloc, tokens)?;
    tokens.take(Kind::RightParen)?;
    tokens.take(Kind::EndLine)?;
    let sorts = sorts_of(alloc, names.as_slice())?;
    let hides = hides(alloc, names.as_slice())?;
    Ok((sorts, hides))
}

/// The sorts of the arguments of a predicate that an interface declares, whether the name of one hides another's, and the
/// line `end`.
#[tactic(auto, using(vd_logic_grammar::specs::Laws::read_is))]
pub fn abstract_section(alloc: Global, tokens: &mut Tokens<'_>) -> Result<(List<Sort>, bool), Stop>
    ensures reads { Reads (read Phrase.AbstractSection tokens.old) result tokens.new }
    ensures no_longer { length tokens.new ≤ length tokens.old }
{
    abstract_rule(alloc, tokens)
}

/// The cases behind others.
#[tactic(auto, using(vd_logic_grammar::specs::Laws::read_is, vd_grammar::specs::Loops::fronts))]
fn more_cases(
    alloc: Global,
    tokens: &mut Tokens<'_>,
    first: List<AssertionText>,
) -> Result<List<AssertionText>, Stop>
    ensures reads { Reads (with_front first (read Phrase.MoreCases tokens.old)) result tokens.new }
    ensures no_longer { length tokens.new ≤ length tokens.old }
{
    let mut found = first;
    'found: while tokens.sees(Class::One(Kind::Case)) {
        tokens.take(Kind::Case)?;
        found.push(assertion(alloc, tokens)?)?;
    }
    Ok(found)
}

#[tactic(auto, using(vd_grammar::specs::Loops::fronts))]
fn cases_rule(alloc: Global, tokens: &mut Tokens<'_>) -> Result<List<AssertionText>, Stop>
    ensures reads { Reads (read_rule Rule.first_case tokens.old) result tokens.new }
    ensures no_longer { length tokens.new ≤ length tokens.old }
{
    tokens.take(Kind::Case)?;
    let mut found = List::new(alloc);
    found.push(assertion(alloc, tokens)?)?;
    more_cases(alloc, tokens, found)
}

#[tactic(auto, using(vd_logic_grammar::specs::Laws::read_is))]
fn cases(alloc: Global, tokens: &mut Tokens<'_>) -> Result<List<AssertionText>, Stop>
    ensures reads { Reads (read Phrase.Cases tokens.old) result tokens.new }
    ensures no_longer { length tokens.new ≤ length tokens.old }
{
    cases_rule(alloc, tokens)
}

fn number_cases(
    alloc: Global,
    names: &[(Name, Sort)],
    cases: &List<AssertionText>,
) -> Result<(List<Assertion>, bool), AllocError>
    ensures cases { IfOk result (λ it. it.0 ≡ map (variables.numbered_assertion names.now) cases.now) }
    ensures hides { IfOk result (λ it. it.1 ≡ variables.hides_in_case names.now cases.now) }
{
    let mut found = List::new(alloc);
    let mut hides = false;
    for case in cases.as_slice() {
        let (assertion, hides_here) = numbered(alloc, names, case)?;
        found.push(assertion)?;
        hides |= hides_here;
    }
    Ok((found, hides))
}

fn pred_rule(
    alloc: Global,
    tokens: &mut Tokens<'_>,
) -> Result<(List<Sort>, List<Assertion>, bool), Stop>
    ensures reads { Reads (read_rule Rule.pred_section tokens.old) result tokens.new }
    ensures no_longer { length tokens.new ≤ length tokens.old }
{
    tokens.take(Kind::LeftParen)?;
    let names = binders(alloc, tokens)?;
    tokens.take(Kind::RightParen)?;
    let texts = cases(alloc, tokens)?;
    tokens.take(Kind::EndLine)?;
    let sorts = sorts_of(alloc, names.as_slice())?;
    let (cases, hides) = number_cases(alloc, names.as_slice(), &texts)?;
    Ok((sorts, cases, hides))
}

/// The sorts of a predicate's arguments, its cases, whether in one a name hides another, and the line `end`.
#[tactic(auto, using(vd_logic_grammar::specs::Laws::read_is))]
pub fn pred_section(
    alloc: Global,
    tokens: &mut Tokens<'_>,
) -> Result<(List<Sort>, List<Assertion>, bool), Stop>
    ensures reads { Reads (read Phrase.PredSection tokens.old) result tokens.new }
    ensures no_longer { length tokens.new ≤ length tokens.old }
{
    pred_rule(alloc, tokens)
}

fn signature_rule(alloc: Global, tokens: &mut Tokens<'_>) -> Result<Signature, Stop>
    ensures reads { Reads (read_rule Rule.signature tokens.old) result tokens.new }
    ensures no_longer { length tokens.new ≤ length tokens.old }
{
    let ret = hold(ctype(alloc, tokens)?);
    let name = tokens.own_name()?;
    tokens.take(Kind::LeftParen)?;
    let params = parameters(alloc, tokens)?;
    let name = name_of(alloc, name)?;
    Ok(Signature {
        ret: ret.out(),
        name,
        params,
    })
}

#[tactic(auto, using(vd_logic_grammar::specs::Laws::read_is))]
fn signature(alloc: Global, tokens: &mut Tokens<'_>) -> Result<Signature, Stop>
    ensures reads { Reads (read Phrase.Signature_ tokens.old) result tokens.new }
    ensures no_longer { length tokens.new ≤ length tokens.old }
{
    signature_rule(alloc, tokens)
}

fn some_names(alloc: Global, tokens: &mut Tokens<'_>) -> Result<List<(Name, Sort)>, Stop>
    ensures reads { Reads (read_rule Rule.with_binders tokens.old) result tokens.new }
    ensures no_longer { length tokens.new ≤ length tokens.old }
{
    tokens.take(Kind::With)?;
    let names = binders(alloc, tokens)?;
    tokens.take(Kind::Semicolon)?;
    Ok(names)
}

/// The variables of a specification, or none.
#[tactic(auto, using(vd_logic_grammar::specs::Laws::read_is))]
fn with_names(alloc: Global, tokens: &mut Tokens<'_>) -> Result<List<(Name, Sort)>, Stop>
    ensures reads { Reads (read Phrase.With tokens.old) result tokens.new }
    ensures no_longer { length tokens.new ≤ length tokens.old }
{
    if tokens.sees(Class::One(Kind::With)) {
        some_names(alloc, tokens)
    } else {
        Ok(List::new(alloc))
    }
}

fn specification(
    alloc: Global,
    signature: Signature,
    names: List<(Name, Sort)>,
    pre: &AssertionText,
    post: &AssertionText,
) -> Result<(Spec, bool), AllocError>
    ensures spec { IfOk result (λ it. it.0 ≡ variables.spec_of signature names pre.now post.now) }
    ensures hides { IfOk result (λ it. it.1 ≡ variables.hides_in_spec names post.now) }
{
    let (pre, _) = numbered(alloc, names.as_slice(), pre)?;
    let all = with_result(alloc, names.as_slice())?;
    let (post, hides) = numbered(alloc, all.as_slice(), post)?;
    let spec = Spec {
        ret: signature.ret,
        name: signature.name,
        params: signature.params,
        with: names,
        pre,
        post,
    };
    Ok((spec, hides))
}

fn spec_rule(alloc: Global, tokens: &mut Tokens<'_>) -> Result<(Spec, bool), Stop>
    ensures reads { Reads (read_rule Rule.spec_section tokens.old) result tokens.new }
    ensures no_longer { length tokens.new ≤ length tokens.old }
{
    let signature = signature(alloc, tokens)?;
    let names = with_names(alloc, tokens)?;
    tokens.take(Kind::Pre)?;
    let pre = facts(alloc, tokens)?;
    tokens.take(Kind::Post)?;
    let post = assertion(alloc, tokens)?;
    tokens.take(Kind::EndLine)?;
    Ok(specification(alloc, signature, names, &pre, &post)?)
}

/// The specification of a function, whether one of its variables, the result and what its postcondition opens hides
/// another, and the line `end`.
#[tactic(auto, using(vd_logic_grammar::specs::Laws::read_is))]
pub fn spec_section(alloc: Global, tokens: &mut Tokens<'_>) -> Result<(Spec, bool), Stop>
    ensures reads { Reads (read Phrase.SpecSection tokens.old) result tokens.new }
    ensures no_longer { length tokens.new ≤ length tokens.old }
{
    spec_rule(alloc, tokens)
}
