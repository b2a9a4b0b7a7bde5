//! Structs and globals.

ghost use Rattle.std.specs.Prelude.{◌≡◌, ◌≤◌, ◌<◌, true, length, IfOk, OnOk};
ghost use Rattle.vd_grammar.specs.Outcome.{with_front};
ghost use Rattle.vd_grammar.specs.Reads.{Reads};
ghost use Rattle.vd_cgrammar.specs.Grammar.{Sort, Rule};
ghost use Rattle.vd_cgrammar.specs.Lexeme.{kind_of};
ghost use Rattle.vd_cgrammar.specs.Read.{read, read_rule};
ghost use Rattle.vd_cgrammar.specs.Syntax as syntax;
ghost use Rattle.vd_ctext.specs.Tails.{goes_on};

use crate::types::ctype;
use std::alloc::{AllocError, Global};
use vd_base::{Boxed, CType, Field, List, hold};
use vd_cgrammar::{Class, Decl, Kind, Tokens, name_of};
use vd_clight::Init;
use vd_grammar::Stop;

fn written_length(tokens: &mut Tokens<'_>) -> Result<Option<u32>, Stop>
    ensures reads { Reads (read_rule Rule.length tokens.old) result tokens.new }
    ensures no_longer { OnOk result (length tokens.new ≤ length tokens.old) }
{
    tokens.take(Kind::LeftBracket)?;
    let number = tokens.take(Kind::Length)?;
    tokens.take(Kind::RightBracket)?;
    Ok(Some(number.value))
}

/// The length of an array, where one is written.
#[tactic(auto, using(vd_cgrammar::specs::Laws::read_is))]
fn array_length(tokens: &mut Tokens<'_>) -> Result<Option<u32>, Stop>
    ensures reads { Reads (read Sort.Length tokens.old) result tokens.new }
    ensures no_longer { OnOk result (length tokens.new ≤ length tokens.old) }
{
    if tokens.sees(Class::One(Kind::LeftBracket)) {
        written_length(tokens)
    } else {
        Ok(None)
    }
}

fn array_of(alloc: Global, count: Option<u32>, typ: CType) -> Result<CType, AllocError>
    ensures { IfOk result (λ it. it ≡ syntax.array_of count typ) }
{
    match count {
        Some(count) => Ok(CType::Array(Boxed::new(alloc, typ)?, count)),
        None => Ok(typ),
    }
}

/// The fields of a struct, up to the closing brace.
#[tactic(auto, using(vd_cgrammar::specs::Laws::read_is, vd_grammar::specs::Loops::fronts))]
fn fields(alloc: Global, tokens: &mut Tokens<'_>) -> Result<List<Field>, Stop>
    ensures reads { Reads (read Sort.Fields tokens.old) result tokens.new }
{
    let mut found = List::new(alloc);
    'found: while !tokens.sees(Class::One(Kind::RightBrace)) {
        let typ = hold(ctype(alloc, tokens)?);
        let name = tokens.name()?;
        let name = name_of(alloc, name)?;
        let count = array_length(tokens)?;
        tokens.take(Kind::Semicolon)?;
        let typ = array_of(alloc, count, typ.out())?;
        found.push(Field { name, typ })?;
    }
    tokens.take(Kind::RightBrace)?;
    Ok(found)
}

/// By its only rule; what is proved of the phrase needs the choice of a rule, and is proved at one call.
fn struct_rule(alloc: Global, tokens: &mut Tokens<'_>) -> Result<Decl, Stop>
    ensures reads { Reads (read_rule Rule.struct_section tokens.old) result tokens.new }
{
    tokens.take(Kind::Struct)?;
    let name = tokens.own_name()?;
    tokens.take(Kind::LeftBrace)?;
    let fields = fields(alloc, tokens)?;
    tokens.take(Kind::Semicolon)?;
    tokens.take(Kind::EndLine)?;
    Ok(Decl::Struct(name_of(alloc, name)?, fields))
}

/// A struct, and the line `end`.
#[tactic(auto, using(vd_cgrammar::specs::Laws::read_is))]
pub fn struct_section(alloc: Global, tokens: &mut Tokens<'_>) -> Result<Decl, Stop>
    ensures reads { Reads (read Sort.StructSection tokens.old) result tokens.new }
{
    struct_rule(alloc, tokens)
}

fn positive_value(tokens: &mut Tokens<'_>) -> Result<Init, Stop>
    ensures reads { Reads (read_rule Rule.positive_value tokens.old) result tokens.new }
    ensures no_longer { OnOk result (length tokens.new ≤ length tokens.old) }
{
    let number = tokens.expect(Class::AnyNumber)?;
    Ok(Init::Int(number.value))
}

fn negative(number: u32) -> u32
    ensures { result ≡ syntax.negative number }
{
    if number == 0 {
        0
    } else {
        4294967295 - (number - 1)
    }
}

fn negative_value(tokens: &mut Tokens<'_>) -> Result<Init, Stop>
    ensures reads { Reads (read_rule Rule.negative_value tokens.old) result tokens.new }
    ensures no_longer { OnOk result (length tokens.new ≤ length tokens.old) }
{
    tokens.take(Kind::Minus)?;
    let number = tokens.expect(Class::AnyNumber)?;
    Ok(Init::Int(negative(number.value)))
}

fn address_value(alloc: Global, tokens: &mut Tokens<'_>) -> Result<Init, Stop>
    ensures reads { Reads (read_rule Rule.address_value tokens.old) result tokens.new }
    ensures no_longer { OnOk result (length tokens.new ≤ length tokens.old) }
{
    tokens.take(Kind::And)?;
    let name = tokens.name()?;
    Ok(Init::Addr(name_of(alloc, name)?))
}

/// An initial value.
#[tactic(auto, using(vd_cgrammar::specs::Laws::read_is))]
fn init_value(alloc: Global, tokens: &mut Tokens<'_>) -> Result<Init, Stop>
    ensures reads { Reads (read Sort.InitValue tokens.old) result tokens.new }
    ensures no_longer { OnOk result (length tokens.new ≤ length tokens.old) }
{
    if tokens.sees(Class::AnyNumber) {
        positive_value(tokens)
    } else if tokens.sees(Class::One(Kind::Minus)) {
        negative_value(tokens)
    } else {
        address_value(alloc, tokens)
    }
}

/// Whether one value more follows, where at most so many may.
fn goes_on(left: u32, tokens: &Tokens<'_>) -> bool
    ensures test { result ≡ goes_on left (kind_of tokens.now) }
    ensures some { result ≡ true → 0 < left }
{
    left > 0 && tokens.sees(Class::One(Kind::Comma))
}

/// At most so many values behind others, up to the closing brace.
#[tactic(auto, using(crate::proofs::Values::read_more, vd_grammar::specs::Loops::fronts))]
fn more_values(
    alloc: Global,
    tokens: &mut Tokens<'_>,
    most: u32,
    first: List<Init>,
) -> Result<List<Init>, Stop>
    ensures reads { Reads (with_front first (read (Sort.MoreValues most) tokens.old)) result tokens.new }
{
    let mut found = first;
    let mut left = most;
    'found: while goes_on(left, tokens) {
        tokens.take(Kind::Comma)?;
        found.push(init_value(alloc, tokens)?)?;
        left -= 1;
    }
    tokens.take(Kind::RightBrace)?;
    Ok(found)
}

#[tactic(auto, using(vd_grammar::specs::Loops::fronts))]
fn several_values(alloc: Global, tokens: &mut Tokens<'_>) -> Result<List<Init>, Stop>
    ensures reads { Reads (read_rule Rule.several_values tokens.old) result tokens.new }
{
    tokens.take(Kind::LeftBrace)?;
    let mut found = List::new(alloc);
    found.push(init_value(alloc, tokens)?)?;
    more_values(alloc, tokens, 127, found)
}

fn one_value(alloc: Global, tokens: &mut Tokens<'_>) -> Result<List<Init>, Stop>
    ensures reads { Reads (read_rule Rule.one_value tokens.old) result tokens.new }
{
    let value = init_value(alloc, tokens)?;
    let mut found = List::new(alloc);
    found.push(value)?;
    Ok(found)
}

/// The initial values behind `=`.
#[tactic(auto, using(vd_cgrammar::specs::Laws::read_is))]
fn initials(alloc: Global, tokens: &mut Tokens<'_>) -> Result<List<Init>, Stop>
    ensures reads { Reads (read Sort.Initials tokens.old) result tokens.new }
{
    if tokens.sees(Class::One(Kind::LeftBrace)) {
        several_values(alloc, tokens)
    } else {
        one_value(alloc, tokens)
    }
}

fn written_initial(alloc: Global, tokens: &mut Tokens<'_>) -> Result<List<Init>, Stop>
    ensures reads { Reads (read_rule Rule.initial tokens.old) result tokens.new }
{
    tokens.take(Kind::Assign)?;
    initials(alloc, tokens)
}

/// The initial values of a global, where some are written.
#[tactic(auto, using(vd_cgrammar::specs::Laws::read_is))]
fn initial(alloc: Global, tokens: &mut Tokens<'_>) -> Result<List<Init>, Stop>
    ensures reads { Reads (read Sort.Initial tokens.old) result tokens.new }
{
    if tokens.sees(Class::One(Kind::Assign)) {
        written_initial(alloc, tokens)
    } else {
        Ok(List::new(alloc))
    }
}

fn global_rule(alloc: Global, tokens: &mut Tokens<'_>) -> Result<Decl, Stop>
    ensures reads { Reads (read_rule Rule.global_section tokens.old) result tokens.new }
{
    let typ = hold(ctype(alloc, tokens)?);
    let name = tokens.own_name()?;
    let count = array_length(tokens)?;
    let init = initial(alloc, tokens)?;
    tokens.take(Kind::Semicolon)?;
    tokens.take(Kind::EndLine)?;
    let typ = hold(array_of(alloc, count, typ.out())?);
    let name = name_of(alloc, name)?;
    let typ = typ.out();
    Ok(Decl::Global(Field { name, typ }, init))
}

/// A global, and the line `end`.
#[tactic(auto, using(vd_cgrammar::specs::Laws::read_is))]
pub fn global_section(alloc: Global, tokens: &mut Tokens<'_>) -> Result<Decl, Stop>
    ensures reads { Reads (read Sort.GlobalSection tokens.old) result tokens.new }
{
    global_rule(alloc, tokens)
}
