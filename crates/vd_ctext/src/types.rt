//! Types, parameters and declarations.

ghost use Rattle.std.specs.Prelude.{◌≡◌, ◌≤◌, length};
ghost use Rattle.vd_grammar.specs.Reads.{Reads};
ghost use Rattle.vd_cgrammar.specs.Grammar.{Sort, Rule};
ghost use Rattle.vd_cgrammar.specs.Read.{read, read_rule};
ghost use Rattle.vd_cgrammar.specs.Syntax as syntax;
ghost use Rattle.vd_ctext.specs.Tails.{reads_pointers};

use std::alloc::Global;
use vd_base::{Boxed, CType, hold};
use vd_cgrammar::{Class, Kind, Tokens, name_of};
use vd_grammar::Stop;

fn simple_of(kind: Kind) -> CType
    ensures { result ≡ syntax.simple_of kind }
{
    match kind {
        Kind::Int => CType::Int,
        Kind::Unsigned => CType::Unsigned,
        Kind::Lock => CType::Lock,
        _ => CType::Void,
    }
}

/// A type with the stars that stand behind it.
#[tactic(auto, using(vd_cgrammar::specs::Laws::read_is))]
fn pointers(alloc: Global, tokens: &mut Tokens<'_>, base: CType) -> Result<CType, Stop>
    ensures reads { Reads (reads_pointers base (read Sort.Stars tokens.old)) result tokens.new }
    ensures no_longer { length tokens.new ≤ length tokens.old }
{
    let mut found = hold(base);
    'stars: while tokens.sees(Class::One(Kind::Star)) {
        tokens.take(Kind::Star)?;
        found = hold(CType::Pointer(Boxed::new(alloc, found.out())?));
    }
    Ok(found.out())
}

fn simple_type(alloc: Global, tokens: &mut Tokens<'_>) -> Result<CType, Stop>
    ensures reads { Reads (read_rule Rule.simple_type tokens.old) result tokens.new }
    ensures no_longer { length tokens.new ≤ length tokens.old }
{
    let base = tokens.expect(Class::SimpleType)?;
    pointers(alloc, tokens, simple_of(base.kind))
}

fn struct_type(alloc: Global, tokens: &mut Tokens<'_>) -> Result<CType, Stop>
    ensures reads { Reads (read_rule Rule.struct_type tokens.old) result tokens.new }
    ensures no_longer { length tokens.new ≤ length tokens.old }
{
    tokens.take(Kind::Struct)?;
    let name = tokens.name()?;
    let name = name_of(alloc, name)?;
    pointers(alloc, tokens, CType::Struct(name))
}

#[tactic(auto, using(vd_cgrammar::specs::Laws::read_is))]
pub(crate) fn ctype(alloc: Global, tokens: &mut Tokens<'_>) -> Result<CType, Stop>
    ensures reads { Reads (read Sort.Type_ tokens.old) result tokens.new }
    ensures no_longer { length tokens.new ≤ length tokens.old }
{
    if tokens.sees(Class::SimpleType) {
        simple_type(alloc, tokens)
    } else {
        struct_type(alloc, tokens)
    }
}

fn filled_type(alloc: Global, tokens: &mut Tokens<'_>) -> Result<CType, Stop>
    ensures reads { Reads (read_rule Rule.filled_type tokens.old) result tokens.new }
    ensures no_longer { length tokens.new ≤ length tokens.old }
{
    let base = tokens.expect(Class::FilledType)?;
    pointers(alloc, tokens, simple_of(base.kind))
}

fn filled_struct(alloc: Global, tokens: &mut Tokens<'_>) -> Result<CType, Stop>
    ensures reads { Reads (read_rule Rule.filled_struct tokens.old) result tokens.new }
    ensures no_longer { length tokens.new ≤ length tokens.old }
{
    tokens.take(Kind::Struct)?;
    let name = tokens.name()?;
    let name = name_of(alloc, name)?;
    pointers(alloc, tokens, CType::Struct(name))
}

/// A type that does not begin with `void`.
#[tactic(auto, using(vd_cgrammar::specs::Laws::read_is))]
pub(crate) fn filled(alloc: Global, tokens: &mut Tokens<'_>) -> Result<CType, Stop>
    ensures reads { Reads (read Sort.Filled tokens.old) result tokens.new }
    ensures no_longer { length tokens.new ≤ length tokens.old }
{
    if tokens.sees(Class::FilledType) {
        filled_type(alloc, tokens)
    } else {
        filled_struct(alloc, tokens)
    }
}

/// The type that begins with the `void` in front.
#[tactic(auto, using(vd_cgrammar::specs::Laws::read_is))]
pub(crate) fn void_type(alloc: Global, tokens: &mut Tokens<'_>) -> Result<CType, Stop>
    ensures reads { Reads (read Sort.VoidType tokens.old) result tokens.new }
    ensures no_longer { length tokens.new ≤ length tokens.old }
{
    pointers(alloc, tokens, CType::Void)
}
