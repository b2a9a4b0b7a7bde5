//! Functions.

ghost use Rattle.std.specs.Prelude.{◌≡◌, ◌≤◌, length};
ghost use Rattle.vd_grammar.specs.Reads.{Reads};
ghost use Rattle.vd_cgrammar.specs.Grammar.{Sort, Rule};
ghost use Rattle.vd_cgrammar.specs.Read.{read, read_rule};

use crate::parameters::{declarations, parameters};
use crate::statement::statements;
use crate::types::ctype;
use std::alloc::Global;
use vd_base::hold;
use vd_cgrammar::{Kind, Tokens, name_of};
use vd_clight::FnText;
use vd_grammar::Stop;

/// By its only rule; what is proved of the phrase needs the choice of a rule, and is proved at one call.
fn function_rule(alloc: Global, tokens: &mut Tokens<'_>) -> Result<FnText, Stop>
    ensures reads { Reads (read_rule Rule.function tokens.old) result tokens.new }
{
    let ret = hold(ctype(alloc, tokens)?);
    let name = tokens.own_name()?;
    tokens.take(Kind::LeftParen)?;
    let params = parameters(alloc, tokens)?;
    tokens.take(Kind::LeftBrace)?;
    let temps = declarations(alloc, tokens)?;
    let body = statements(alloc, tokens, false)?;
    let name = name_of(alloc, name)?;
    Ok(FnText {
        ret: ret.out(),
        name,
        params,
        temps,
        body,
    })
}

#[tactic(auto, using(vd_cgrammar::specs::Laws::read_is))]
fn function(alloc: Global, tokens: &mut Tokens<'_>) -> Result<FnText, Stop>
    ensures reads { Reads (read Sort.Function tokens.old) result tokens.new }
{
    function_rule(alloc, tokens)
}

fn section_rule(alloc: Global, tokens: &mut Tokens<'_>) -> Result<FnText, Stop>
    ensures reads { Reads (read_rule Rule.fn_section tokens.old) result tokens.new }
{
    let function = hold(function(alloc, tokens)?);
    tokens.take(Kind::EndLine)?;
    Ok(function.out())
}

/// A function, and the line `end`.
#[tactic(auto, using(vd_cgrammar::specs::Laws::read_is))]
pub fn fn_section(alloc: Global, tokens: &mut Tokens<'_>) -> Result<FnText, Stop>
    ensures reads { Reads (read Sort.FnSection tokens.old) result tokens.new }
{
    section_rule(alloc, tokens)
}
