//! Whether sections are read.

ghost use Rattle.std.specs.Prelude.{◌≢◌, ◌↔◌, Ok, IfOk, IsTrue, OnOk};
ghost use Rattle.vd_grammar.specs.declared.fault.ParseFault.TheVariants.{Memory};
ghost use Rattle.vd_clight.specs.declared.syntax.FnText.{FnText as Function_text};
ghost use Rattle.vd_cgrammar.specs.declared.parts.Decl.{Decl as Declared};
ghost use Rattle.vd_cparse.specs.Section.{AnswersDecl, IsFnSection};
ghost use Rattle.vd_sparse.specs.declared.text.LogicText.{LogicText as Logic_text};
ghost use Rattle.vd_sparse.specs.Sections.{AnswersLogic};
ghost use Rattle.vd_linkage.specs.Only.{IsOnly};
ghost use Rattle.vd_linkage.specs.Reading.{IsRead};

use std::alloc::{AllocError, Global};
use vd_base::Text;
use vd_clight::FnText;
use vd_cparse::{Decl, ParseFault, parse_decl, parse_section};
use vd_outline::{Section, SectionKind};
use vd_sparse::{LogicText, parse_logic};

/// A section is refused: want of memory says nothing of it.
fn refused(fault: ParseFault) -> Result<(), AllocError>
    ensures { OnOk result (fault ≢ Memory) }
{
    match fault {
        ParseFault::Bad(_) | ParseFault::Deep(_) => Ok(()),
        ParseFault::Memory => Err(AllocError),
    }
}

/// The function of a section; none where it is not read.
pub fn function_in(alloc: Global, text: &Text) -> Result<Option<FnText>, AllocError>
    ensures { IfOk result (IsOnly (IsFnSection text.now)) }
{
    match parse_section(alloc, text) {
        Ok(function) => Ok(Some(function)),
        Err(fault) => {
            refused(fault)?;
            Ok(None)
        }
    }
}

fn is_function(alloc: Global, text: &Text) -> Result<bool, AllocError>
    ensures { IfOk result (λ read. IsTrue read ↔ ((f : Function_text) × IsFnSection text.now f)) }
{
    let function = function_in(alloc, text)?;
    Ok(function.is_some())
}

/// The struct or the global of a section; none where it is not read.
pub fn declaration_in(alloc: Global, text: &Text) -> Result<Option<Decl>, AllocError>
    ensures { IfOk result (IsOnly (λ d. AnswersDecl text.now (Ok d))) }
{
    match parse_decl(alloc, text) {
        Ok(declaration) => Ok(Some(declaration)),
        Err(fault) => {
            refused(fault)?;
            Ok(None)
        }
    }
}

fn is_declaration(alloc: Global, text: &Text) -> Result<bool, AllocError>
    ensures { IfOk result (λ read. IsTrue read ↔ ((d : Declared) × AnswersDecl text.now (Ok d))) }
{
    let declaration = declaration_in(alloc, text)?;
    Ok(declaration.is_some())
}

/// What a section of logic says; none where it is not read.
fn logic_in(alloc: Global, text: &Text) -> Result<Option<LogicText>, AllocError>
    ensures { IfOk result (IsOnly (λ t. AnswersLogic text.now (Ok t))) }
{
    match parse_logic(alloc, text) {
        Ok(logic) => Ok(Some(logic)),
        Err(fault) => {
            refused(fault)?;
            Ok(None)
        }
    }
}

fn is_logic(alloc: Global, text: &Text) -> Result<bool, AllocError>
    ensures { IfOk result (λ read. IsTrue read ↔ ((t : Logic_text) × AnswersLogic text.now (Ok t))) }
{
    let logic = logic_in(alloc, text)?;
    Ok(logic.is_some())
}

/// Whether a section that declares a name is read.
pub fn is_read(alloc: Global, section: &Section) -> Result<bool, AllocError>
    ensures { IfOk result (λ read. IsTrue read ↔ IsRead section.now.kind section.now.text) }
{
    match section.kind {
        SectionKind::Struct | SectionKind::Global => is_declaration(alloc, &section.text),
        SectionKind::Fn => is_function(alloc, &section.text),
        SectionKind::Abstract | SectionKind::Pred | SectionKind::Spec => {
            is_logic(alloc, &section.text)
        }
        SectionKind::Uses
        | SectionKind::Exports
        | SectionKind::Units
        | SectionKind::Script
        | SectionKind::Sub
        | SectionKind::Init => Ok(false),
    }
}
