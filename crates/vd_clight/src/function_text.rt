//! Statements and functions as text.

ghost use Rattle.std.specs.Prelude.{◌≡◌, ◌++◌, ◌∷◌, [], map, flat_map, codes, IfOk, OnOk};
ghost use Rattle.vd_clight.specs.Printed.{braces, declaration_words, else_braces, ended, expression_words, field_words, listed, opened_words, parameter_words, printed, result_words, statement_words, target_words};

use crate::expression_text::{put, put_operand, put_type};
use crate::syntax::{Expr, FnText, Stmt, StmtNode};
use std::alloc::{AllocError, Global};
use vd_base::{Field, Text};

// ---- statements

fn put_expression(alloc: Global, line: &mut Text, e: &Expr) -> Result<(), AllocError>
    ensures { OnOk result (line.new ≡ line.old ++ ended (expression_words e.now)) }
{
    put_operand(alloc, line, e, 0)
}

/// Arguments with commas between them.
fn put_arguments(alloc: Global, line: &mut Text, arguments: &[Expr]) -> Result<(), AllocError>
    ensures { OnOk result (line.new ≡ line.old ++ ended (listed (map expression_words arguments.now))) }
{
    let Some((first, others)) = arguments.split_first() else {
        return Ok(());
    };
    put_expression(alloc, line, first)?;
    for argument in others {
        put(line, b",")?;
        put_expression(alloc, line, argument)?;
    }
    Ok(())
}

/// What a call's result is assigned to, and the `=`.
fn put_target(alloc: Global, line: &mut Text, target: &Option<Expr>) -> Result<(), AllocError>
    ensures { OnOk result (line.new ≡ line.old ++ ended (target_words target.now)) }
{
    match target {
        None => Ok(()),
        Some(e) => {
            put_expression(alloc, line, e)?;
            put(line, b"=")
        }
    }
}

fn put_result(alloc: Global, line: &mut Text, value: &Option<Expr>) -> Result<(), AllocError>
    ensures { OnOk result (line.new ≡ line.old ++ ended (result_words value.now)) }
{
    match value {
        None => Ok(()),
        Some(e) => put_expression(alloc, line, e),
    }
}

/// A word, and an expression in brackets.
fn put_condition(alloc: Global, line: &mut Text, word: &[u8], e: &Expr) -> Result<(), AllocError>
    ensures { OnOk result (line.new ≡ line.old ++ ended (word.now ∷ codes "(" ∷ expression_words e.now ++ codes ")" ∷ [])) }
{
    put(line, word)?;
    put(line, b"(")?;
    put_expression(alloc, line, e)?;
    put(line, b")")
}

fn put_assignment(alloc: Global, line: &mut Text, place: &Expr, e: &Expr) -> Result<(), AllocError>
    ensures { OnOk result (line.new ≡ line.old ++ ended (expression_words place.now ++ codes "=" ∷ expression_words e.now ++ codes ";" ∷ [])) }
{
    put_expression(alloc, line, place)?;
    put(line, b"=")?;
    put_expression(alloc, line, e)?;
    put(line, b";")
}

fn put_call(
    alloc: Global,
    line: &mut Text,
    target: &Option<Expr>,
    function: &[u8],
    arguments: &[Expr],
) -> Result<(), AllocError>
    ensures { OnOk result (line.new ≡ line.old ++ ended (target_words target.now ++ function.now ∷ codes "(" ∷ listed (map expression_words arguments.now) ++ codes ")" ∷ codes ";" ∷ [])) }
{
    put_target(alloc, line, target)?;
    put(line, function)?;
    put(line, b"(")?;
    put_arguments(alloc, line, arguments)?;
    put(line, b")")?;
    put(line, b";")
}

fn put_return(alloc: Global, line: &mut Text, value: &Option<Expr>) -> Result<(), AllocError>
    ensures { OnOk result (line.new ≡ line.old ++ ended (codes "return" ∷ result_words value.now ++ codes ";" ∷ [])) }
{
    put(line, b"return")?;
    put_result(alloc, line, value)?;
    put(line, b";")
}

/// A word that is a statement.
fn put_word(line: &mut Text, word: &[u8]) -> Result<(), AllocError>
    ensures { OnOk result (line.new ≡ line.old ++ ended (word.now ∷ codes ";" ∷ [])) }
{
    put(line, word)?;
    put(line, b";")
}

/// Statements, one behind the other.
#[cycle(statements)]
fn put_statements(alloc: Global, line: &mut Text, body: &[Stmt]) -> Result<(), AllocError>
    ensures { OnOk result (line.new ≡ line.old ++ ended (flat_map statement_words body.now)) }
{
    for statement in body {
        put_statement(alloc, line, statement)?;
    }
    Ok(())
}

#[cycle(statements)]
fn put_block(alloc: Global, line: &mut Text, body: &[Stmt]) -> Result<(), AllocError>
    ensures { OnOk result (line.new ≡ line.old ++ ended (braces body.now)) }
{
    put(line, b"{")?;
    put_statements(alloc, line, body)?;
    put(line, b"}")
}

/// An empty `else` is not written.
#[cycle(statements)]
fn put_else(alloc: Global, line: &mut Text, body: &[Stmt]) -> Result<(), AllocError>
    ensures { OnOk result (line.new ≡ line.old ++ ended (else_braces body.now)) }
{
    match body.first() {
        None => Ok(()),
        Some(_) => {
            put(line, b"else")?;
            put_block(alloc, line, body)
        }
    }
}

#[cycle(statements)]
fn put_while(alloc: Global, line: &mut Text, body: &[Stmt], e: &Expr) -> Result<(), AllocError>
    ensures { OnOk result (line.new ≡ line.old ++ ended ((codes "while" ∷ codes "(" ∷ expression_words e.now ++ codes ")" ∷ []) ++ braces body.now)) }
{
    put_condition(alloc, line, b"while", e)?;
    put_block(alloc, line, body)
}

#[cycle(statements)]
fn put_statement(alloc: Global, line: &mut Text, statement: &Stmt) -> Result<(), AllocError>
    ensures { OnOk result (line.new ≡ line.old ++ ended (statement_words statement.now)) }
{
    match &statement.node {
        StmtNode::Skip => put(line, b";"),
        StmtNode::Assign(place, e) => put_assignment(alloc, line, place, e),
        StmtNode::Call(target, function, arguments) => {
            let function = function.as_bytes();
            put_call(alloc, line, target, function, arguments.as_slice())
        }
        StmtNode::If(e, then, other) => {
            put_condition(alloc, line, b"if", e)?;
            put_block(alloc, line, then.as_slice())?;
            put_else(alloc, line, other.as_slice())?;
            Ok(())
        }
        StmtNode::While(e, body) => put_while(alloc, line, body.as_slice(), e),
        StmtNode::Break => put_word(line, b"break"),
        StmtNode::Continue => put_word(line, b"continue"),
        StmtNode::Return(value) => put_return(alloc, line, value),
    }
}

// ---- functions

fn put_field(alloc: Global, line: &mut Text, field: &Field) -> Result<(), AllocError>
    ensures { OnOk result (line.new ≡ line.old ++ ended (field_words field.now)) }
{
    put_type(alloc, line, &field.typ)?;
    put(line, field.name.as_bytes())
}

fn put_parameters(alloc: Global, line: &mut Text, parameters: &[Field]) -> Result<(), AllocError>
    ensures { OnOk result (line.new ≡ line.old ++ ended (parameter_words parameters.now)) }
{
    let Some((first, others)) = parameters.split_first() else {
        return put(line, b"void");
    };
    put_field(alloc, line, first)?;
    for parameter in others {
        put(line, b",")?;
        put_field(alloc, line, parameter)?;
    }
    Ok(())
}

fn put_declarations(alloc: Global, line: &mut Text, temporaries: &[Field]) -> Result<(), AllocError>
    ensures { OnOk result (line.new ≡ line.old ++ ended (flat_map declaration_words temporaries.now)) }
{
    for temporary in temporaries {
        put_field(alloc, line, temporary)?;
        put(line, b";")?;
    }
    Ok(())
}

/// A function's tokens but the last bracket.
fn put_opened(alloc: Global, line: &mut Text, f: &FnText) -> Result<(), AllocError>
    ensures { OnOk result (line.new ≡ line.old ++ ended (opened_words f.now)) }
{
    put_type(alloc, line, &f.ret)?;
    put(line, f.name.as_bytes())?;
    put(line, b"(")?;
    put_parameters(alloc, line, f.params.as_slice())?;
    put(line, b")")?;
    put(line, b"{")?;
    put_declarations(alloc, line, f.temps.as_slice())?;
    put_statements(alloc, line, f.body.as_slice())
}

/// The text of a function: its tokens with one space between each two. Brackets stand round an operand only where it
/// binds less tightly than its operator, or as tightly and behind it; an empty `else` is not written.
pub fn print(alloc: Global, f: &FnText) -> Result<Text, AllocError>
    ensures { IfOk result (λ text. text ≡ printed f.now) }
{
    let mut line = Text::from_vec(Vec::new(alloc));
    put_opened(alloc, &mut line, f)?;
    line.append(b"}")?;
    Ok(line)
}
