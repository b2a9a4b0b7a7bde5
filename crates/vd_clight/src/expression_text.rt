//! Tokens, types and expressions as text.

ghost use Rattle.std.specs.Prelude.{◌≡◌, ◌≤◌, ◌++◌, ◌∷◌, [], codes, decimal, OnOk};
ghost use Rattle.vd_clight.specs.Printed.{ended, number_text, of_prefixes, of_suffixes, operand, operator_text, phrase, precedence, prefix_text, type_words};

use crate::syntax::{BinOp, Expr, ExprNode, UnOp};
use std::alloc::{AllocError, Global};
use vd_base::{CType, Text};

// ---- tokens

/// Writes a token and a space.
pub fn put(line: &mut Text, token: &[u8]) -> Result<(), AllocError>
    ensures { OnOk result (line.new ≡ line.old ++ ended (token.now ∷ [])) }
{
    line.append(token)?;
    line.append(b" ")
}

/// A number in decimal.
fn put_number(alloc: Global, line: &mut Text, number: u32) -> Result<(), AllocError>
    ensures { OnOk result (line.new ≡ line.old ++ ended (decimal number ∷ [])) }
{
    let digits = format!(in alloc; "{number}")?;
    put(line, digits.as_bytes())
}

/// A number, with `u` where it is unsigned.
fn put_literal(
    alloc: Global,
    line: &mut Text,
    number: u32,
    unsigned: bool,
) -> Result<(), AllocError>
    ensures { OnOk result (line.new ≡ line.old ++ ended (number_text number unsigned ∷ [])) }
{
    if unsigned {
        let digits = format!(in alloc; "{number}u")?;
        return put(line, digits.as_bytes());
    }
    put_number(alloc, line, number)
}

// ---- types

/// Writes the words of a type, each with a space behind it.
#[tactic(auto, unfolding(crate::specs::Printed::type_words))]
pub fn put_type(alloc: Global, line: &mut Text, typ: &CType) -> Result<(), AllocError>
    ensures { OnOk result (line.new ≡ line.old ++ ended (type_words typ.now)) }
{
    match typ {
        CType::Void => put(line, b"void"),
        CType::Int => put(line, b"int"),
        CType::Unsigned => put(line, b"unsigned"),
        CType::Lock => put(line, b"lock"),
        CType::Struct(name) => {
            put(line, b"struct")?;
            put(line, name.as_bytes())
        }
        CType::Pointer(to) => {
            put_type(alloc, line, to.get())?;
            put(line, b"*")
        }
        CType::Array(of, length) => {
            put_type(alloc, line, of.get())?;
            put(line, b"[")?;
            put_number(alloc, line, *length)?;
            put(line, b"]")
        }
    }
}

// ---- expressions

/// How tightly a prefix binds, a suffix, and what has no operator. See [`precedence`] for the others.
const PREFIXES: u32 = 9;

const SUFFIXES: u32 = 10;

const ATOMS: u32 = 11;

fn precedence(op: BinOp) -> u32
    ensures value { result ≡ precedence op }
    ensures small { result ≤ 8 }
{
    match op {
        BinOp::Or => 1,
        BinOp::Xor => 2,
        BinOp::And => 3,
        BinOp::Eq | BinOp::Ne => 4,
        BinOp::Lt | BinOp::Le | BinOp::Gt | BinOp::Ge => 5,
        BinOp::Shl | BinOp::Shr => 6,
        BinOp::Add | BinOp::Sub => 7,
        BinOp::Mul | BinOp::Div | BinOp::Rem => 8,
    }
}

fn prefix_text(op: UnOp) -> &'static str
    ensures { result.now ≡ prefix_text op }
{
    match op {
        UnOp::Minus => "-",
        UnOp::Not => "!",
        UnOp::Invert => "~",
    }
}

fn operator_text(op: BinOp) -> &'static str
    ensures { result.now ≡ operator_text op }
{
    match op {
        BinOp::Add => "+",
        BinOp::Sub => "-",
        BinOp::Mul => "*",
        BinOp::Div => "/",
        BinOp::Rem => "%",
        BinOp::And => "&",
        BinOp::Or => "|",
        BinOp::Xor => "^",
        BinOp::Shl => "<<",
        BinOp::Shr => ">>",
        BinOp::Eq => "==",
        BinOp::Ne => "!=",
        BinOp::Lt => "<",
        BinOp::Le => "<=",
        BinOp::Gt => ">",
        BinOp::Ge => ">=",
    }
}

/// How tightly an expression binds.
#[tactic(auto, unfolding(crate::specs::Printed::phrase))]
fn strength(node: &ExprNode) -> u32
    ensures { result ≡ (phrase node.now).strength_of }
{
    match node {
        ExprNode::Num(_, _) | ExprNode::Ident(_) => ATOMS,
        ExprNode::Binary(op, _, _) => precedence(*op),
        ExprNode::Unary(_, _)
        | ExprNode::Cast(_, _)
        | ExprNode::SizeOf(_)
        | ExprNode::AlignOf(_)
        | ExprNode::Deref(_)
        | ExprNode::AddressOf(_) => PREFIXES,
        ExprNode::Field(_, _) | ExprNode::Arrow(_, _) | ExprNode::Index(_, _) => SUFFIXES,
    }
}

/// A word, and a type in brackets.
fn put_type_size(alloc: Global, line: &mut Text, word: &[u8], typ: &CType) -> Result<(), AllocError>
    ensures { OnOk result (line.new ≡ line.old ++ ended (word.now ∷ codes "(" ∷ type_words typ.now ++ codes ")" ∷ [])) }
{
    put(line, word)?;
    put(line, b"(")?;
    put_type(alloc, line, typ)?;
    put(line, b")")
}

/// A prefix, and its operand.
#[cycle(expression)]
fn put_prefix(alloc: Global, line: &mut Text, e: &Expr, prefix: &[u8]) -> Result<(), AllocError>
    ensures { OnOk result (line.new ≡ line.old ++ ended (prefix.now ∷ operand e.now of_prefixes)) }
{
    put(line, prefix)?;
    put_operand(alloc, line, e, PREFIXES)
}

/// A field behind its struct.
#[cycle(expression)]
fn put_member(
    alloc: Global,
    line: &mut Text,
    e: &Expr,
    sign: &[u8],
    name: &[u8],
) -> Result<(), AllocError>
    ensures { OnOk result (line.new ≡ line.old ++ ended (operand e.now of_suffixes ++ sign.now ∷ name.now ∷ [])) }
{
    put_operand(alloc, line, e, SUFFIXES)?;
    put(line, sign)?;
    put(line, name)
}

/// An expression without brackets round it.
#[cycle(expression)]
#[tactic(auto, unfolding(crate::specs::Printed::phrase, crate::specs::Printed::operand))]
fn put_node(alloc: Global, line: &mut Text, node: &ExprNode) -> Result<(), AllocError>
    ensures { OnOk result (line.new ≡ line.old ++ ended (phrase node.now).words) }
{
    match node {
        ExprNode::Num(number, unsigned) => put_literal(alloc, line, *number, *unsigned),
        ExprNode::Ident(name) => put(line, name.as_bytes()),
        ExprNode::Unary(op, e) => put_prefix(alloc, line, e.get(), prefix_text(*op).as_bytes()),
        ExprNode::Binary(op, left, right) => {
            let binds = precedence(*op);
            put_operand(alloc, line, left.get(), binds)?;
            put(line, operator_text(*op).as_bytes())?;
            put_operand(alloc, line, right.get(), binds + 1)
        }
        ExprNode::Cast(typ, e) => {
            put(line, b"(")?;
            put_type(alloc, line, typ)?;
            put_prefix(alloc, line, e.get(), b")")
        }
        ExprNode::SizeOf(typ) => put_type_size(alloc, line, b"sizeof", typ),
        ExprNode::AlignOf(typ) => put_type_size(alloc, line, b"alignof", typ),
        ExprNode::Field(e, name) => put_member(alloc, line, e.get(), b".", name.as_bytes()),
        ExprNode::Arrow(e, name) => put_member(alloc, line, e.get(), b"->", name.as_bytes()),
        ExprNode::Index(e, index) => {
            put_operand(alloc, line, e.get(), SUFFIXES)?;
            put(line, b"[")?;
            put_operand(alloc, line, index.get(), 0)?;
            put(line, b"]")
        }
        ExprNode::Deref(e) => put_prefix(alloc, line, e.get(), b"*"),
        ExprNode::AddressOf(e) => put_prefix(alloc, line, e.get(), b"&"),
    }
}

/// An expression, in brackets where it binds less tightly than the number.
#[cycle(expression)]
#[tactic(auto, unfolding(crate::specs::Printed::phrase, crate::specs::Printed::operand))]
pub fn put_operand(alloc: Global, line: &mut Text, e: &Expr, least: u32) -> Result<(), AllocError>
    ensures { OnOk result (line.new ≡ line.old ++ ended (operand e.now least)) }
{
    if strength(&e.node) < least {
        put(line, b"(")?;
        put_node(alloc, line, &e.node)?;
        return put(line, b")");
    }
    put_node(alloc, line, &e.node)
}
