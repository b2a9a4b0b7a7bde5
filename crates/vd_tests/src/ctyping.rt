//! Functions of one statement that are typed, or have their first fault.

use std::alloc::{AllocError, Global};
use vd_base::{Boxed, CType, Field, List, Structs, Text, are_fields};
use vd_clight::{BinOp, CScope, Kind, Lval, Part, Root, TExpr, TStmt, TypedFn};
use vd_cparse::parse_section;
use vd_ctyping::{TypeFault, type_fn};
use vd_ground_tests::{name, one};

/// What is wanted of a function; places count from its statement.
#[derive(Clone, Copy, Debug, PartialEq, Eq)]
enum Wanted {
    Typed,
    Unknown(u32),
    Mismatch(u32),
    NotNormal(u32),
}

const FRONT: &[u8] = b"fn f\nint f(struct n*p){int x;unsigned u;struct n*w;struct n*t;void*v;";

const STATEMENTS: &[(&[u8], Wanted)] = &[
    // a read inside a read
    (b"x=p->a->b;", Wanted::NotNormal(2)),
    // a test of pointers as a value
    (b"x=p==p;", Wanted::NotNormal(2)),
    (b"x=y;", Wanted::Unknown(2)),
    (b"x=p->c;", Wanted::Unknown(2)),
    // bits of signed numbers
    (b"x=x&x;", Wanted::Mismatch(2)),
    (b"x=u&x;", Wanted::Typed),
    // a number where a pointer is wanted
    (b"p=x;", Wanted::Mismatch(2)),
    // a read, and a pointer, before an unknown name
    (b"x=p->a->b+y;", Wanted::NotNormal(2)),
    (b"x=p+y;", Wanted::Mismatch(2)),
    // a read behind a pointer to nothing
    (b"x=*v;", Wanted::Mismatch(3)),
    // an address without a root
    (b"p=*(int*)0;", Wanted::Mismatch(3)),
    (b"while(p!=0){t=p->a;p->a=w;w=p;p=t;}", Wanted::Typed),
];

fn field(alloc: Global, bytes: &[u8], typ: CType) -> Result<Field, AllocError> {
    Ok(Field {
        name: name(alloc, bytes)?,
        typ,
    })
}

/// A scope with `struct n { struct n * a ; int b ; } ;` alone.
fn scope(alloc: Global) -> Result<CScope, AllocError> {
    let node = Boxed::new(alloc, CType::Struct(name(alloc, b"n")?))?;
    let mut fields = one(alloc, field(alloc, b"a", CType::Pointer(node))?)?;
    fields.push(field(alloc, b"b", CType::Int)?)?;
    let mut structs = Structs::new(alloc);
    if are_fields(fields.as_slice()) {
        structs
            .add(name(alloc, b"n")?, fields)
            .map_err(|_| AllocError)?;
    }
    Ok(CScope {
        structs,
        globals: List::new(alloc),
        fns: List::new(alloc),
    })
}

/// What typing answers of the function with a statement; nothing where it is not read.
fn typed(
    alloc: Global,
    scope: &CScope,
    statement: &[u8],
) -> Result<Option<Result<TypedFn, TypeFault>>, AllocError> {
    let mut text = Text::new(alloc, FRONT)?;
    text.append(statement)?;
    text.append(b"}\nend\n")?;
    match parse_section(alloc, &text) {
        Ok(f) => Ok(Some(type_fn(alloc, scope, &f))),
        Err(_) => Ok(None),
    }
}

fn answer_of(typed: &Result<TypedFn, TypeFault>) -> Option<Wanted> {
    let front = FRONT.len() as u32;
    match typed {
        Ok(_) => Some(Wanted::Typed),
        Err(TypeFault::Unknown(place, _)) => Some(Wanted::Unknown(place.wrapping_sub(front))),
        Err(TypeFault::Mismatch(place, _, _)) => {
            Some(Wanted::Mismatch(place.wrapping_sub(front)))
        }
        Err(TypeFault::NotNormal(place)) => Some(Wanted::NotNormal(place.wrapping_sub(front))),
        Err(TypeFault::Memory) => None,
    }
}

#[test]
fn statements_are_typed_or_have_their_first_fault(rt: HostRuntime) -> Result<(), AllocError> {
    let scope = scope(rt.alloc())?;
    for (number, (statement, want)) in STATEMENTS.iter().enumerate() {
        match &typed(rt.alloc(), &scope, statement)? {
            Some(typed) => assert_eq!(rt; answer_of(typed), Some(*want), "statement {number}"),
            None => assert!(rt; false, "statement {number}"),
        }
    }
    Ok(())
}

/// `p->b=x+u;` stores, behind one cell, an unsigned sum of the temporaries 1 and 2.
fn is_sum_stored(s: &TStmt) -> bool {
    match s {
        TStmt::Store(Lval { root, path }, TExpr::Binary(BinOp::Add, Kind::Unsigned, a, b)) => {
            match (root, path.get(0), a.get(), b.get()) {
                (Root::Temp(0), Some(Part::Offset(1)), TExpr::Temp(1), TExpr::Temp(2)) => {
                    path.len() == 1
                }
                _ => false,
            }
        }
        _ => false,
    }
}

fn is_typed_so(f: &TypedFn) -> bool {
    match f.body.get(0) {
        Some(s) => is_sum_stored(s) && f.params == 1 && f.temps.len() == 6,
        None => false,
    }
}

#[test]
fn typed_syntax_has_numbers_offsets_and_kinds(rt: HostRuntime) -> Result<(), AllocError> {
    let scope = scope(rt.alloc())?;
    match &typed(rt.alloc(), &scope, b"p->b=x+u;")? {
        Some(Ok(f)) => assert!(rt; is_typed_so(f)),
        _ => assert!(rt; false),
    }
    Ok(())
}
