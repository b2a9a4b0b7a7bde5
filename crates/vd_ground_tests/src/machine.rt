//! Programs made by hand, and what their steps answer.

use crate::support::{name, one};
use std::alloc::{AllocError, Global};
use vd_base::{Boxed, CType, List};
use vd_clight::{
    BinOp, Cond, GlobalDef, Kind, LockOp, Lval, Part, Program, Root, TExpr, TStmt, TypedFn,
};
use vd_machine::{Cause, End, Machine, Outcome, Spot, Stepped, Turn, run};
use vd_mem::Value;

/// A value, and the place so many cells behind the one to which temporary 0 points.
#[derive(Clone, Copy)]
enum Leaf {
    Number(u32),
    Temporary(u32),
    Behind(u32),
}

/// The cell of the global, or the one so many cells behind the one to which temporary 0 points.
#[derive(Clone, Copy)]
enum Place {
    Global,
    Behind(u32),
}

#[derive(Clone, Copy)]
enum Line {
    Skip,
    Set(u32, Leaf),
    /// Temporary 0 is set to an operation on two numbers.
    Operation(BinOp, Kind, u32, u32),
    /// Temporary 0 is set to a new block of so many cells.
    Malloc(u32),
    Free(Leaf),
    Load(u32, Place),
    Store(Place, u32),
    /// At the place to which temporary 0 points.
    Lock(LockOp),
    /// The other function is started.
    Spawn(Leaf),
    /// Temporary 1 is set to what the other function returns.
    Call(Leaf),
    /// It ends once temporary 0 is set; its second turn goes round by `continue`.
    Loop,
    /// A test of two numbers as pointers.
    Same(u32, u32),
    Return(Leaf),
}

fn leaf_of(alloc: Global, leaf: Leaf) -> Result<TExpr, AllocError> {
    match leaf {
        Leaf::Number(n) => Ok(TExpr::Const(n)),
        Leaf::Temporary(number) => Ok(TExpr::Temp(number)),
        Leaf::Behind(offset) => Ok(TExpr::Addr(place_of(alloc, Place::Behind(offset))?)),
    }
}

fn place_of(alloc: Global, place: Place) -> Result<Lval, AllocError> {
    match place {
        Place::Global => Ok(Lval {
            root: Root::Global(name(alloc, b"g")?, 1),
            path: List::new(alloc),
        }),
        Place::Behind(offset) => Ok(Lval {
            root: Root::Temp(0),
            path: one(alloc, Part::Offset(offset))?,
        }),
    }
}

fn operation(alloc: Global, op: BinOp, kind: Kind, a: u32, b: u32) -> Result<TStmt, AllocError> {
    let a = Boxed::new(alloc, TExpr::Const(a))?;
    let b = Boxed::new(alloc, TExpr::Const(b))?;
    Ok(TStmt::Set(0, TExpr::Binary(op, kind, a, b)))
}

/// `while(1){if(x)break;x=1;continue;}`
fn repetition(alloc: Global) -> Result<TStmt, AllocError> {
    let end = one(alloc, TStmt::Break)?;
    let set = Cond::Int(Kind::Signed, TExpr::Temp(0));
    let mut body = one(alloc, TStmt::If(set, end, List::new(alloc)))?;
    body.push(TStmt::Set(0, TExpr::Const(1)))?;
    body.push(TStmt::Continue)?;
    Ok(TStmt::Loop(body))
}

fn statement(alloc: Global, line: Line) -> Result<TStmt, AllocError> {
    match line {
        Line::Skip => Ok(TStmt::Skip),
        Line::Set(to, leaf) => Ok(TStmt::Set(to, leaf_of(alloc, leaf)?)),
        Line::Operation(op, kind, a, b) => operation(alloc, op, kind, a, b),
        Line::Malloc(cells) => Ok(TStmt::Malloc(0, cells)),
        Line::Free(leaf) => Ok(TStmt::Free(leaf_of(alloc, leaf)?)),
        Line::Load(to, place) => Ok(TStmt::Load(to, place_of(alloc, place)?)),
        Line::Store(place, n) => Ok(TStmt::Store(place_of(alloc, place)?, TExpr::Const(n))),
        Line::Lock(op) => Ok(TStmt::Lock(op, TExpr::Temp(0))),
        Line::Spawn(leaf) => {
            let argument = leaf_of(alloc, leaf)?;
            Ok(TStmt::Spawn(name(alloc, b"w")?, argument))
        }
        Line::Call(leaf) => {
            let arguments = one(alloc, leaf_of(alloc, leaf)?)?;
            Ok(TStmt::Call(Some(1), name(alloc, b"w")?, arguments))
        }
        Line::Loop => repetition(alloc),
        Line::Same(a, b) => {
            let test = Cond::Same(TExpr::Const(a), TExpr::Const(b), true);
            Ok(TStmt::If(test, List::new(alloc), List::new(alloc)))
        }
        Line::Return(leaf) => Ok(TStmt::Return(Some(leaf_of(alloc, leaf)?))),
    }
}

fn body_of(alloc: Global, lines: &[Line]) -> Result<List<TStmt>, AllocError> {
    let mut body = List::new(alloc);
    for line in lines {
        body.push(statement(alloc, *line)?)?;
    }
    Ok(body)
}

/// A function with two temporaries.
fn function(
    alloc: Global,
    bytes: &[u8],
    params: u32,
    lines: &[Line],
) -> Result<TypedFn, AllocError> {
    let mut temps = one(alloc, name(alloc, b"x")?)?;
    temps.push(name(alloc, b"y")?)?;
    let name = name(alloc, bytes)?;
    Ok(TypedFn {
        name,
        ret: CType::Int,
        params,
        temps,
        body: body_of(alloc, lines)?,
    })
}

/// A program of main, which calls or starts another function of one parameter, and of one global cell.
fn program(alloc: Global, main: &[Line], other: &[Line]) -> Result<Program, AllocError> {
    let mut fns = one(alloc, function(alloc, b"main", 0, main)?)?;
    fns.push(function(alloc, b"w", 1, other)?)?;
    let global = GlobalDef {
        name: name(alloc, b"g")?,
        cells: 1,
        init: List::new(alloc),
    };
    Ok(Program {
        fns,
        globals: one(alloc, global)?,
        main: 0,
    })
}

// ---- one thread

/// Operations on two numbers, and what their step or the return behind it answers.
#[rattlefmt::skip]
const OPERATIONS: &[(BinOp, Kind, u32, u32, u32, Stepped)] = &[
    (BinOp::Add, Kind::Signed, 2147483647, 1, 1, Stepped::Stuck(0, Cause::Overflow)),
    (BinOp::Add, Kind::Unsigned, 4294967295, 1, 1, Stepped::Moved),
    (BinOp::Sub, Kind::Signed, LEAST, 1, 1, Stepped::Stuck(0, Cause::Overflow)),
    (BinOp::Mul, Kind::Signed, 65536, 32768, 1, Stepped::Stuck(0, Cause::Overflow)),
    (BinOp::Div, Kind::Signed, 1, 0, 1, Stepped::Stuck(0, Cause::Divide)),
    (BinOp::Div, Kind::Signed, LEAST, 4294967295, 1, Stepped::Stuck(0, Cause::Divide)),
    (BinOp::Rem, Kind::Signed, LEAST, 4294967295, 1, Stepped::Stuck(0, Cause::Divide)),
    (BinOp::Div, Kind::Unsigned, LEAST, 4294967295, 1, Stepped::Moved),
    (BinOp::Shl, Kind::Unsigned, 1, 32, 1, Stepped::Stuck(0, Cause::Shift)),
    (BinOp::Shr, Kind::Unsigned, 1, 31, 1, Stepped::Moved),
    (BinOp::Add, Kind::Unsigned, 4294967295, 1, 2, Stepped::Finished(Value::Int(0))),
    (BinOp::Sub, Kind::Signed, 0, 1, 2, Stepped::Finished(Value::Int(4294967295))),
    (BinOp::Div, Kind::Signed, 4294967289, 2, 2, Stepped::Finished(Value::Int(4294967293))),
    (BinOp::Rem, Kind::Signed, 4294967289, 2, 2, Stepped::Finished(Value::Int(4294967295))),
    (BinOp::Lt, Kind::Signed, 4294967295, 0, 2, Stepped::Finished(Value::Int(1))),
    (BinOp::Lt, Kind::Unsigned, 4294967295, 0, 2, Stepped::Finished(Value::Int(0))),
    (BinOp::Shl, Kind::Unsigned, 3, 31, 2, Stepped::Finished(Value::Int(2147483648))),
    (BinOp::Xor, Kind::Unsigned, 6, 3, 2, Stepped::Finished(Value::Int(5))),
];

const LEAST: u32 = 2147483648;

/// Bodies of main, and what the last of so many turns answers.
#[rattlefmt::skip]
const BODIES: &[(&[Line], u32, Stepped)] = &[
    // memory
    (&[Line::Malloc(1), Line::Free(Leaf::Temporary(0)), Line::Load(1, Place::Behind(0))], 3, Stepped::Stuck(0, Cause::Address)),
    (&[Line::Malloc(1), Line::Load(1, Place::Behind(1))], 2, Stepped::Stuck(0, Cause::Address)),
    (&[Line::Malloc(1), Line::Set(1, Leaf::Behind(1048577))], 2, Stepped::Stuck(0, Cause::Far)),
    (&[Line::Malloc(0), Line::Load(1, Place::Behind(0)), Line::Return(Leaf::Temporary(1))], 3, Stepped::Finished(Value::Undef)),
    (&[Line::Free(Leaf::Number(0)), Line::Free(Leaf::Number(4))], 2, Stepped::Stuck(0, Cause::Free)),
    (&[Line::Load(1, Place::Behind(0))], 1, Stepped::Stuck(0, Cause::Undef)),
    // locks
    (&[Line::Malloc(1), Line::Lock(LockOp::Acquire)], 2, Stepped::Stuck(0, Cause::LockCell)),
    (&[Line::Malloc(1), Line::Lock(LockOp::Make), Line::Lock(LockOp::Acquire)], 3, Stepped::Blocked),
    (&[Line::Malloc(1), Line::Lock(LockOp::Make), Line::Lock(LockOp::Release), Line::Lock(LockOp::Release)], 4, Stepped::Stuck(0, Cause::NotHeld)),
    (&[Line::Malloc(1), Line::Lock(LockOp::Make), Line::Free(Leaf::Temporary(0))], 3, Stepped::Stuck(0, Cause::Free)),
    (&[Line::Malloc(1), Line::Lock(LockOp::Make), Line::Lock(LockOp::Make)], 3, Stepped::Stuck(0, Cause::LockCell)),
    // control
    (&[Line::Set(0, Leaf::Number(0)), Line::Loop, Line::Return(Leaf::Number(7))], 9, Stepped::Finished(Value::Int(7))),
    (&[Line::Same(1, 0)], 1, Stepped::Stuck(0, Cause::Pointer)),
    (&[Line::Skip], 2, Stepped::Finished(Value::Undef)),
    (&[Line::Skip], 3, Stepped::Idle),
];

/// The answer to the last of so many turns of thread 0; a `malloc` gives a block.
fn play(alloc: Global, lines: &[Line], turns: u32) -> Result<Stepped, AllocError> {
    let program = program(alloc, lines, &[])?;
    let mut machine = Machine::start(alloc, &program)?;
    let mut last = Stepped::Idle;
    for _ in 0..turns {
        if machine.steps() < 1000 {
            last = machine.step(0, true)?;
        }
    }
    Ok(last)
}

#[test]
fn steps_have_their_answers(rt: HostRuntime) -> Result<(), AllocError> {
    for (number, (op, kind, a, b, turns, want)) in OPERATIONS.iter().enumerate() {
        let lines = [
            Line::Operation(*op, *kind, *a, *b),
            Line::Return(Leaf::Temporary(0)),
        ];
        let found = play(rt.alloc(), lines.as_slice(), *turns)?;
        assert_eq!(rt; found, *want, "operation {number}");
    }
    for (number, (lines, turns, want)) in BODIES.iter().enumerate() {
        let found = play(rt.alloc(), lines, *turns)?;
        assert_eq!(rt; found, *want, "body {number}");
    }
    Ok(())
}

/// A `malloc` that finds no block answers null.
#[test]
fn blocks_may_be_refused(rt: HostRuntime) -> Result<(), AllocError> {
    let lines = [Line::Malloc(1), Line::Return(Leaf::Temporary(0))];
    let program = program(rt.alloc(), lines.as_slice(), &[])?;
    let mut machine = Machine::start(rt.alloc(), &program)?;
    if machine.steps() < 1000 {
        assert_eq!(rt; machine.step(0, false)?, Stepped::Moved);
    }
    if machine.steps() < 1000 {
        assert_eq!(rt; machine.step(0, true)?, Stepped::Finished(Value::Int(0)));
    }
    assert_eq!(rt; machine.steps(), 3);
    Ok(())
}

// ---- two threads

/// The bodies of main and of the other function, the threads of the turns, and what the run was.
const RUNS: &[(&[Line], &[Line], &[u32], Outcome)] = &[
    // a call
    (
        &[
            Line::Call(Leaf::Number(5)),
            Line::Return(Leaf::Temporary(1)),
        ],
        &[Line::Return(Leaf::Temporary(0))],
        &[0, 0, 0, 0],
        Outcome {
            turns: 3,
            end: End::Main(Value::Int(5)),
            race: None,
        },
    ),
    // both threads write the global as soon as the second one is there
    (
        &[Line::Spawn(Leaf::Number(0)), Line::Store(Place::Global, 1)],
        &[Line::Store(Place::Global, 2)],
        &[0],
        Outcome {
            turns: 1,
            end: End::Open,
            race: Some((
                1,
                0,
                1,
                Spot {
                    block: 0,
                    offset: 0,
                },
            )),
        },
    ),
    // two loads don't race; an ended thread's turn changes nothing
    (
        &[Line::Spawn(Leaf::Number(0)), Line::Load(0, Place::Global)],
        &[Line::Load(1, Place::Global)],
        &[0, 1, 1, 1, 2, 0, 0, 0],
        Outcome {
            turns: 7,
            end: End::Main(Value::Undef),
            race: None,
        },
    ),
    // nothing races at a freed cell, where a load is stuck
    (
        FREES,
        READS,
        &[0, 0, 0, 1, 1, 0],
        Outcome {
            turns: 5,
            end: End::Stuck(1, Cause::Address),
            race: None,
        },
    ),
    // free writes each cell of its block
    (
        FREES,
        READS,
        &[0, 0, 1],
        Outcome {
            turns: 3,
            end: End::Open,
            race: Some((
                3,
                0,
                1,
                Spot {
                    block: 1,
                    offset: 1,
                },
            )),
        },
    ),
    // the second thread waits until the first one releases
    (
        &[
            Line::Malloc(1),
            Line::Lock(LockOp::Make),
            Line::Spawn(Leaf::Temporary(0)),
            Line::Lock(LockOp::Release),
            Line::Skip,
        ],
        &[
            Line::Lock(LockOp::Acquire),
            Line::Lock(LockOp::Free),
            Line::Load(1, Place::Behind(0)),
        ],
        &[0, 0, 0, 1, 0, 1, 1, 1, 0, 0],
        Outcome {
            turns: 10,
            end: End::Main(Value::Undef),
            race: None,
        },
    ),
];

const FREES: &[Line] = &[
    Line::Malloc(2),
    Line::Spawn(Leaf::Temporary(0)),
    Line::Free(Leaf::Temporary(0)),
    Line::Skip,
];

const READS: &[Line] = &[Line::Skip, Line::Load(1, Place::Behind(1))];

/// A run with turns of these threads; a `malloc` gives a block.
fn outcome(
    alloc: Global,
    main: &[Line],
    other: &[Line],
    threads: &[u32],
) -> Result<Outcome, AllocError> {
    let program = program(alloc, main, other)?;
    let mut schedule = List::new(alloc);
    for thread in threads {
        schedule.push(Turn {
            thread: *thread,
            pick: true,
        })?;
    }
    if schedule.as_slice().len() > 1000000 {
        return Err(AllocError);
    }
    run(alloc, &program, &schedule)
}

#[test]
fn runs_have_their_outcomes(rt: HostRuntime) -> Result<(), AllocError> {
    for (number, (main, other, threads, want)) in RUNS.iter().enumerate() {
        let found = outcome(rt.alloc(), main, other, threads)?;
        assert_eq!(rt; found, *want, "run {number}");
    }
    Ok(())
}
