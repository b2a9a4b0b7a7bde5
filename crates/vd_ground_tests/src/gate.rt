//! Threads that append to one tape by turns.
ghost use Rattle.std.specs.Prelude.{◌≡◌, ◌<◌, ◌^◌, IfOk};
ghost use Rattle.vd_gate.specs.Passes.{number_of, made_of, IsFree};
ghost use Rattle.vd_gate.specs.Gates.{IsPassOf};

use std::alloc::{AllocError, Global};
use std::sync::Wait;
use std::test::Fail;
use std::thread;
use std::thread::Threads;
use vd_gate::{Gate, GatePass, Story};

#[derive(Drop)]
struct Tape {
    items: Vec<u32>,
}

impl Story for Tape {
    ghost use Rattle.std.specs.Prelude.{◌≡◌};
    ghost use Rattle.std.proofs.Common.{sym, ◌∙◌};
    ghost use Rattle.vd_gate.specs.Stories.{all_entries, same_last_turn};

    type Entry = u32;

    ghost stands = { λ base tape turns. tape.items.items ≡ all_entries turns };

    ghost one_more = { λ base tape turns a b number p q. same_last_turn turns a b number (sym p ∙ q) };
}

fn gate_of_tape(alloc: Global) -> Result<(Gate<Tape>, GatePass<Tape>), AllocError>
    ensures { IfOk result (λ g. IsPassOf g.0 g.1 × IsFree g.1 × (number_of g.1 ≡ 0) × (made_of g.1 ≡ 1)) }
{
    Gate::new(
        alloc,
        0,
        Tape {
            items: Vec::new(alloc),
        },
    )
}

fn append<R: Wait>(
    rt: &R,
    gate: &Gate<Tape>,
    pass: &mut GatePass<Tape>,
    item: u32,
) -> Result<(), AllocError>
    requires { IsPassOf gate.now pass.old × IsFree pass.old }
    ensures pass { IsPassOf gate.now pass.new × IsFree pass.new }
    ensures same { (number_of pass.new ≡ number_of pass.old) × (made_of pass.new ≡ made_of pass.old) }
{
    let (turn, mut tape) = gate.enter(rt, pass);
    match tape.items.push(item) {
        Ok(()) => {
            gate.leave(pass, turn, tape);
            Ok(())
        }
        Err(_) => {
            gate.leave(pass, turn, tape);
            Err(AllocError)
        }
    }
}

// Appends a run of numbers, and says whether all of them found memory.
fn append_run<R: Wait>(
    rt: &R,
    gate: &Gate<Tape>,
    mut pass: GatePass<Tape>,
    first: u32,
) -> (GatePass<Tape>, bool)
    requires pass { IsPassOf gate.now pass × IsFree pass }
    requires room { first < 2 ^ 31 }
    ensures pass { IsPassOf gate.now result.0 × IsFree result.0 }
    ensures same { (number_of result.0 ≡ number_of pass) × (made_of result.0 ≡ made_of pass) }
{
    for item in first..first + 1000 {
        if append(rt, gate, &mut pass, item).is_err() {
            return (pass, false);
        }
    }
    (pass, true)
}

fn append_both<R: Threads + Wait + Sync>(rt: &R, alloc: Global) -> Result<Vec<u32>, AllocError> {
    let (gate, mut one) = gate_of_tape(alloc)?;
    let Ok(two) = gate.split(&mut one) else {
        unreachable!()
    };
    let shared = &gate;
    let ((mut one, first), (two, second)) = thread::join(
        rt,
        move ||
            requires { IsPassOf shared.now one × IsFree one × (number_of one ≡ 0) × (made_of one ≡ 2) }
            ensures { IsPassOf shared.entry.now result.0 × IsFree result.0 × (number_of result.0 ≡ 0) × (made_of result.0 ≡ 2) }
        { append_run(rt, shared, one, 0) },
        move ||
            requires { IsPassOf shared.now two × IsFree two × (number_of two ≡ 1) }
            ensures { IsPassOf shared.entry.now result.0 × IsFree result.0 × (number_of result.0 ≡ 1) }
        { append_run(rt, shared, two, 10_000) },
    );
    if !first || !second {
        return Err(AllocError);
    }
    gate.join(&mut one, two);
    let mut passes = Vec::new(alloc);
    passes.push(one)?;
    let Tape { items } = gate.close(passes);
    Ok(items)
}

#[test]
fn each_thread_finds_its_entries_in_order(rt: HostRuntime) -> Result<(), Fail> {
    let items = append_both(&rt, rt.alloc())?;
    assert_eq!(rt; items.len(), 2_000);
    let mut low = 0;
    let mut high = 10_000;
    for item in &items {
        if *item < 10_000 {
            assert_eq!(rt; *item, low);
            low = item.wrapping_add(1);
        } else {
            assert_eq!(rt; *item, high);
            high = item.wrapping_add(1);
        }
    }
    Ok(())
}

#[test]
fn a_gate_makes_64_passes(rt: HostRuntime) -> Result<(), Fail> {
    let (gate, mut pass) = gate_of_tape(rt.alloc())?;
    let mut passes = Vec::new(rt.alloc());
    assert_eq!(rt; pass.number(), 0);
    for number in 1..64u32 {
        let other = gate
            .split(&mut pass)
            .expect(&rt, "63 passes after the first");
        assert_eq!(rt; other.number(), number);
        passes.push(other)?;
    }
    assert!(rt; gate.split(&mut pass).is_err(), "no more than 64 passes");
    Ok(())
}

#[test]
fn a_lone_pass_closes(rt: HostRuntime) -> Result<(), Fail> {
    let (gate, mut pass) = gate_of_tape(rt.alloc())?;
    append(&rt, &gate, &mut pass, 7)?;
    append(&rt, &gate, &mut pass, 5)?;
    let mut passes = Vec::new(rt.alloc());
    passes.push(pass)?;
    let Tape { items } = gate.close(passes);
    assert_eq!(rt; items.as_slice(), [7, 5].as_slice());
    Ok(())
}
