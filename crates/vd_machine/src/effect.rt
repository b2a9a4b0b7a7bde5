//! Statements that only set a temporary or change memory.
ghost use Rattle.std.specs.Prelude.{◌≡◌, ◌<◌, ◌≤◌, ◌^◌, length, ◌≢◌, IfOk, IsOk, OnErr, slice_set};
ghost use Rattle.vd_mem.specs.Memory.{cell_limit};
ghost use Rattle.vd_machine.specs.Kept.{effect_by, KeepsUnlessGoes};
ghost use Rattle.vd_machine.specs.Step.{load, store, malloc, free, lock_at, on_place, room};
ghost use Rattle.vd_machine.specs.Thread.{assign};

use crate::answer::Cause;
use std::alloc::AllocError;
use vd_clight::LockOp;
use vd_mem::{Cell, Memory, Value};

/// What a statement did.
#[derive(Clone, Copy)]
pub(crate) enum Effect {
    Goes,
    Waits,
    Stuck(Cause),
}

pub(crate) fn assign(temps: &mut Vec<Value>, number: u32, value: Value)
    ensures { temps.new.items ≡ assign temps.old.items number value }
{
    let at = number as usize;
    if at < temps.len() {
        temps[at] = value;
    }
}

pub(crate) fn load(temps: &mut Vec<Value>, memory: &Memory, number: u32, place: Value) -> Effect
    ensures effect { effect_by result temps.new.items memory.now ≡ load number place temps.old.items memory.now }
    ensures kept { KeepsUnlessGoes result (temps.new.items ≡ temps.old.items) }
{
    match place {
        Value::Ptr(block, offset) => match memory.cell(block, offset) {
            Some(Cell::Data(value)) => {
                assign(temps, number, value);
                Effect::Goes
            }
            Some(Cell::Free) => Effect::Stuck(Cause::LockCell),
            Some(Cell::Held) => Effect::Stuck(Cause::LockCell),
            None => Effect::Stuck(Cause::Address),
        },
        Value::Undef => Effect::Stuck(Cause::Undef),
        Value::Int(_) => Effect::Stuck(Cause::Undef),
    }
}

pub(crate) fn store(
    temps: &[Value],
    memory: &mut Memory,
    place: Value,
    value: Value,
) -> Result<Effect, AllocError>
    ensures effect { IfOk result (λ e. effect_by e temps.now memory.new ≡ store place value temps.now memory.old) }
    ensures kept { IfOk result (λ e. KeepsUnlessGoes e (memory.new ≡ memory.old)) }
    ensures err { OnErr result (memory.new ≡ memory.old) }
{
    match place {
        Value::Ptr(block, offset) => match memory.cell(block, offset) {
            Some(Cell::Data(_)) => {
                memory.set(block, offset, Cell::Data(value))?;
                Ok(Effect::Goes)
            }
            Some(Cell::Free) => Ok(Effect::Stuck(Cause::LockCell)),
            Some(Cell::Held) => Ok(Effect::Stuck(Cause::LockCell)),
            None => Ok(Effect::Stuck(Cause::Address)),
        },
        Value::Undef => Ok(Effect::Stuck(Cause::Undef)),
        Value::Int(_) => Ok(Effect::Stuck(Cause::Undef)),
    }
}

/// Cells past the limit of a block are want of memory; a whole program asks for none.
pub(crate) fn malloc(
    temps: &mut Vec<Value>,
    memory: &mut Memory,
    pick: bool,
    number: u32,
    cells: u32,
) -> Result<Effect, AllocError>
    requires { length memory.old < 2 ^ 31 }
    ensures effect { IfOk result (λ e. effect_by e temps.new.items memory.new ≡ malloc pick number cells temps.old.items memory.old) }
    ensures goes { IfOk result (λ e. e ≡ Effect.Goes) }
    ensures temps { OnErr result (temps.new.items ≡ temps.old.items) }
    ensures memory { OnErr result (memory.new ≡ memory.old) }
{
    if !pick {
        assign(temps, number, Value::Int(0));
        return Ok(Effect::Goes);
    }
    if cells > 1048576 {
        return Err(AllocError);
    }
    let cells = if cells < 1 { 1 } else { cells };
    let block = memory.alloc(cells, Value::Undef, true)?;
    assign(temps, number, Value::Ptr(block, 0));
    Ok(Effect::Goes)
}

pub(crate) fn free(temps: &[Value], memory: &mut Memory, value: Value) -> Effect
    ensures effect { effect_by result temps.now memory.new ≡ free value temps.now memory.old }
    ensures kept { KeepsUnlessGoes result (memory.new ≡ memory.old) }
{
    match value {
        Value::Undef => Effect::Stuck(Cause::Free),
        Value::Int(0) => Effect::Goes,
        Value::Int(_) => Effect::Stuck(Cause::Free),
        Value::Ptr(block, 0) => {
            if memory.free(block) {
                Effect::Goes
            } else {
                Effect::Stuck(Cause::Free)
            }
        }
        Value::Ptr(_, _) => Effect::Stuck(Cause::Free),
    }
}

fn make(temps: &[Value], memory: &mut Memory, block: u32, offset: u32) -> Result<Effect, AllocError>
    ensures effect { IfOk result (λ e. effect_by e temps.now memory.new ≡ lock_at LockOp.Make block offset temps.now memory.old) }
    ensures kept { IfOk result (λ e. KeepsUnlessGoes e (memory.new ≡ memory.old)) }
    ensures err { OnErr result (memory.new ≡ memory.old) }
{
    match memory.cell(block, offset) {
        Some(Cell::Data(_)) => {
            memory.set(block, offset, Cell::Held)?;
            Ok(Effect::Goes)
        }
        Some(Cell::Free) => Ok(Effect::Stuck(Cause::LockCell)),
        Some(Cell::Held) => Ok(Effect::Stuck(Cause::LockCell)),
        None => Ok(Effect::Stuck(Cause::Address)),
    }
}

fn acquire(temps: &[Value], memory: &mut Memory, block: u32, offset: u32) -> Effect
    ensures effect { effect_by result temps.now memory.new ≡ lock_at LockOp.Acquire block offset temps.now memory.old }
    ensures kept { KeepsUnlessGoes result (memory.new ≡ memory.old) }
{
    match memory.cell(block, offset) {
        Some(Cell::Free) => {
            memory.relock(block, offset, Cell::Held);
            Effect::Goes
        }
        Some(Cell::Held) => Effect::Waits,
        Some(Cell::Data(_)) => Effect::Stuck(Cause::LockCell),
        None => Effect::Stuck(Cause::Address),
    }
}

fn release(temps: &[Value], memory: &mut Memory, block: u32, offset: u32) -> Effect
    ensures effect { effect_by result temps.now memory.new ≡ lock_at LockOp.Release block offset temps.now memory.old }
    ensures kept { KeepsUnlessGoes result (memory.new ≡ memory.old) }
{
    match memory.cell(block, offset) {
        Some(Cell::Held) => {
            memory.relock(block, offset, Cell::Free);
            Effect::Goes
        }
        Some(Cell::Free) => Effect::Stuck(Cause::NotHeld),
        Some(Cell::Data(_)) => Effect::Stuck(Cause::LockCell),
        None => Effect::Stuck(Cause::Address),
    }
}

fn unmake(temps: &[Value], memory: &mut Memory, block: u32, offset: u32) -> Effect
    ensures effect { effect_by result temps.now memory.new ≡ lock_at LockOp.Free block offset temps.now memory.old }
    ensures kept { KeepsUnlessGoes result (memory.new ≡ memory.old) }
{
    match memory.cell(block, offset) {
        Some(Cell::Held) => {
            memory.relock(block, offset, Cell::Data(Value::Undef));
            Effect::Goes
        }
        Some(Cell::Free) => Effect::Stuck(Cause::NotHeld),
        Some(Cell::Data(_)) => Effect::Stuck(Cause::LockCell),
        None => Effect::Stuck(Cause::Address),
    }
}

pub(crate) fn lock(
    temps: &[Value],
    memory: &mut Memory,
    op: LockOp,
    place: Value,
) -> Result<Effect, AllocError>
    ensures effect { IfOk result (λ e. effect_by e temps.now memory.new ≡ on_place place (λ b o. lock_at op b o temps.now memory.old)) }
    ensures kept { IfOk result (λ e. KeepsUnlessGoes e (memory.new ≡ memory.old)) }
    ensures err { OnErr result (memory.new ≡ memory.old) }
    ensures no_memory { op ≢ LockOp.Make → IsOk result }
{
    match place {
        Value::Ptr(block, offset) => match op {
            LockOp::Make => make(temps, memory, block, offset),
            LockOp::Acquire => Ok(acquire(temps, memory, block, offset)),
            LockOp::Release => Ok(release(temps, memory, block, offset)),
            LockOp::Free => Ok(unmake(temps, memory, block, offset)),
        },
        Value::Undef => Ok(Effect::Stuck(Cause::Undef)),
        Value::Int(_) => Ok(Effect::Stuck(Cause::Undef)),
    }
}
