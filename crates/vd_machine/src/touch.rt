//! What next statements touch, and where two of them race.
ghost use Rattle.std.specs.Prelude.{◌≡◌, ◌<◌, ◌^◌, length, Some};
ghost use Rattle.vd_clight.specs.declared.typed.TStmt.{out-TStmt};
ghost use Rattle.vd_machine.specs.Frames.{IsSettled};
ghost use Rattle.vd_machine.specs.Kept.{slot_of, thread_of};
ghost use Rattle.vd_machine.specs.Room.{IsReadySlot};
ghost use Rattle.vd_machine.specs.Watching.{spot_reaches, block_reaches, reaches, live_spot, live_block, live};
ghost use Rattle.vd_machine.specs.Touches.{spot_of, block_of, nothing, at_spot, test_touch, statement_touch, thread_touch, is_at, is_in, covers, meet, block_meet, is_before, lesser, common, clash};

use crate::answer::{Cause, Spot};
use crate::evaluate::{address, eval};
use crate::frame::Thread;
use vd_clight::{Cond, GlobalDef, LockOp, TStmt};
use vd_mem::{Memory, Value};

/// What a statement touches: up to two cells, or a block, where they are live; and whether it writes.
#[derive(Clone, Copy)]
pub(crate) struct Touched {
    pub(crate) first: Option<Spot>,
    pub(crate) second: Option<Spot>,
    pub(crate) block: Option<u32>,
    pub(crate) writes: bool,
}

fn spot(value: Result<Value, Cause>) -> Option<Spot>
    ensures { result ≡ spot_of value }
{
    match value {
        Ok(Value::Ptr(block, offset)) => Some(Spot { block, offset }),
        Ok(Value::Undef) => None,
        Ok(Value::Int(_)) => None,
        Err(_) => None,
    }
}

pub(crate) fn nothing() -> Touched
    ensures { result ≡ nothing }
{
    Touched {
        first: None,
        second: None,
        block: None,
        writes: false,
    }
}

fn at_spot(writes: bool, spot: Option<Spot>) -> Touched
    ensures { result ≡ at_spot writes spot }
{
    Touched {
        first: spot,
        second: None,
        block: None,
        writes,
    }
}

pub(crate) fn block(spot: Option<Spot>) -> Option<u32>
    ensures { result ≡ block_of spot }
{
    match spot {
        Some(spot) => Some(spot.block),
        None => None,
    }
}

fn test_touch(globals: &[GlobalDef], temps: &[Value], condition: &Cond) -> Touched
    requires { length globals.now < 2 ^ 30 }
    ensures { result ≡ test_touch globals.now temps.now condition.now }
{
    match condition {
        Cond::Int(_, _) => nothing(),
        Cond::Same(left, right, _) => {
            let first = spot(eval(globals, temps, left));
            let second = spot(eval(globals, temps, right));
            Touched {
                first,
                second,
                block: None,
                writes: false,
            }
        }
    }
}

/// What a statement touches.
fn statement_touch(globals: &[GlobalDef], temps: &[Value], s: &TStmt) -> Touched
    requires { length globals.now < 2 ^ 30 }
    ensures { result ≡ statement_touch globals.now temps.now (out-TStmt s.now) }
{
    match s {
        TStmt::Load(_, place) => at_spot(false, spot(address(globals, temps, place))),
        TStmt::Store(place, _) => at_spot(true, spot(address(globals, temps, place))),
        TStmt::Free(e) => {
            let block = block(spot(eval(globals, temps, e)));
            Touched {
                first: None,
                second: None,
                block,
                writes: true,
            }
        }
        TStmt::Lock(LockOp::Make, e) => at_spot(true, spot(eval(globals, temps, e))),
        TStmt::Lock(LockOp::Acquire, e) => at_spot(false, spot(eval(globals, temps, e))),
        TStmt::Lock(LockOp::Release, e) => at_spot(false, spot(eval(globals, temps, e))),
        TStmt::Lock(LockOp::Free, e) => at_spot(true, spot(eval(globals, temps, e))),
        TStmt::If(condition, _, _) => test_touch(globals, temps, condition),
        TStmt::Skip => nothing(),
        TStmt::Set(_, _) => nothing(),
        TStmt::Call(_, _, _) => nothing(),
        TStmt::Malloc(_, _) => nothing(),
        TStmt::Spawn(_, _) => nothing(),
        TStmt::Loop(_) => nothing(),
        TStmt::Break => nothing(),
        TStmt::Continue => nothing(),
        TStmt::Return(_) => nothing(),
    }
}

fn thread_touch(globals: &[GlobalDef], thread: &Thread) -> Touched
    requires globals { length globals.now < 2 ^ 30 }
    requires settled { IsSettled thread.now.top }
    ensures { result ≡ thread_touch globals.now (Some (thread_of thread.now)) }
{
    let list = thread.top.level.list;
    let at = thread.top.level.at;
    if at < list.len() {
        return statement_touch(globals, thread.top.temps.as_slice(), &list[at]);
    }
    nothing()
}

/// What the next statement of a thread touches.
pub(crate) fn slot_touch(globals: &[GlobalDef], slot: &Option<Thread>) -> Touched
    requires globals { length globals.now < 2 ^ 30 }
    requires ready { IsReadySlot slot.now }
    ensures { result ≡ thread_touch globals.now (Some (slot_of slot.now)) }
{
    match slot {
        Some(thread) => thread_touch(globals, thread),
        None => nothing(),
    }
}

fn is_at(spot: Option<Spot>, block: u32, offset: u32) -> bool
    ensures { result ≡ is_at spot block offset }
{
    match spot {
        Some(spot) => spot.block == block && spot.offset == offset,
        None => false,
    }
}

fn is_in(block: Option<u32>, number: u32) -> bool
    ensures { result ≡ is_in block number }
{
    match block {
        Some(block) => block == number,
        None => false,
    }
}

fn covers(touched: Touched, block: u32, offset: u32) -> bool
    ensures { result ≡ covers touched block offset }
{
    is_at(touched.first, block, offset)
        || (is_at(touched.second, block, offset) || is_in(touched.block, block))
}

fn meet(memory: &Memory, spot: Option<Spot>, touched: Touched) -> Option<Spot>
    ensures { result ≡ meet memory.now spot touched }
{
    match spot {
        Some(spot) => {
            if covers(touched, spot.block, spot.offset)
                && memory.cell(spot.block, spot.offset).is_some()
            {
                Some(spot)
            } else {
                None
            }
        }
        None => None,
    }
}

fn block_meet(memory: &Memory, block: Option<u32>, touched: Touched) -> Option<Spot>
    ensures { result ≡ block_meet memory.now block touched }
{
    match block {
        Some(block) => {
            if is_in(touched.block, block) && memory.cell(block, 0).is_some() {
                Some(Spot { block, offset: 0 })
            } else {
                None
            }
        }
        None => None,
    }
}

fn is_before(a: Spot, b: Spot) -> bool
    ensures { result ≡ is_before a b }
{
    a.block < b.block || (a.block == b.block && a.offset <= b.offset)
}

fn lesser(a: Option<Spot>, b: Option<Spot>) -> Option<Spot>
    ensures { result ≡ lesser a b }
{
    match (a, b) {
        (None, b) => b,
        (Some(a), None) => Some(a),
        (Some(a), Some(b)) => { if is_before(a, b) { Some(a) } else { Some(b) } }
    }
}

fn common(memory: &Memory, a: Touched, b: Touched) -> Option<Spot>
    ensures { result ≡ common memory.now a b }
{
    let here = lesser(meet(memory, a.first, b), meet(memory, a.second, b));
    let there = lesser(meet(memory, b.first, a), meet(memory, b.second, a));
    lesser(here, lesser(there, block_meet(memory, a.block, b)))
}

/// The least cell at which two statements race.
pub(crate) fn clash(memory: &Memory, a: Touched, b: Touched) -> Option<Spot>
    ensures { result ≡ clash memory.now a b }
{
    if a.writes || b.writes {
        common(memory, a, b)
    } else {
        None
    }
}

fn spot_reaches(spot: Option<Spot>, number: u32) -> bool
    ensures { result ≡ spot_reaches spot number }
{
    match spot {
        Some(spot) => number <= spot.block,
        None => false,
    }
}

fn block_reaches(block: Option<u32>, number: u32) -> bool
    ensures { result ≡ block_reaches block number }
{
    match block {
        Some(block) => number <= block,
        None => false,
    }
}

/// Whether a block from a number on is touched.
pub(crate) fn reaches(touched: Touched, number: u32) -> bool
    ensures { result ≡ reaches touched number }
{
    spot_reaches(touched.first, number)
        || (spot_reaches(touched.second, number) || block_reaches(touched.block, number))
}

fn live_spot(memory: &Memory, spot: Option<Spot>) -> Option<Spot>
    ensures { result ≡ live_spot memory.now spot }
{
    match spot {
        Some(spot) => {
            if memory.cell(spot.block, spot.offset).is_some() {
                Some(spot)
            } else {
                None
            }
        }
        None => None,
    }
}

fn live_block(memory: &Memory, block: Option<u32>) -> Option<u32>
    ensures { result ≡ live_block memory.now block }
{
    match block {
        Some(block) => {
            if memory.cell(block, 0).is_some() {
                Some(block)
            } else {
                None
            }
        }
        None => None,
    }
}

/// The part of a touch that is at live cells.
pub(crate) fn live(memory: &Memory, touched: Touched) -> Touched
    ensures { result ≡ live memory.now touched }
{
    Touched {
        first: live_spot(memory, touched.first),
        second: live_spot(memory, touched.second),
        block: live_block(memory, touched.block),
        writes: touched.writes,
    }
}
