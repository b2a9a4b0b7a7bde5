//! Frames: lists of statements by position, and temporaries.
ghost use Rattle.std.specs.Prelude.{◌≡◌, ◌<◌, ◌≤◌, ◌+◌, suc, length, if◌then◌else◌, Some, None, IfOk};
ghost use Rattle.std.specs.Vec.{vec_len, vec_capacity};
ghost use Rattle.vd_machine.specs.Room.{IsRoomy, depth_of, function_depth};
ghost use Rattle.vd_machine.specs.Kept.{frame_code, frame_of, inside, broken, continued};
ghost use Rattle.vd_machine.specs.Frames.{IsSettled};
ghost use Rattle.vd_machine.specs.Thread.{entry};

use std::alloc::{AllocError, Global};
use vd_clight::{TStmt, TypedFn};
use vd_mem::Value;

/// A list of statements that is run, and the place of its next one.
#[derive(Clone, Copy)]
pub(crate) struct Level<'p> {
    pub(crate) list: &'p [TStmt],
    pub(crate) at: usize,
    pub(crate) is_loop: bool,
}

/// A function that runs. The lists below stand from the outermost on, each past the statement that the next one is in.
pub(crate) struct Frame<'p> {
    pub(crate) level: Level<'p>,
    pub(crate) below: Vec<Level<'p>>,
    pub(crate) temps: Vec<Value>,
}

// Written by hand, so that an exit lets go of a frame by one call in place of one for each part.
impl<'p> Drop for Frame<'p> {
    fn drop(self) {
        let Frame {
            level: _,
            below: _,
            temps: _,
        } = self;
    }
}

/// A frame that waits for a call, and the temporary that takes the result.
#[derive(Drop)]
pub(crate) struct Waiting<'p> {
    pub(crate) frame: Frame<'p>,
    pub(crate) target: Option<u32>,
}

/// A thread that runs. The frames that wait stand from the outermost on.
pub(crate) struct Thread<'p> {
    pub(crate) top: Frame<'p>,
    pub(crate) waiting: Vec<Waiting<'p>>,
}

// By hand too, as for a frame.
impl<'p> Drop for Thread<'p> {
    fn drop(self) {
        let Thread { top: _, waiting: _ } = self;
    }
}

/// Past the next statement.
pub(crate) fn pass(level: &mut Level)
    requires { level.old.at < length level.old.list.now }
    ensures { level.new ≡ record level.old { at = level.old.at + 1 } }
{
    if level.at < level.list.len() {
        level.at += 1;
    }
}

/// Drops the lists that are at their end and are no loop's body.
pub(crate) fn settle(frame: &mut Frame)
    ensures code { frame_code frame.new ≡ frame_code frame.old }
    ensures temps { frame.new.temps ≡ frame.old.temps }
    ensures settled { IsSettled frame.new }
    ensures roomy { IsRoomy frame.old → IsRoomy frame.new }
{
    while !frame.level.is_loop && frame.level.at >= frame.level.list.len() {
        match frame.below.pop() {
            Some(level) => frame.level = level,
            None => break,
        }
    }
}

/// Past the statement, into a list of statements.
pub(crate) fn enter<'p>(frame: &mut Frame<'p>, list: &'p [TStmt], is_loop: bool)
    requires at { frame.old.level.at < length frame.old.level.list.now }
    requires room { vec_len frame.old.below + suc (depth_of list.now) ≤ vec_capacity frame.old.below }
    ensures code { frame_code frame.new ≡ inside is_loop list.now 0 (frame_code (record frame.old { level = record frame.old.level { at = frame.old.level.at + 1 } })) }
    ensures temps { frame.new.temps ≡ frame.old.temps }
    ensures roomy { IsRoomy frame.old → IsRoomy frame.new }
{
    let outer = Level {
        list: frame.level.list,
        at: frame.level.at + 1,
        is_loop: frame.level.is_loop,
    };
    frame.below.push_reserved(outer);
    frame.level = Level {
        list,
        at: 0,
        is_loop,
    };
}

/// Out of the innermost loop, where there is one.
pub(crate) fn leave(frame: &mut Frame) -> bool
    ensures code { (if result then Some (frame_code frame.new) else None) ≡ broken (frame_code frame.old).loops }
    ensures temps { frame.new.temps ≡ frame.old.temps }
    ensures roomy { IsRoomy frame.old → IsRoomy frame.new }
{
    while !frame.level.is_loop {
        match frame.below.pop() {
            Some(level) => frame.level = level,
            None => return false,
        }
    }
    match frame.below.pop() {
        Some(level) => frame.level = level,
        None => {
            frame.level = Level {
                list: &[],
                at: 0,
                is_loop: false,
            }
        }
    }
    true
}

/// To the end of the innermost loop's body, where there is one.
pub(crate) fn skip(frame: &mut Frame) -> bool
    ensures code { (if result then Some (frame_code frame.new) else None) ≡ continued (frame_code frame.old).loops }
    ensures temps { frame.new.temps ≡ frame.old.temps }
    ensures roomy { IsRoomy frame.old → IsRoomy frame.new }
{
    while !frame.level.is_loop {
        match frame.below.pop() {
            Some(level) => frame.level = level,
            None => return false,
        }
    }
    frame.level.at = frame.level.list.len();
    true
}

/// The frame of a function at its first statement.
pub(crate) fn entry<'p>(
    alloc: Global,
    function: &'p TypedFn,
    room: u32,
    arguments: Vec<Value>,
) -> Result<Frame<'p>, AllocError>
    requires { room ≡ function_depth function.now }
    ensures frame { IfOk result (λ frame. frame_of frame ≡ entry function.now arguments.items) }
    ensures settled { IfOk result IsSettled }
    ensures roomy { IfOk result IsRoomy }
{
    let mut temps = arguments;
    let count = function.temps.len();
    if temps.len() < count {
        temps.resize(count, Value::Undef)?;
    }
    let mut below = Vec::new(alloc);
    below.reserve(room as usize)?;
    let level = Level {
        list: function.body.as_slice(),
        at: 0,
        is_loop: false,
    };
    Ok(Frame {
        level,
        below,
        temps,
    })
}
