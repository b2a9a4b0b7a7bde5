//! One statement of a thread.
ghost use Rattle.std.specs.Prelude.{◌≡◌, ◌<◌, ◌≤◌, ◌+◌, ◌^◌, ◌∷◌, [], suc, map, length, Some, IfOk, IfSome, IsOk, OnOk, OnErr, List, slice_get, Bool, true, false};
ghost use Rattle.std.specs.Vec.{vec_len, vec_capacity};
ghost use Rattle.std.specs.List.{find};
ghost use Rattle.std.specs.Option.{option_and_then};
ghost use Rattle.std.specs.Str.{bytes_eq};
ghost use Rattle.vd_clight.specs.declared.typed.TStmt.TheOpen as layer;
ghost use Rattle.vd_clight.specs.declared.typed.TStmt.{out-TStmt};
ghost use Rattle.vd_mem.specs.Memory.{Block};
ghost use Rattle.vd_machine.specs.Frames.{passed, acted, Does, Same, IsSettled};
ghost use Rattle.vd_machine.specs.Kept.{thread_of, callers_of, step_by, step_of, Keeps, frame_of, effect_by, KeepsUnlessGoes};
ghost use Rattle.vd_machine.specs.Allocation.{takes_memory, thread_takes_memory, is_spawn, thread_spawns};
ghost use Rattle.vd_machine.specs.Room.{IsRoomy, IsRoomyThread, IsReady, IsNewReady, depth, depth_of, function_depth};
ghost use Rattle.vd_machine.specs.Step.{give, after_effect};
ghost use Rattle.vd_machine.specs.Thread.{assign_to};

use crate::answer::Cause;
use crate::effect::{self, Effect, assign};
use crate::evaluate::{address, eval, eval_all, test};
use crate::frame::{Frame, Thread, Waiting, enter, entry, leave, pass, settle, skip};
use std::alloc::{AllocError, Global};
use std::mem;
use vd_base::{List, Name};
use vd_clight::{Cond, LockOp, Lval, Program, TExpr, TStmt, TypedFn};
use vd_mem::{Memory, Value};

/// What a step of a thread did.
#[derive(Drop)]
pub(crate) enum Did<'p> {
    Moved,
    Forked(Thread<'p>),
    Blocked,
    Over(Value),
    Wrong(Cause),
}

/// The number of the function of a name.
fn function(fns: &[TypedFn], name: &Name) -> Option<usize>
    ensures within { IfSome result (λ i. i < length fns.now) }
    ensures value { option_and_then (λ i. slice_get fns.now i) result ≡ find (λ f. bytes_eq f.name name.now) fns.now }
{
    for (number, f) in fns.iter().enumerate() {
        if f.name == *name {
            return Some(number);
        }
    }
    None
}

/// The result of a call.
fn assign_to(temps: &mut Vec<Value>, target: Option<u32>, value: Value)
    ensures { temps.new.items ≡ assign_to temps.old.items target value }
{
    match target {
        Some(number) => assign(temps, number, value),
        None => {}
    }
}

/// A value goes back to the caller.
fn give<'p>(thread: &mut Thread<'p>, value: Value) -> Did<'p>
    ensures keeps { Keeps result ⊥ (Unit {0}) }
    ensures is { (m : List Block) → step_by result thread.new m ≡ give value (callers_of thread.old.waiting.items) m }
    ensures roomy { IsRoomyThread thread.old → IsRoomyThread thread.new }
{
    match thread.waiting.pop() {
        None => Did::Over(value),
        Some(caller) => {
            thread.top = caller.frame;
            assign_to(&mut thread.top.temps, caller.target, value);
            Did::Moved
        }
    }
}

/// Past the statement where it went on.
fn after<'p>(thread: &mut Thread<'p>, effect: Effect) -> Did<'p>
    requires { thread.old.top.level.at < length thread.old.top.level.list.now }
    ensures is { (m : List Block) → step_by result thread.new m ≡ after_effect (effect_by effect thread.old.top.temps.items m) (frame_of (passed thread.old.top)) (callers_of thread.old.waiting.items) }
    ensures keeps { KeepsUnlessGoes effect (thread_of thread.new ≡ thread_of thread.old) }
    ensures roomy { IsRoomyThread thread.old → IsRoomyThread thread.new }
{
    match effect {
        Effect::Goes => {
            pass(&mut thread.top.level);
            Did::Moved
        }
        Effect::Waits => Did::Blocked,
        Effect::Stuck(cause) => Did::Wrong(cause),
    }
}

fn nothing<'p>(program: &Program, thread: &mut Thread<'p>, memory: &Memory) -> Did<'p>
    requires { thread.old.top.level.at < length thread.old.top.level.list.now }
    ensures does { (pick : Bool) → Does (acted program.now pick layer.Skip thread.old memory.now) thread.old thread.new memory.now memory.now result }
    ensures roomy { IsRoomyThread thread.old → IsRoomyThread thread.new }
{
    pass(&mut thread.top.level);
    Did::Moved
}

fn set<'p>(
    program: &Program,
    thread: &mut Thread<'p>,
    memory: &Memory,
    number: u32,
    e: &TExpr,
) -> Did<'p>
    requires globals { length program.now.globals < 2 ^ 30 }
    requires at { thread.old.top.level.at < length thread.old.top.level.list.now }
    ensures does { (pick : Bool) → Does (acted program.now pick (layer.Set number e.now) thread.old memory.now) thread.old thread.new memory.now memory.now result }
    ensures roomy { IsRoomyThread thread.old → IsRoomyThread thread.new }
{
    match eval(program.globals.as_slice(), thread.top.temps.as_slice(), e) {
        Ok(value) => {
            assign(&mut thread.top.temps, number, value);
            pass(&mut thread.top.level);
            Did::Moved
        }
        Err(cause) => Did::Wrong(cause),
    }
}

fn load<'p>(
    program: &Program,
    thread: &mut Thread<'p>,
    memory: &Memory,
    number: u32,
    place: &Lval,
) -> Did<'p>
    requires globals { length program.now.globals < 2 ^ 30 }
    requires at { thread.old.top.level.at < length thread.old.top.level.list.now }
    ensures does { (pick : Bool) → Does (acted program.now pick (layer.Load number place.now) thread.old memory.now) thread.old thread.new memory.now memory.now result }
    ensures roomy { IsRoomyThread thread.old → IsRoomyThread thread.new }
{
    match address(
        program.globals.as_slice(),
        thread.top.temps.as_slice(),
        place,
    ) {
        Ok(place) => {
            let effect = effect::load(&mut thread.top.temps, memory, number, place);
            after(thread, effect)
        }
        Err(cause) => Did::Wrong(cause),
    }
}

fn store<'p>(
    program: &Program,
    thread: &mut Thread<'p>,
    memory: &mut Memory,
    place: &Lval,
    e: &TExpr,
) -> Result<Did<'p>, AllocError>
    requires globals { length program.now.globals < 2 ^ 30 }
    requires at { thread.old.top.level.at < length thread.old.top.level.list.now }
    ensures ok { IfOk result (λ d. (pick : Bool) → Does (acted program.now pick (layer.Store place.now e.now) thread.old memory.old) thread.old thread.new memory.old memory.new d) }
    ensures err { OnErr result (Same thread.old thread.new memory.old memory.new) }
    ensures roomy { IsRoomyThread thread.old → IsRoomyThread thread.new }
{
    match address(
        program.globals.as_slice(),
        thread.top.temps.as_slice(),
        place,
    ) {
        Ok(place) => match eval(program.globals.as_slice(), thread.top.temps.as_slice(), e) {
            Ok(value) => {
                let effect = effect::store(thread.top.temps.as_slice(), memory, place, value)?;
                Ok(after(thread, effect))
            }
            Err(cause) => Ok(Did::Wrong(cause)),
        },
        Err(cause) => Ok(Did::Wrong(cause)),
    }
}

fn malloc<'p>(
    program: &Program,
    thread: &mut Thread<'p>,
    memory: &mut Memory,
    pick: bool,
    number: u32,
    cells: u32,
) -> Result<Did<'p>, AllocError>
    requires at { thread.old.top.level.at < length thread.old.top.level.list.now }
    requires blocks { length memory.old < 2 ^ 31 }
    ensures ok { IfOk result (λ d. Does (acted program.now pick (layer.Malloc number cells) thread.old memory.old) thread.old thread.new memory.old memory.new d) }
    ensures err { OnErr result (Same thread.old thread.new memory.old memory.new) }
    ensures roomy { IsRoomyThread thread.old → IsRoomyThread thread.new }
{
    let effect = effect::malloc(&mut thread.top.temps, memory, pick, number, cells)?;
    Ok(after(thread, effect))
}

fn free<'p>(program: &Program, thread: &mut Thread<'p>, memory: &mut Memory, e: &TExpr) -> Did<'p>
    requires globals { length program.now.globals < 2 ^ 30 }
    requires at { thread.old.top.level.at < length thread.old.top.level.list.now }
    ensures does { (pick : Bool) → Does (acted program.now pick (layer.Free e.now) thread.old memory.old) thread.old thread.new memory.old memory.new result }
    ensures roomy { IsRoomyThread thread.old → IsRoomyThread thread.new }
{
    match eval(program.globals.as_slice(), thread.top.temps.as_slice(), e) {
        Ok(value) => {
            let effect = effect::free(thread.top.temps.as_slice(), memory, value);
            after(thread, effect)
        }
        Err(cause) => Did::Wrong(cause),
    }
}

fn lock<'p>(
    program: &Program,
    thread: &mut Thread<'p>,
    memory: &mut Memory,
    op: LockOp,
    e: &TExpr,
) -> Result<Did<'p>, AllocError>
    requires globals { length program.now.globals < 2 ^ 30 }
    requires at { thread.old.top.level.at < length thread.old.top.level.list.now }
    ensures ok { IfOk result (λ d. (pick : Bool) → Does (acted program.now pick (layer.Lock op e.now) thread.old memory.old) thread.old thread.new memory.old memory.new d) }
    ensures err { OnErr result (Same thread.old thread.new memory.old memory.new) }
    ensures roomy { IsRoomyThread thread.old → IsRoomyThread thread.new }
    ensures no_memory { takes_memory (layer.Lock op e.now) ≡ false → IsOk result }
{
    match eval(program.globals.as_slice(), thread.top.temps.as_slice(), e) {
        Ok(place) => {
            let effect = effect::lock(thread.top.temps.as_slice(), memory, op, place)?;
            Ok(after(thread, effect))
        }
        Err(cause) => Ok(Did::Wrong(cause)),
    }
}

fn choose<'p>(
    program: &Program,
    thread: &mut Thread<'p>,
    memory: &Memory,
    condition: &Cond,
    yes: &'p List<TStmt>,
    no: &'p List<TStmt>,
) -> Did<'p>
    requires globals { length program.now.globals < 2 ^ 30 }
    requires at { thread.old.top.level.at < length thread.old.top.level.list.now }
    requires yes_fits { vec_len thread.old.top.below + suc (depth_of yes.now) ≤ vec_capacity thread.old.top.below }
    requires no_fits { vec_len thread.old.top.below + suc (depth_of no.now) ≤ vec_capacity thread.old.top.below }
    ensures does { (pick : Bool) → Does (acted program.now pick (layer.If condition.now yes.now no.now) thread.old memory.now) thread.old thread.new memory.now memory.now result }
    ensures roomy { IsRoomyThread thread.old → IsRoomyThread thread.new }
{
    match test(
        program.globals.as_slice(),
        thread.top.temps.as_slice(),
        memory,
        condition,
    ) {
        Ok(true) => {
            enter(&mut thread.top, yes.as_slice(), false);
            Did::Moved
        }
        Ok(false) => {
            enter(&mut thread.top, no.as_slice(), false);
            Did::Moved
        }
        Err(cause) => Did::Wrong(cause),
    }
}

fn begin<'p>(
    program: &Program,
    thread: &mut Thread<'p>,
    memory: &Memory,
    body: &'p List<TStmt>,
) -> Did<'p>
    requires at { thread.old.top.level.at < length thread.old.top.level.list.now }
    requires fits { vec_len thread.old.top.below + suc (depth_of body.now) ≤ vec_capacity thread.old.top.below }
    ensures does { (pick : Bool) → Does (acted program.now pick (layer.Loop body.now) thread.old memory.now) thread.old thread.new memory.now memory.now result }
    ensures roomy { IsRoomyThread thread.old → IsRoomyThread thread.new }
{
    enter(&mut thread.top, body.as_slice(), true);
    Did::Moved
}

fn leave_loop<'p>(program: &Program, thread: &mut Thread<'p>, memory: &Memory) -> Did<'p>
    requires at { thread.old.top.level.at < length thread.old.top.level.list.now }
    ensures does { (pick : Bool) → Does (acted program.now pick layer.Break thread.old memory.now) thread.old thread.new memory.now memory.now result }
    ensures roomy { IsRoomyThread thread.old → IsRoomyThread thread.new }
{
    pass(&mut thread.top.level);
    if leave(&mut thread.top) {
        Did::Moved
    } else {
        give(thread, Value::Undef)
    }
}

fn skip_rest<'p>(program: &Program, thread: &mut Thread<'p>, memory: &Memory) -> Did<'p>
    requires at { thread.old.top.level.at < length thread.old.top.level.list.now }
    ensures does { (pick : Bool) → Does (acted program.now pick layer.Continue thread.old memory.now) thread.old thread.new memory.now memory.now result }
    ensures roomy { IsRoomyThread thread.old → IsRoomyThread thread.new }
{
    pass(&mut thread.top.level);
    if skip(&mut thread.top) {
        Did::Moved
    } else {
        give(thread, Value::Undef)
    }
}

fn give_back<'p>(
    program: &Program,
    thread: &mut Thread<'p>,
    memory: &Memory,
    e: &Option<TExpr>,
) -> Did<'p>
    requires globals { length program.now.globals < 2 ^ 30 }
    ensures does { (pick : Bool) → Does (acted program.now pick (layer.Return e.now) thread.old memory.now) thread.old thread.new memory.now memory.now result }
    ensures roomy { IsRoomyThread thread.old → IsRoomyThread thread.new }
{
    match e {
        None => give(thread, Value::Undef),
        Some(e) => match eval(program.globals.as_slice(), thread.top.temps.as_slice(), e) {
            Ok(value) => give(thread, value),
            Err(cause) => Did::Wrong(cause),
        },
    }
}

/// Past the statement, into a new frame.
fn descend<'p>(
    thread: &mut Thread<'p>,
    frame: Frame<'p>,
    target: Option<u32>,
) -> Result<(), AllocError>
    requires at { thread.old.top.level.at < length thread.old.top.level.list.now }
    ensures top { OnOk result (frame_of thread.new.top ≡ frame_of frame.entry) }
    ensures waiting { OnOk result (callers_of thread.new.waiting.items ≡ record { frame = frame_of (passed thread.old.top); target = target } ∷ callers_of thread.old.waiting.items) }
    ensures err { OnErr result (thread_of thread.new ≡ thread_of thread.old) }
    ensures roomy { IsRoomy frame.entry → IsRoomyThread thread.old → IsRoomyThread thread.new }
{
    thread.waiting.reserve(1)?;
    pass(&mut thread.top.level);
    let caller = mem::replace(&mut thread.top, frame);
    thread.waiting.push_reserved(Waiting {
        frame: caller,
        target,
    });
    Ok(())
}

fn call<'p>(
    alloc: Global,
    program: &'p Program,
    rooms: &[u32],
    thread: &mut Thread<'p>,
    memory: &Memory,
    target: Option<u32>,
    name: &Name,
    arguments: &List<TExpr>,
) -> Result<Did<'p>, AllocError>
    requires globals { length program.now.globals < 2 ^ 30 }
    requires rooms { rooms.now ≡ map function_depth program.now.fns }
    requires at { thread.old.top.level.at < length thread.old.top.level.list.now }
    ensures ok { IfOk result (λ d. (pick : Bool) → Does (acted program.now pick (layer.Call target name.now arguments.now) thread.old memory.now) thread.old thread.new memory.now memory.now d) }
    ensures err { OnErr result (Same thread.old thread.new memory.now memory.now) }
    ensures roomy { IsRoomyThread thread.old → IsRoomyThread thread.new }
{
    match eval_all(
        alloc,
        program.globals.as_slice(),
        thread.top.temps.as_slice(),
        arguments.as_slice(),
    )? {
        Ok(values) => {
            let fns = program.fns.as_slice();
            match function(fns, name) {
                Some(number) => {
                    let frame = entry(alloc, &fns[number], rooms[number], values)?;
                    descend(thread, frame, target)?;
                    Ok(Did::Moved)
                }
                None => Ok(Did::Wrong(Cause::Undef)),
            }
        }
        Err(cause) => Ok(Did::Wrong(cause)),
    }
}

fn spawn<'p>(
    alloc: Global,
    program: &'p Program,
    rooms: &[u32],
    thread: &mut Thread<'p>,
    memory: &Memory,
    name: &Name,
    e: &TExpr,
) -> Result<Did<'p>, AllocError>
    requires globals { length program.now.globals < 2 ^ 30 }
    requires rooms { rooms.now ≡ map function_depth program.now.fns }
    requires at { thread.old.top.level.at < length thread.old.top.level.list.now }
    ensures ok { IfOk result (λ d. (pick : Bool) → Does (acted program.now pick (layer.Spawn name.now e.now) thread.old memory.now) thread.old thread.new memory.now memory.now d) }
    ensures err { OnErr result (Same thread.old thread.new memory.now memory.now) }
    ensures roomy { IsRoomyThread thread.old → IsRoomyThread thread.new }
    ensures new { IfOk result IsNewReady }
{
    match eval(program.globals.as_slice(), thread.top.temps.as_slice(), e) {
        Ok(value) => {
            let fns = program.fns.as_slice();
            match function(fns, name) {
                Some(number) => {
                    let mut values = Vec::new(alloc);
                    values.push(value)?;
                    let top = entry(alloc, &fns[number], rooms[number], values)?;
                    pass(&mut thread.top.level);
                    Ok(Did::Forked(Thread {
                        top,
                        waiting: Vec::new(alloc),
                    }))
                }
                None => Ok(Did::Wrong(Cause::Undef)),
            }
        }
        Err(cause) => Ok(Did::Wrong(cause)),
    }
}

/// One statement of a thread.
fn statement<'p>(
    alloc: Global,
    program: &'p Program,
    rooms: &[u32],
    thread: &mut Thread<'p>,
    memory: &mut Memory,
    pick: bool,
    s: &'p TStmt,
) -> Result<Did<'p>, AllocError>
    requires globals { length program.now.globals < 2 ^ 30 }
    requires rooms { rooms.now ≡ map function_depth program.now.fns }
    requires blocks { length memory.old < 2 ^ 31 }
    requires at { thread.old.top.level.at < length thread.old.top.level.list.now }
    requires fits { vec_len thread.old.top.below + depth s.now ≤ vec_capacity thread.old.top.below }
    ensures ok { IfOk result (λ d. Does (acted program.now pick (out-TStmt s.now) thread.old memory.old) thread.old thread.new memory.old memory.new d) }
    ensures err { OnErr result (Same thread.old thread.new memory.old memory.new) }
    ensures roomy { IsRoomyThread thread.old → IsRoomyThread thread.new }
    ensures new { is_spawn (out-TStmt s.now) ≡ true → IfOk result IsNewReady }
    ensures no_memory { takes_memory (out-TStmt s.now) ≡ false → IsOk result }
{
    match s {
        TStmt::Skip => Ok(nothing(program, thread, memory)),
        TStmt::Set(number, e) => Ok(set(program, thread, memory, *number, e)),
        TStmt::Load(number, place) => Ok(load(program, thread, memory, *number, place)),
        TStmt::Store(place, e) => store(program, thread, memory, place, e),
        TStmt::Call(target, name, arguments) => call(
            alloc, program, rooms, thread, memory, *target, name, arguments,
        ),
        TStmt::Malloc(number, cells) => malloc(program, thread, memory, pick, *number, *cells),
        TStmt::Free(e) => Ok(free(program, thread, memory, e)),
        TStmt::Lock(op, e) => lock(program, thread, memory, *op, e),
        TStmt::Spawn(name, e) => spawn(alloc, program, rooms, thread, memory, name, e),
        TStmt::If(condition, yes, no) => Ok(choose(program, thread, memory, condition, yes, no)),
        TStmt::Loop(body) => Ok(begin(program, thread, memory, body)),
        TStmt::Break => Ok(leave_loop(program, thread, memory)),
        TStmt::Continue => Ok(skip_rest(program, thread, memory)),
        TStmt::Return(e) => Ok(give_back(program, thread, memory, e)),
    }
}

/// The next statement of a thread.
fn proceed<'p>(
    alloc: Global,
    program: &'p Program,
    rooms: &[u32],
    thread: &mut Thread<'p>,
    memory: &mut Memory,
    pick: bool,
) -> Result<Did<'p>, AllocError>
    requires globals { length program.now.globals < 2 ^ 30 }
    requires rooms { rooms.now ≡ map function_depth program.now.fns }
    requires blocks { length memory.old < 2 ^ 31 }
    requires ready { IsReady thread.old }
    ensures ok { IfOk result (λ d. Does (step_of program.now pick (thread_of thread.old) memory.old) thread.old thread.new memory.old memory.new d) }
    ensures err { OnErr result (Same thread.old thread.new memory.old memory.new) }
    ensures roomy { IsRoomyThread thread.new }
    ensures new { thread_spawns (Some (thread_of thread.old)) ≡ true → IfOk result IsNewReady }
    ensures no_memory { thread_takes_memory (Some (thread_of thread.old)) ≡ false → IsOk result }
{
    let list = thread.top.level.list;
    let at = thread.top.level.at;
    if at < list.len() {
        let next = &list[at];
        return statement(alloc, program, rooms, thread, memory, pick, next);
    }
    if thread.top.level.is_loop {
        thread.top.level.at = 0;
        return Ok(Did::Moved);
    }
    Ok(give(thread, Value::Undef))
}

/// A step of a thread.
pub(crate) fn advance<'p>(
    alloc: Global,
    program: &'p Program,
    rooms: &[u32],
    thread: &mut Thread<'p>,
    memory: &mut Memory,
    pick: bool,
) -> Result<Did<'p>, AllocError>
    requires globals { length program.now.globals < 2 ^ 30 }
    requires rooms { rooms.now ≡ map function_depth program.now.fns }
    requires blocks { length memory.old < 2 ^ 31 }
    requires ready { IsReady thread.old }
    ensures ok { IfOk result (λ d. Does (step_of program.now pick (thread_of thread.old) memory.old) thread.old thread.new memory.old memory.new d) }
    ensures err { OnErr result (Same thread.old thread.new memory.old memory.new) }
    ensures ready { IsReady thread.new }
    ensures new { thread_spawns (Some (thread_of thread.old)) ≡ true → IfOk result IsNewReady }
    ensures no_memory { thread_takes_memory (Some (thread_of thread.old)) ≡ false → IsOk result }
{
    let did = proceed(alloc, program, rooms, thread, memory, pick);
    settle(&mut thread.top);
    did
}

/// Whether a thread's next statement makes a thread.
pub(crate) fn spawns(thread: &Thread) -> bool
    requires { IsSettled thread.now.top }
    ensures { result ≡ thread_spawns (Some (thread_of thread.now)) }
{
    let list = thread.top.level.list;
    let at = thread.top.level.at;
    if at < list.len() {
        return makes_thread(&list[at]);
    }
    false
}

fn makes_thread(s: &TStmt) -> bool
    ensures { result ≡ is_spawn (out-TStmt s.now) }
{
    match s {
        TStmt::Spawn(_, _) => true,
        TStmt::Skip => false,
        TStmt::Set(_, _) => false,
        TStmt::Load(_, _) => false,
        TStmt::Store(_, _) => false,
        TStmt::Call(_, _, _) => false,
        TStmt::Malloc(_, _) => false,
        TStmt::Free(_) => false,
        TStmt::Lock(_, _) => false,
        TStmt::If(_, _, _) => false,
        TStmt::Loop(_) => false,
        TStmt::Break => false,
        TStmt::Continue => false,
        TStmt::Return(_) => false,
    }
}
