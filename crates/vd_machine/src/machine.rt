//! The machine.
ghost use Rattle.std.specs.Prelude.{◌≡◌, ◌<◌, ◌≤◌, ◌+◌, ◌^◌, ◌++◌, ◌∷◌, [], length, map, min, max, false, is_some, IfSome, IfOk, IsOk, OnOk, OnErr};
ghost use Rattle.vd_machine.specs.Allocation.{turn_takes_memory};
ghost use Rattle.vd_mem.specs.Memory.{cell_at};
ghost use Rattle.vd_machine.specs.Room.{depth, depth_of, function_depth};
ghost use Rattle.vd_machine.specs.Machine.{started, turned, FoundRace};
ghost use Rattle.vd_machine.specs.Start.{first_memory, global_block, init_value};
ghost use Rattle.vd_machine.specs.Touches.{nothing};
ghost use Rattle.vd_machine.specs.Watching.{touch_in, IsIndex, Enters, Joins, Follows, Followed};

use crate::answer::{End, Spot, Stepped};
use crate::evaluate::global;
use crate::frame::{Thread, entry};
use crate::rival::{rivals, touch_of};
use crate::touch::{live, reaches};
use crate::turn::{Turned, turn};
use crate::watch::Watch;
use std::alloc::{AllocError, Global};
use std::marker::Model;
use vd_clight::{GlobalDef, Init, Program, TStmt};
use vd_mem::{Cell, Memory, Value};

/// A program that runs, thread by thread.
pub struct Machine<'p> {
    alloc: Global,
    program: &'p Program,
    rooms: Vec<u32>,
    memory: Memory,
    threads: Vec<Option<Thread<'p>>>,
    finish: End,
    steps: u32,
}

// Written by hand, so that an exit lets go of a machine by one call in place of one for each part.
impl<'p> Drop for Machine<'p> {
    fn drop(self) {
        let Machine {
            alloc: _,
            program: _,
            rooms: _,
            memory: _,
            threads: _,
            finish: _,
            steps: _,
        } = self;
    }
}

impl<'p> Model for Machine<'p> {
    ghost use Rattle.vd_machine.specs.Machine.{Machine};

    ghost Value = { Machine };

    ghost use Rattle.std.specs.Coded.{codes};
    ghost use Rattle.vd_base.specs.contracts.ctype.CType as ctype;
    ghost use Rattle.vd_clight.specs.contracts.typed.TStmt as stmt;
    ghost use Rattle.vd_clight.specs.contracts.typed.TExpr as expr;
    ghost use Rattle.vd_clight.specs.contracts.typed.Lval as lval;

    ghost coded = { Prim.hlevel (codes, ctype.the_row.coded, stmt.the_row.coded, expr.the_row.coded, lval.the_row.coded) };

    ghost use Rattle.vd_machine.specs.Inside.{machine_of, IsSound};

    ghost view = { λ w. machine_of w.program.now w.threads.items w.memory w.finish w.steps };

    ghost invariant = { λ w. IsSound w.program.now w.rooms.items w.threads.items w.memory w.steps };
}

/// How deep the statements of a list are nested, up to a limit.
#[cycle(room)]
fn room_of(list: &[TStmt]) -> u32
    ensures { result ≡ min 4294967295 (depth_of list.now) }
{
    let mut room = 0;
    for s in list {
        room = greater(room, room_in(s));
    }
    room
}

#[cycle(room)]
#[tactic(auto, using(crate::proofs::Rooms::depths))]
fn room_in(s: &TStmt) -> u32
    ensures { result ≡ min 4294967295 (depth s.now) }
{
    match s {
        TStmt::If(_, yes, no) => {
            let yes = room_of(yes.as_slice());
            let no = room_of(no.as_slice());
            greater(yes, no).saturating_add(1)
        }
        TStmt::Loop(body) => room_of(body.as_slice()).saturating_add(1),
        TStmt::Skip => 0,
        TStmt::Set(_, _) => 0,
        TStmt::Load(_, _) => 0,
        TStmt::Store(_, _) => 0,
        TStmt::Call(_, _, _) => 0,
        TStmt::Malloc(_, _) => 0,
        TStmt::Free(_) => 0,
        TStmt::Lock(_, _) => 0,
        TStmt::Spawn(_, _) => 0,
        TStmt::Break => 0,
        TStmt::Continue => 0,
        TStmt::Return(_) => 0,
    }
}

fn greater(a: u32, b: u32) -> u32
    ensures { result ≡ max a b }
{
    if a < b { b } else { a }
}

/// How deep the statements of each function are nested. A nesting that no machine has room for is want of memory.
fn rooms_of(alloc: Global, program: &Program) -> Result<Vec<u32>, AllocError>
    ensures { IfOk result (λ rooms. rooms.items ≡ map function_depth program.now.fns) }
{
    let mut rooms = Vec::new(alloc);
    for f in program.fns.as_slice() {
        let room = room_of(f.body.as_slice());
        if room == u32::MAX {
            return Err(AllocError);
        }
        rooms.push(room)?;
    }
    Ok(rooms)
}

fn init_value(globals: &[GlobalDef], init: &Init) -> Value
    requires { length globals.now < 2 ^ 30 }
    ensures { result ≡ init_value globals.now init.now }
{
    match init {
        Init::Int(number) => Value::Int(*number),
        Init::Addr(name) => global(globals, name),
    }
}

/// The block of a global. More cells than a block can have, or initial values than cells, are want of memory; a whole
/// program has neither.
fn add_global(globals: &[GlobalDef], memory: &mut Memory, g: &GlobalDef) -> Result<(), AllocError>
    requires globals { length globals.now < 2 ^ 30 }
    requires blocks { length memory.old < 2 ^ 31 }
    ensures { OnOk result (memory.new ≡ memory.old ++ global_block globals.now g.now ∷ []) }
{
    if g.cells > 1048576 {
        return Err(AllocError);
    }
    let cells = if g.cells < 1 { 1 } else { g.cells };
    if g.init.len() > cells as usize {
        return Err(AllocError);
    }
    let block = memory.alloc(cells, Value::Int(0), false)?;
    for (offset, init) in g.init.as_slice().iter().enumerate() {
        let value = init_value(globals, init);
        memory.set(block, offset as u32, Cell::Data(value))?;
    }
    Ok(())
}

fn first_memory(alloc: Global, globals: &[GlobalDef]) -> Result<Memory, AllocError>
    requires { length globals.now < 2 ^ 30 }
    ensures { IfOk result (λ m. m ≡ first_memory globals.now) }
{
    let mut memory = Memory::new(alloc);
    for g in globals {
        add_global(globals, &mut memory, g)?;
    }
    Ok(memory)
}

impl<'p> Machine<'p> {
    /// A machine at main's first statement. A program that is not whole may be want of memory.
    pub fn start(alloc: Global, program: &'p Program) -> Result<Machine<'p>, AllocError>
        ensures ok { IfOk result (λ w. w ≡ started program.now) }
        ensures globals { OnOk result (length program.now.globals < 2 ^ 30) }
    {
        let count = program.globals.len();
        if count >= 1073741824 {
            return Err(AllocError);
        }
        let rooms = rooms_of(alloc, program)?;
        let memory = first_memory(alloc, program.globals.as_slice())?;
        let main = program.main as usize;
        let fns = program.fns.as_slice();
        if main >= fns.len() {
            return Err(AllocError);
        }
        let top = entry(alloc, &fns[main], rooms[main], Vec::new(alloc))?;
        let mut threads = Vec::new(alloc);
        threads.push(Some(Thread {
            top,
            waiting: Vec::new(alloc),
        }))?;
        Ok(Machine {
            alloc,
            program,
            rooms,
            memory,
            threads,
            finish: End::Open,
            steps: count as u32,
        })
    }

    /// A turn of a thread: one step, where it can make one. With `pick` a `malloc` gives a block.
    pub fn step(&mut self, thread: u32, pick: bool) -> Result<Stepped, AllocError>
        requires { self.old.steps < 2 ^ 31 }
        ensures ok { IfOk result (λ s. (s, self.new) ≡ turned self.old thread pick) }
        ensures err { OnErr result (self.new ≡ self.old) }
        ensures no_memory { turn_takes_memory self.old thread ≡ false → IsOk result }
    {
        if !matches!(self.finish, End::Open) {
            return Ok(Stepped::Idle);
        }
        match turn(
            self.alloc,
            self.program,
            self.rooms.as_slice(),
            &mut self.threads,
            &mut self.memory,
            thread,
            pick,
        )? {
            Turned::Moved => {
                self.steps += 1;
                Ok(Stepped::Moved)
            }
            Turned::Waiting => Ok(Stepped::Blocked),
            Turned::Resting => Ok(Stepped::Idle),
            Turned::Finished(value) => {
                self.steps += 1;
                self.finish = End::Main(value);
                Ok(Stepped::Finished(value))
            }
            Turned::Failed(cause) => {
                self.steps += 1;
                self.finish = End::Stuck(thread, cause);
                Ok(Stepped::Stuck(thread, cause))
            }
        }
    }

    /// The least two threads whose next statements race, and their least cell. After the run's end there is none.
    pub fn races(&self) -> Option<(u32, u32, Spot)>
        ensures { FoundRace self.now result }
    {
        if matches!(self.finish, End::Open) {
            let globals = self.program.globals.as_slice();
            match rivals(globals, self.threads.as_slice(), &self.memory) {
                Some((first, second, spot)) => Some((first as u32, second as u32, spot)),
                None => None,
            }
        } else {
            None
        }
    }

    /// How many blocks there are, where a number of them is known and a turn made one at most since.
    fn more_blocks(&self, blocks: u32) -> u32
        requires { blocks ≤ length self.now.system.memory }
        ensures least { blocks ≤ result }
        ensures most { result ≤ length self.now.system.memory }
    {
        if self.memory.cell(blocks, 0).is_some() {
            blocks.saturating_add(1)
        } else {
            blocks
        }
    }

    /// The index with the touch of a thread that it lacks. None where it races with one there, or where it reaches past
    /// the blocks that there are, since a race could then come of a turn of another thread.
    fn enter(&self, watch: Watch, thread: u32) -> Result<Option<Watch>, AllocError>
        requires index { IsIndex watch }
        requires at { thread ≤ length watch.touches.items }
        requires free { touch_in watch.touches.items thread ≡ nothing }
        ensures { IfOk result (λ r. IfSome r (Enters self.now.program.globals self.now.system watch thread)) }
    {
        let globals = self.program.globals.as_slice();
        let touched = touch_of(globals, self.threads.as_slice(), thread as usize);
        if reaches(touched, watch.blocks) {
            return Ok(None);
        }
        if watch.meets(live(&self.memory, touched)) {
            return Ok(None);
        }
        Ok(Some(watch.with(thread, touched)?))
    }

    /// The index with the next thread, where there is one.
    pub(crate) fn join(&self, watch: Watch) -> Result<Option<Watch>, AllocError>
        requires { IsIndex watch }
        ensures { IfOk result (λ r. IfSome r (Joins self.now.program.globals self.now.system watch)) }
    {
        let count = watch.touches.len();
        if count >= self.threads.len() {
            return Ok(Some(watch));
        }
        self.enter(watch, count as u32)
    }

    /// The index after a turn of a thread. None where a thread that changed may race.
    pub(crate) fn follow(&self, watch: Watch, thread: u32) -> Result<Option<Watch>, AllocError>
        requires { Follows self.now.program.globals self.now.system watch thread }
        ensures { IfOk result (λ r. IfSome r (Followed self.now.program.globals self.now.system watch thread)) }
    {
        if thread as usize >= watch.touches.len() {
            return Ok(None);
        }
        let known = self.more_blocks(watch.blocks);
        let joined = self.join(watch.without(thread, known))?;
        match joined {
            Some(watch) => {
                let followed = self.enter(watch, thread)?;
                Ok(followed)
            }
            None => Ok(None),
        }
    }

    /// How many steps were made. Each global counts as one.
    pub fn steps(&self) -> u32
        ensures { result ≡ self.now.steps }
    {
        self.steps
    }
}
