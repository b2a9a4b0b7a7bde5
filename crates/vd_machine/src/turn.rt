//! One turn of one thread among others.
ghost use Rattle.std.specs.Prelude.{◌≡◌, ◌<◌, ◌≤◌, ◌+◌, ◌^◌, ◌++◌, ◌∷◌, [], length, map, slice_get, true, false, Some, None, IfOk, IsOk, OnOk, OnErr};
ghost use Rattle.std.specs.Vec.{vec_len, vec_capacity};
ghost use Rattle.vd_machine.specs.Allocation.{thread_takes_memory, thread_spawns};
ghost use Rattle.vd_machine.specs.Kept.{slot_of, thread_of};
ghost use Rattle.vd_machine.specs.Room.{AreReady, IsReady, IsReadySlot, function_depth};
ghost use Rattle.vd_machine.specs.Run.{turn};
ghost use Rattle.vd_machine.specs.Turns.{system_of, turned_by, Leaves};

use crate::answer::Cause;
use crate::frame::Thread;
use crate::statement::{Did, advance, spawns};
use std::alloc::{AllocError, Global};
use vd_clight::Program;
use vd_mem::{Memory, Value};

/// What a turn did.
#[derive(Clone, Copy)]
pub(crate) enum Turned {
    Moved,
    Waiting,
    Resting,
    Finished(Value),
    Failed(Cause),
}

/// A turn of the thread of a number.
pub(crate) fn turn<'p>(
    alloc: Global,
    program: &'p Program,
    rooms: &[u32],
    threads: &mut Vec<Option<Thread<'p>>>,
    memory: &mut Memory,
    number: u32,
    pick: bool,
) -> Result<Turned, AllocError>
    requires globals { length program.now.globals < 2 ^ 30 }
    requires rooms { rooms.now ≡ map function_depth program.now.fns }
    requires blocks { length memory.old < 2 ^ 31 }
    requires ready { AreReady threads.old.items }
    ensures ok { IfOk result (λ r. turned_by r (system_of threads.new.items memory.new) ≡ turn program.now number pick (system_of threads.old.items memory.old)) }
    ensures leaves { IfOk result (λ r. Leaves r number (system_of threads.old.items memory.old) (system_of threads.new.items memory.new)) }
    ensures err { OnErr result (system_of threads.new.items memory.new ≡ system_of threads.old.items memory.old) }
    ensures ready { AreReady threads.new.items }
    ensures no_memory { thread_takes_memory (slice_get (system_of threads.old.items memory.old).threads number) ≡ false → IsOk result }
{
    let at = number as usize;
    if at >= threads.len() {
        return Ok(Turned::Resting);
    }
    make_room(threads, at)?;
    let did = match &mut threads[at] {
        Some(thread) => advance(alloc, program, rooms, thread, memory, pick)?,
        None => return Ok(Turned::Resting),
    };
    match did {
        Did::Moved => Ok(Turned::Moved),
        Did::Blocked => Ok(Turned::Waiting),
        Did::Wrong(cause) => Ok(Turned::Failed(cause)),
        Did::Over(value) => {
            end(&mut threads[at]);
            if at == 0 {
                Ok(Turned::Finished(value))
            } else {
                Ok(Turned::Moved)
            }
        }
        Did::Forked(thread) => {
            add(threads, thread);
            Ok(Turned::Moved)
        }
    }
}

/// Room for the thread that a spawn makes.
fn make_room<'p>(threads: &mut Vec<Option<Thread<'p>>>, at: usize) -> Result<(), AllocError>
    requires at { at < vec_len threads.old }
    requires ready { AreReady threads.old.items }
    ensures items { threads.new.items ≡ threads.old.items }
    ensures room { OnOk result (thread_spawns (slice_get (map slot_of threads.old.items) at) ≡ true → vec_len threads.new < vec_capacity threads.new) }
    ensures no_memory { thread_spawns (slice_get (map slot_of threads.old.items) at) ≡ false → IsOk result }
{
    if slot_spawns(&threads[at]) {
        threads.reserve(1)?;
    }
    Ok(())
}

fn slot_spawns(slot: &Option<Thread>) -> bool
    requires { IsReadySlot slot.now }
    ensures { result ≡ thread_spawns (Some (slot_of slot.now)) }
{
    match slot {
        Some(thread) => spawns(thread),
        None => false,
    }
}

fn end(slot: &mut Option<Thread>)
    ensures { slot.new ≡ None }
{
    let _ended = slot.take();
}

fn add<'p>(threads: &mut Vec<Option<Thread<'p>>>, thread: Thread<'p>)
    requires { vec_len threads.old < vec_capacity threads.old }
    ensures items { map slot_of threads.new.items ≡ map slot_of threads.old.items ++ thread_of thread.entry ∷ [] }
    ensures ready { IsReady thread.entry → AreReady threads.old.items → AreReady threads.new.items }
{
    threads.push_reserved(Some(thread));
}
