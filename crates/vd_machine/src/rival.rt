//! The least two threads that race.
ghost use Rattle.std.specs.Prelude.{◌≡◌, ◌<◌, ◌^◌, length, List};
ghost use Rattle.vd_mem.specs.Memory.{Block};
ghost use Rattle.vd_machine.specs.Room.{AreReady};
ghost use Rattle.vd_machine.specs.Rivals.{FoundRival, FoundRivals, touch_at};
ghost use Rattle.vd_machine.specs.Turns.{system_of};

use crate::answer::Spot;
use crate::frame::Thread;
use crate::touch::{Touched, clash, nothing, slot_touch};
use vd_clight::GlobalDef;
use vd_mem::Memory;

/// The least later thread that races with a thread, and their least cell.
fn rival(
    globals: &[GlobalDef],
    threads: &[Option<Thread>],
    memory: &Memory,
    first: usize,
) -> Option<(usize, Spot)>
    requires globals { length globals.now < 2 ^ 30 }
    requires ready { AreReady threads.now }
    requires first { first < length threads.now }
    ensures { FoundRival globals.now (system_of threads.now memory.now) first result }
{
    let touched = slot_touch(globals, &threads[first]);
    for second in first + 1..threads.len() {
        let other = slot_touch(globals, &threads[second]);
        if let Some(spot) = clash(memory, touched, other) {
            return Some((second, spot));
        }
    }
    None
}

/// The least two threads that race, and their least cell.
pub(crate) fn rivals(
    globals: &[GlobalDef],
    threads: &[Option<Thread>],
    memory: &Memory,
) -> Option<(usize, usize, Spot)>
    requires globals { length globals.now < 2 ^ 30 }
    requires ready { AreReady threads.now }
    ensures { FoundRivals globals.now (system_of threads.now memory.now) result }
{
    for first in 0..threads.len() {
        if let Some((second, spot)) = rival(globals, threads, memory, first) {
            return Some((first, second, spot));
        }
    }
    None
}

/// What the next statement of the thread of a number touches.
pub(crate) fn touch_of(globals: &[GlobalDef], threads: &[Option<Thread>], number: usize) -> Touched
    requires globals { length globals.now < 2 ^ 30 }
    requires ready { AreReady threads.now }
    ensures { (m : List Block) → result ≡ touch_at globals.now (system_of threads.now m) number }
{
    if number < threads.len() {
        return slot_touch(globals, &threads[number]);
    }
    nothing()
}
