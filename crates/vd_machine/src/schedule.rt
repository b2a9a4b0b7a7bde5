//! A run of a program under a schedule.
ghost use Rattle.std.specs.Prelude.{◌≡◌, ◌<◌, ◌≤◌, ◌^◌, length, IfSome, IfOk};
ghost use Rattle.vd_machine.specs.Along.{raced_after, IsRaceNow, IsNextRace, end_by};
ghost use Rattle.vd_machine.specs.Machine.{RunsTo, started, turned};
ghost use Rattle.vd_machine.specs.Watching.{Follows, IsStill, IsWatched, Watches};

use crate::answer::{End, Outcome, Spot, Stepped, Turn};
use crate::machine::Machine;
use crate::watch::Watch;
use std::alloc::{AllocError, Global};
use vd_base::List;
use vd_clight::Program;

/// The race of a state, with the turns before it.
fn raced_after(turns: u32, race: Option<(u32, u32, Spot)>) -> Option<(u32, u32, u32, Spot)>
    ensures { result ≡ raced_after turns race }
{
    match race {
        Some((first, second, spot)) => Some((turns, first, second, spot)),
        None => None,
    }
}

/// The race of a machine's state.
fn race_now(machine: &Machine, turns: u32) -> Option<(u32, u32, u32, Spot)>
    ensures { IsRaceNow machine.now turns result }
{
    raced_after(turns, machine.races())
}

/// The first race so far: an earlier one stays. All threads are compared only where the index was lost.
fn next_race(
    machine: &Machine,
    watched: bool,
    turns: u32,
    race: Option<(u32, u32, u32, Spot)>,
) -> Option<(u32, u32, u32, Spot)>
    ensures { IsNextRace machine.now watched turns race result }
{
    match race {
        Some(race) => Some(race),
        None => {
            if watched {
                None
            } else {
                race_now(machine, turns)
            }
        }
    }
}

/// The index of a machine that has made no turn.
fn first_watch(
    alloc: Global,
    program: &Program,
    machine: &Machine,
) -> Result<Option<Watch>, AllocError>
    requires program { length program.now.globals < 2 ^ 30 }
    requires start { machine.now ≡ started program.now }
    ensures { IfOk result (λ r. IfSome r (Watches machine.now.program.globals machine.now.system)) }
{
    let joined = machine.join(Watch::new(alloc, program.globals.len() as u32))?;
    Ok(joined)
}

/// How a run ends by a step, where it does.
fn end_by(stepped: Stepped) -> Option<End>
    ensures { result ≡ end_by stepped }
{
    match stepped {
        Stepped::Finished(value) => Some(End::Main(value)),
        Stepped::Stuck(thread, cause) => Some(End::Stuck(thread, cause)),
        Stepped::Moved => None,
        Stepped::Blocked => None,
        Stepped::Idle => None,
    }
}

/// The index after a thread's turn that did this.
fn watched(
    machine: &Machine,
    watch: Watch,
    stepped: Stepped,
    thread: u32,
) -> Result<Option<Watch>, AllocError>
    requires { stepped ≡ Stepped.Moved → Follows machine.now.program.globals machine.now.system watch thread }
    ensures { IfOk result (λ r. IfSome r (IsWatched machine.now stepped watch thread)) }
{
    match stepped {
        Stepped::Moved => {
            let followed = machine.follow(watch, thread)?;
            Ok(followed)
        }
        Stepped::Blocked => Ok(Some(watch)),
        Stepped::Idle => Ok(Some(watch)),
        Stepped::Finished(_) => Ok(None),
        Stepped::Stuck(_, _) => Ok(None),
    }
}

/// A turn, and the index after it where that shows that no race came of the turn.
fn take_turn(
    machine: &mut Machine,
    watch: Option<Watch>,
    turn: &Turn,
) -> Result<(Stepped, Option<Watch>), AllocError>
    requires steps { machine.old.steps < 2 ^ 31 }
    requires watch { IfSome watch (Watches machine.old.program.globals machine.old.system) }
    ensures stepped { IfOk result (λ r. (r.0, machine.new) ≡ turned machine.old turn.now.thread turn.now.pick) }
    ensures watch { IfOk result (λ r. IfSome r.1 (IsStill machine.old machine.new)) }
{
    let stepped = machine.step(turn.thread, turn.pick)?;
    match watch {
        Some(watch) => {
            let followed = watched(machine, watch, stepped, turn.thread)?;
            Ok((stepped, followed))
        }
        None => Ok((stepped, None)),
    }
}

/// Runs a program under a schedule: how many turns it took, how it ended, and the first state with a race. A program
/// that is not whole may be want of memory.
pub fn run(alloc: Global, program: &Program, schedule: &List<Turn>) -> Result<Outcome, AllocError>
    requires { length schedule.now ≤ 1000000 }
    ensures { IfOk result (λ o. RunsTo program.now schedule.now o) }
{
    let mut machine = Machine::start(alloc, program)?;
    let mut race = race_now(&machine, 0);
    let mut watch = first_watch(alloc, program, &machine)?;
    let mut turns = 0;
    for turn in schedule.as_slice() {
        let (stepped, followed) = take_turn(&mut machine, watch, turn)?;
        turns += 1;
        if let Some(end) = end_by(stepped) {
            return Ok(Outcome { turns, end, race });
        }
        race = next_race(&machine, followed.is_some(), turns, race);
        watch = followed;
    }
    Ok(Outcome {
        turns,
        end: End::Open,
        race,
    })
}
