//! The command `play`.
ghost use Rattle.std.specs.Prelude.{◌≡◌, ◌↔◌, ◌≤◌, map, string_bytes, Some, IfOk, IsTrue, MatchOption, All, length};
ghost use Rattle.vd_linkage.specs.Form.{IsPlainText};
ghost use Rattle.vd_schedule.specs.Schedule.{IsSchedule, turn_limit};
ghost use Rattle.vd_commands.specs.Answer.{IsPlayed, Plays, written_text};
ghost use Rattle.vd_commands.specs.Command.{Bytes, CommandLine, command_of, Play};
ghost use Rattle.vd_commands.specs.Call.{Means};
ghost use Rattle.vd_commands.specs.Gathering.{answer_in, IsRunRead, IsSoleSchedule};
ghost use Rattle.vd_commands.specs.Seen.{ShelfSeen};
ghost use Rattle.vd_commands.specs.Steps.{Finishes};
ghost use Rattle.vd_commands.specs.Submission.{IsHeaded};

use crate::ending::{Ending, finish};
use crate::files::ending_of;
use crate::inputs::{Schedule, read_schedule, read_texts};
use crate::lines::{goes_well, lines_of};
use crate::output::put_lines;
use crate::submission::{headless, submitted};
use std::alloc::{AllocError, Global};
use vd_base::{List, Name, Shelf, Sink, Text};
use vd_clight::Program;
use vd_link::program;
use vd_linkage::is_plain;
use vd_machine::{Turn, run};

/// What is written, and whether all went well.
#[derive(Drop)]
struct Played {
    success: bool,
    lines: List<Text>,
}

/// The run of a program, or that there is none.
fn play_program(
    alloc: Global,
    program: &Option<Program>,
    turns: &List<Turn>,
) -> Result<Played, AllocError>
    requires { length turns.now ≤ turn_limit }
    ensures { IfOk result (λ played. IsPlayed program.now turns.now (answer_in played)) }
{
    match program {
        Some(program) => {
            let outcome = run(alloc, program, turns)?;
            let lines = lines_of(alloc, &outcome)?;
            Ok(Played {
                success: goes_well(&outcome),
                lines,
            })
        }
        None => {
            let mut lines = List::new(alloc);
            lines.push(Text::new(alloc, b"no program")?)?;
            Ok(Played {
                success: false,
                lines,
            })
        }
    }
}

/// Whether no text speaks of an interface.
fn are_plain(alloc: Global, texts: &[Text]) -> Result<bool, AllocError>
    ensures { IfOk result (λ plain. IsTrue plain ↔ All IsPlainText texts.now) }
{
    for text in texts {
        if !is_plain(alloc, text)? {
            return Ok(false);
        }
    }
    Ok(true)
}

/// The run of the link's program over the texts, which all have head lines. It is None where they are outside the form.
fn play_texts(
    alloc: Global,
    link: &Name,
    turns: &List<Turn>,
    texts: List<Text>,
) -> Result<Option<Played>, AllocError>
    requires headed { All IsHeaded texts }
    requires few { length turns.now ≤ turn_limit }
    ensures { IfOk result (λ found. MatchOption found (All IsPlainText texts → ⊥)
        (λ played. (schedule : Bytes) → IsSchedule schedule turns.now → Plays link.now schedule texts (answer_in played))) }
{
    if !are_plain(alloc, texts.as_slice())? {
        return Ok(None);
    }
    let snapshot = match submitted(alloc, texts)? {
        Some(snapshot) => snapshot,
        None => unreachable!(),
    };
    let program = program(alloc, &snapshot, link)?;
    let played = play_program(alloc, &program, turns)?;
    Ok(Some(played))
}

/// Writes what was played.
fn put_played<'a, K: Sink>(alloc: Global, played: &Played, out: &mut K) -> Ending<'a>
    ensures finishes { Finishes (answer_in played.now).success (written_text (answer_in played.now))
        (record { written = K.written out.old; written_after = K.written out.new; faults = K.faults out.old; faults_after = K.faults out.new }) result }
    ensures faults { K.faults out.old ≤ K.faults out.new }
{
    finish(
        put_lines(alloc, out, played.lines.as_slice()),
        played.success,
    )
}

/// Runs the link's program under a schedule, where the texts are in the form.
fn play_read<'a, K: Sink>(
    alloc: Global,
    link: &Name,
    turns: &List<Turn>,
    files: &'a [String],
    texts: List<Text>,
    out: &mut K,
) -> Ending<'a>
    requires same { length files.now ≡ length texts }
    requires few { length turns.now ≤ turn_limit }
    ensures means { (words : CommandLine) (shelf : ShelfSeen) (file read : Bytes) → IsRunRead words shelf link.now file (map string_bytes files.now) read texts → IsSoleSchedule read turns.now
        → Means result words shelf (record { written = K.written out.old; written_after = K.written out.new; faults = K.faults out.old; faults_after = K.faults out.new }) }
    ensures faults { K.faults out.old ≤ K.faults out.new }
{
    let place = match headless(alloc, texts.as_slice()) {
        Ok(place) => place,
        Err(_) => return Ending::Memory,
    };
    if let Some(at) = place {
        return Ending::Malformed(files[at].as_str(), 1);
    }
    match play_texts(alloc, link, turns, texts) {
        Ok(Some(played)) => put_played(alloc, &played, out),
        Ok(None) => Ending::Unbuilt,
        Err(_) => Ending::Memory,
    }
}

/// Runs the program of the link over the files under the schedule.
pub fn play<'a, H: Shelf, K: Sink>(
    alloc: Global,
    link: &Name,
    schedule: &'a String,
    files: &'a [String],
    shelf: &mut H,
    out: &mut K,
) -> Ending<'a>
    ensures means { (words : CommandLine) → command_of words ≡ Some (Play link.now (string_bytes schedule.now) (map string_bytes files.now)) → Means result words
        (record { held = H.held shelf.old; taken = H.taken shelf.old; taken_after = H.taken shelf.new; faults = H.faults shelf.old; faults_after = H.faults shelf.new })
        (record { written = K.written out.old; written_after = K.written out.new; faults = K.faults out.old; faults_after = K.faults out.new }) }
    ensures held { (name : Bytes) → H.held shelf.new name ≡ H.held shelf.old name }
    ensures taken { H.taken shelf.old ≤ H.taken shelf.new }
    ensures shelf_faults { H.faults shelf.old ≤ H.faults shelf.new }
    ensures out_faults { K.faults out.old ≤ K.faults out.new }
{
    let read = match read_schedule(alloc, schedule, shelf) {
        Ok(read) => read,
        Err(fault) => return ending_of(fault),
    };
    let texts = match read_texts(alloc, files, shelf) {
        Ok(texts) => texts,
        Err(fault) => return ending_of(fault),
    };
    match read {
        Schedule::Turns(turns) => play_read(alloc, link, &turns, files, texts, out),
        Schedule::Malformed(line) => Ending::Malformed(schedule.as_str(), line as u64),
    }
}
