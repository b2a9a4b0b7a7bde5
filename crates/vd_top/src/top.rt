//! The top calls.
ghost use Rattle.std.specs.Prelude.{◌≡◌, ◌≤◌, map, string_bytes};
ghost use Rattle.vd_commands.specs.Command.{Bytes};
ghost use Rattle.vd_commands.specs.Call.{Means};
ghost use Rattle.vd_commands.specs.Seen.{CountsGrow};
ghost use Rattle.vd_top.specs.Completeness.{IsComplete};
ghost use Rattle.vd_top.specs.Ends.{Ends};

use std::alloc::Global;
use vd_base::{Shelf, Sink};
use vd_commands::check::check;
use vd_commands::command::{Words, command_of};
use vd_commands::ending::{Ending, status_of, tell};
use vd_commands::play::play;

fn run<'a, H: Shelf, K: Sink>(
    alloc: Global,
    words: &'a [String],
    shelf: &mut H,
    out: &mut K,
) -> Ending<'a>
    ensures means { Means result (map string_bytes words.now)
        (record { held = H.held shelf.old; taken = H.taken shelf.old; taken_after = H.taken shelf.new; faults = H.faults shelf.old; faults_after = H.faults shelf.new })
        (record { written = K.written out.old; written_after = K.written out.new; faults = K.faults out.old; faults_after = K.faults out.new }) }
    ensures held { (name : Bytes) → H.held shelf.new name ≡ H.held shelf.old name }
    ensures taken { H.taken shelf.old ≤ H.taken shelf.new }
    ensures shelf_faults { H.faults shelf.old ≤ H.faults shelf.new }
    ensures out_faults { K.faults out.old ≤ K.faults out.new }
{
    match command_of(alloc, words) {
        Ok(None) => Ending::Usage,
        Ok(Some(Words::Unbuilt)) => Ending::Unbuilt,
        Ok(Some(Words::Check(link, files))) => check(alloc, &link, files, shelf, out),
        Ok(Some(Words::Play(link, schedule, files))) => {
            play(alloc, &link, schedule, files, shelf, out)
        }
        Err(_) => Ending::Memory,
    }
}

/// Does what the words ask, for every command that waits for nobody.
pub fn plain_top<H: Shelf, K: Sink, E: Sink>(
    alloc: Global,
    words: &[String],
    shelf: &mut H,
    out: &mut K,
    err: &mut E,
) -> u8
    ensures ends { Ends result (map string_bytes words.now)
        (record { held = H.held shelf.old; taken = H.taken shelf.old; taken_after = H.taken shelf.new; faults = H.faults shelf.old; faults_after = H.faults shelf.new })
        (record { written = K.written out.old; written_after = K.written out.new; faults = K.faults out.old; faults_after = K.faults out.new })
        (record { written = E.written err.old; written_after = E.written err.new; faults = E.faults err.old; faults_after = E.faults err.new }) }
    ensures complete { IsComplete result (map string_bytes words.now)
        (record { held = H.held shelf.old; taken = H.taken shelf.old; taken_after = H.taken shelf.new; faults = H.faults shelf.old; faults_after = H.faults shelf.new })
        (record { written = K.written out.old; written_after = K.written out.new; faults = K.faults out.old; faults_after = K.faults out.new }) }
    ensures held { (name : Bytes) → H.held shelf.new name ≡ H.held shelf.old name }
    ensures counts { CountsGrow
        (record { held = H.held shelf.old; taken = H.taken shelf.old; taken_after = H.taken shelf.new; faults = H.faults shelf.old; faults_after = H.faults shelf.new })
        (record { written = K.written out.old; written_after = K.written out.new; faults = K.faults out.old; faults_after = K.faults out.new })
        (record { written = E.written err.old; written_after = E.written err.new; faults = E.faults err.old; faults_after = E.faults err.new }) }
{
    let ending = run(alloc, words, shelf, out);
    let told = tell(alloc, ending, err);
    status_of(told)
}

/// Does what the words ask.
pub fn desk_top<H: Shelf, K: Sink, E: Sink>(
    alloc: Global,
    words: &[String],
    shelf: &mut H,
    out: &mut K,
    err: &mut E,
) -> u8
    ensures ends { Ends result (map string_bytes words.now)
        (record { held = H.held shelf.old; taken = H.taken shelf.old; taken_after = H.taken shelf.new; faults = H.faults shelf.old; faults_after = H.faults shelf.new })
        (record { written = K.written out.old; written_after = K.written out.new; faults = K.faults out.old; faults_after = K.faults out.new })
        (record { written = E.written err.old; written_after = E.written err.new; faults = E.faults err.old; faults_after = E.faults err.new }) }
    ensures complete { IsComplete result (map string_bytes words.now)
        (record { held = H.held shelf.old; taken = H.taken shelf.old; taken_after = H.taken shelf.new; faults = H.faults shelf.old; faults_after = H.faults shelf.new })
        (record { written = K.written out.old; written_after = K.written out.new; faults = K.faults out.old; faults_after = K.faults out.new }) }
    ensures held { (name : Bytes) → H.held shelf.new name ≡ H.held shelf.old name }
    ensures counts { CountsGrow
        (record { held = H.held shelf.old; taken = H.taken shelf.old; taken_after = H.taken shelf.new; faults = H.faults shelf.old; faults_after = H.faults shelf.new })
        (record { written = K.written out.old; written_after = K.written out.new; faults = K.faults out.old; faults_after = K.faults out.new })
        (record { written = E.written err.old; written_after = E.written err.new; faults = E.faults err.old; faults_after = E.faults err.new }) }
{
    plain_top(alloc, words, shelf, out, err)
}
