//! How a call ends, its status, and its line on the error stream.
ghost use Rattle.std.specs.Prelude.{◌≡◌, ◌⊎◌, ◌≤◌, ◌++◌, ◌∷◌, Some, IfOk, codes, decimal};
ghost use Rattle.vd_commands.specs.Command.{Bytes};
ghost use Rattle.vd_commands.specs.Call.{TellsEnding, status_of};
ghost use Rattle.vd_commands.specs.Seen.{SinkSeen};
ghost use Rattle.vd_commands.specs.Steps.{PutsLine, Writes, Finishes};

use std::alloc::{AllocError, Global};
use vd_base::{Sink, SinkFault, Text};

/// How a call ended.
#[derive(Clone, Copy)]
pub enum Ending<'a> {
    /// All that was asked for went well.
    Accepted,
    /// The answer is no: a refusal, or no such link.
    Rejected,
    /// The words are no command.
    Usage,
    CannotRead(&'a str),
    CannotWrite,
    /// A file is outside its grammar: the file, and its first malformed line, from 1.
    Malformed(&'a str, u64),
    /// Something passes a limit: its name, and the limit.
    Limit(&'a str, u64),
    Memory,
    /// The command is not built, or the files are outside the form that is.
    Unbuilt,
}

/// How a call ends whose answer was written so, by whether all went well.
pub fn finish<'a>(written: Result<(), SinkFault>, success: bool) -> Ending<'a>
    ensures { (text : Bytes) (seen : SinkSeen) → Writes text seen written → Finishes success text seen result }
{
    match written {
        Ok(()) => {
            if success {
                Ending::Accepted
            } else {
                Ending::Rejected
            }
        }
        Err(SinkFault::Failed) => Ending::CannotWrite,
        Err(SinkFault::Memory) => Ending::Memory,
    }
}

/// The status of an ending.
pub fn status_of(ending: Ending) -> u8
    ensures { result ≡ status_of ending.entry }
{
    match ending {
        Ending::Accepted => 0,
        Ending::Rejected => 1,
        Ending::Usage => 2,
        Ending::CannotRead(_) => 3,
        Ending::CannotWrite => 4,
        Ending::Malformed(_, _) => 5,
        Ending::Limit(_, _) => 6,
        Ending::Memory => 7,
        Ending::Unbuilt => 8,
    }
}

fn cannot_read_line(alloc: Global, file: &str) -> Result<Text, AllocError>
    ensures { IfOk result (λ line. line ≡ codes "desk: cannot read " ++ (file.now ++ codes "\n")) }
{
    let mut line = Text::new(alloc, b"desk: cannot read ")?;
    line.append(file.as_bytes())?;
    line.append(b"\n")?;
    Ok(line)
}

fn malformed_line(alloc: Global, file: &str, number: u64) -> Result<Text, AllocError>
    ensures { IfOk result (λ line. line ≡ codes "desk: malformed " ++ (file.now ++ (32 ∷ (decimal number ++ codes "\n")))) }
{
    let line = format!(in alloc; "desk: malformed {file} {number}\n")?;
    Text::new(alloc, line.as_bytes())
}

fn limit_line(alloc: Global, what: &str, bound: u64) -> Result<Text, AllocError>
    ensures { IfOk result (λ line. line ≡ codes "desk: limit " ++ (what.now ++ (32 ∷ (decimal bound ++ codes "\n")))) }
{
    let line = format!(in alloc; "desk: limit {what} {bound}\n")?;
    Text::new(alloc, line.as_bytes())
}

/// Puts the line of an ending, and says how the call ends then.
fn put_line<'a, E: Sink>(line: &[u8], ending: Ending<'a>, err: &mut E) -> Ending<'a>
    ensures puts { PutsLine line.now ending.entry result (record { written = E.written err.old; written_after = E.written err.new; faults = E.faults err.old; faults_after = E.faults err.new }) }
    ensures faults { E.faults err.old ≤ E.faults err.new }
{
    match err.put_all(line) {
        Ok(()) => ending,
        Err(SinkFault::Failed) => ending,
        Err(SinkFault::Memory) => Ending::Memory,
    }
}

/// Puts a line that had to be made.
fn put_made<'a, E: Sink>(
    line: Result<Text, AllocError>,
    ending: Ending<'a>,
    err: &mut E,
) -> Ending<'a>
    ensures puts { (text : Bytes) → IfOk line (λ made. made ≡ text) → PutsLine text ending.entry result (record { written = E.written err.old; written_after = E.written err.new; faults = E.faults err.old; faults_after = E.faults err.new }) }
    ensures faults { E.faults err.old ≤ E.faults err.new }
{
    match line {
        Ok(line) => put_line(line.as_bytes(), ending, err),
        Err(_) => Ending::Memory,
    }
}

/// Writes the line of an ending, and says how the call ends then. Where there is no line nothing is put.
pub fn tell<'a, E: Sink>(alloc: Global, ending: Ending<'a>, err: &mut E) -> Ending<'a>
    ensures line { TellsEnding result (record { written = E.written err.old; written_after = E.written err.new; faults = E.faults err.old; faults_after = E.faults err.new }) }
    ensures same { (result ≡ ending.entry) ⊎ (result ≡ Ending.Memory) }
    ensures faults { E.faults err.old ≤ E.faults err.new }
{
    match ending {
        Ending::Accepted | Ending::Rejected => ending,
        Ending::Usage => put_line(b"desk: usage\n", ending, err),
        Ending::CannotRead(file) => put_made(cannot_read_line(alloc, file), ending, err),
        Ending::CannotWrite => put_line(b"desk: cannot write\n", ending, err),
        Ending::Malformed(file, line) => put_made(malformed_line(alloc, file, line), ending, err),
        Ending::Limit(what, bound) => put_made(limit_line(alloc, what, bound), ending, err),
        Ending::Memory => put_line(b"desk: memory\n", ending, err),
        Ending::Unbuilt => put_line(b"desk: unbuilt\n", ending, err),
    }
}

/// Ends a call for which there is no memory to read its words.
pub fn no_memory<E: Sink>(err: &mut E) -> u8
    ensures { result ≡ 7 }
{
    let _ = put_line(b"desk: memory\n", Ending::Memory, err);
    7
}
