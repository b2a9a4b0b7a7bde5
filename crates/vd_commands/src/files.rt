//! The files of a command.
ghost use Rattle.std.specs.Prelude.{◌≡◌, ◌≤◌, map, string_bytes, Some, IfOk, IfErr};
ghost use Rattle.vd_commands.specs.Call.{Means};
ghost use Rattle.vd_commands.specs.Command.{Bytes, Check, Command, CommandLine, command_of};
ghost use Rattle.vd_commands.specs.Reading.{AreRead, IsRead};
ghost use Rattle.vd_commands.specs.Seen.{ShelfSeen, SinkSeen, IsUntouched};
ghost use Rattle.vd_commands.specs.Steps.{FileStops, ReadStops};

use crate::ending::Ending;
use std::alloc::Global;
use vd_base::{List, Shelf, ShelfFault, Text};

/// The most bytes that a file may have.
const FILE_LIMIT: usize = 1048576;

/// Why files were not read.
#[derive(Clone, Copy)]
pub enum ReadFault<'a> {
    CannotRead(&'a str),
    /// What passes a limit, and the limit.
    Limit(&'a str, u64),
    Memory,
}

/// How a call ends whose files were not read.
pub fn ending_of<'a>(fault: ReadFault<'a>) -> Ending<'a>
    ensures { (words : CommandLine) (command : Command) (shelf : ShelfSeen) (out : SinkSeen) → command_of words ≡ Some command → ReadStops command shelf fault.entry → IsUntouched out → Means result words shelf out }
{
    match fault {
        ReadFault::CannotRead(file) => Ending::CannotRead(file),
        ReadFault::Limit(what, bound) => Ending::Limit(what, bound),
        ReadFault::Memory => Ending::Memory,
    }
}

/// Reads a file that has no more bytes than a file may have.
pub fn read_file<'a, H: Shelf>(
    alloc: Global,
    file: &'a String,
    shelf: &mut H,
) -> Result<Text, ReadFault<'a>>
    ensures read { IfOk result (IsRead (H.held shelf.old) (string_bytes file.now)) }
    ensures stops { IfErr result (FileStops (string_bytes file.now)
        (record { held = H.held shelf.old; taken = H.taken shelf.old; taken_after = H.taken shelf.new; faults = H.faults shelf.old; faults_after = H.faults shelf.new })) }
    ensures held { (name : Bytes) → H.held shelf.new name ≡ H.held shelf.old name }
    ensures taken { H.taken shelf.old ≤ H.taken shelf.new }
    ensures faults { H.faults shelf.old ≤ H.faults shelf.new }
{
    match shelf.read(alloc, file.as_str(), FILE_LIMIT) {
        Ok(bytes) => Ok(Text::from_vec(bytes)),
        Err(ShelfFault::Failed) => Err(ReadFault::CannotRead(file.as_str())),
        Err(ShelfFault::TooLong) => Err(ReadFault::Limit(file.as_str(), FILE_LIMIT as u64)),
        Err(ShelfFault::Memory) => Err(ReadFault::Memory),
    }
}

/// Reads the files of a check in their order, up to the first that cannot be read or is too long.
pub fn read_files<'a, H: Shelf>(
    alloc: Global,
    files: &'a [String],
    shelf: &mut H,
) -> Result<List<Text>, ReadFault<'a>>
    ensures read { IfOk result (λ texts. AreRead (H.held shelf.old) (map string_bytes files.now) texts) }
    ensures stops { (link : Bytes) → IfErr result (ReadStops (Check link (map string_bytes files.now))
        (record { held = H.held shelf.old; taken = H.taken shelf.old; taken_after = H.taken shelf.new; faults = H.faults shelf.old; faults_after = H.faults shelf.new })) }
    ensures held { (name : Bytes) → H.held shelf.new name ≡ H.held shelf.old name }
    ensures taken { H.taken shelf.old ≤ H.taken shelf.new }
    ensures faults { H.faults shelf.old ≤ H.faults shelf.new }
{
    let mut texts = List::new(alloc);
    for file in files {
        match read_file(alloc, file, shelf) {
            Ok(text) => {
                if texts.push(text).is_err() {
                    return Err(ReadFault::Memory);
                }
            }
            Err(fault) => return Err(fault),
        }
    }
    Ok(texts)
}
