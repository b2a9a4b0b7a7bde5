//! What `play` reads: a schedule, and texts with limits over all of them.
ghost use Rattle.std.specs.Prelude.{◌≡◌, ◌≤◌, ◌++◌, ◌∷◌, [], map, string_bytes, IfOk, IfErr, OnOk, MatchResult, length};
ghost use Rattle.vd_schedule.specs.Schedule.{HasTooMany};
ghost use Rattle.vd_commands.specs.Command.{Bytes, Play};
ghost use Rattle.vd_commands.specs.Gathering.{IsGathered, OverStops, IsScheduleOf, TurnsStop};
ghost use Rattle.vd_commands.specs.Limits.{HasFewNames, Joins, bytes_of, byte_limit};
ghost use Rattle.vd_commands.specs.Reading.{AreRead, IsRead, file_limit};
ghost use Rattle.vd_commands.specs.Steps.{ReadStops};

use crate::files::{ReadFault, read_file};
use std::alloc::{AllocError, Global};
use std::collections::BTreeSet;
use vd_base::{List, Name, Shelf, Text};
use vd_machine::Turn;
use vd_outline::head_of;
use vd_schedule::{ScheduleFault, parse_schedule};

/// The most turns of a schedule.
const TURN_LIMIT: u64 = 1000000;

/// The most bytes of all files together.
const BYTE_LIMIT: u64 = 268435456;

/// The most names of texts.
const NAME_LIMIT: usize = 4096;

/// A schedule as it was read.
#[derive(Drop)]
pub enum Schedule {
    Turns(List<Turn>),
    /// The first malformed line, from 1.
    Malformed(usize),
}

/// The schedule that the bytes of a file hold.
fn schedule_of<'a>(alloc: Global, bytes: &[u8], file: &'a str) -> Result<Schedule, ReadFault<'a>>
    ensures { MatchResult result (IsScheduleOf bytes.now) (TurnsStop bytes.now file.now) }
{
    match parse_schedule(alloc, bytes) {
        Ok(turns) => Ok(Schedule::Turns(turns)),
        Err(ScheduleFault::TooMany) => Err(ReadFault::Limit(file, TURN_LIMIT)),
        Err(ScheduleFault::Bad(line)) => Ok(Schedule::Malformed(line)),
        Err(ScheduleFault::Memory(_)) => Err(ReadFault::Memory),
    }
}

/// Reads a schedule, which may be outside its grammar.
pub fn read_schedule<'a, H: Shelf>(
    alloc: Global,
    file: &'a String,
    shelf: &mut H,
) -> Result<Schedule, ReadFault<'a>>
    ensures read { IfOk result (λ schedule. (text : Bytes) × IsRead (H.held shelf.old) (string_bytes file.now) text × IsScheduleOf text schedule) }
    ensures stops { (link : Bytes) (files : List Bytes) → IfErr result (ReadStops (Play link (string_bytes file.now) files)
        (record { held = H.held shelf.old; taken = H.taken shelf.old; taken_after = H.taken shelf.new; faults = H.faults shelf.old; faults_after = H.faults shelf.new })) }
    ensures held { (name : Bytes) → H.held shelf.new name ≡ H.held shelf.old name }
    ensures taken { H.taken shelf.old ≤ H.taken shelf.new }
    ensures faults { H.faults shelf.old ≤ H.faults shelf.new }
{
    match read_file(alloc, file, shelf) {
        Ok(text) => schedule_of(alloc, text.as_bytes(), file.as_str()),
        Err(fault) => Err(fault),
    }
}

/// Adds the name of a text's head line, where it has one.
fn add_name(alloc: Global, names: &mut BTreeSet<Name>, text: &Text) -> Result<(), AllocError>
    ensures { OnOk result (Joins names.old.keys text.now names.new.keys) }
{
    match head_of(alloc, text)? {
        Some((_, name)) => {
            names.insert(name)?;
            Ok(())
        }
        None => Ok(()),
    }
}

/// The texts read so far, with their names and their bytes together.
#[derive(Drop)]
struct Gathered {
    texts: List<Text>,
    names: BTreeSet<Name>,
    bytes: u64,
}

impl Gathered {
    fn new(alloc: Global) -> Gathered
        ensures gathered { IsGathered result }
        ensures empty { result.texts ≡ [] }
    {
        Gathered {
            texts: List::new(alloc),
            names: BTreeSet::new(alloc),
            bytes: 0,
        }
    }

    /// Adds a text, unless a limit is passed with it.
    fn add<'a>(&mut self, alloc: Global, text: Text) -> Result<(), ReadFault<'a>>
        requires gathered { IsGathered self.old }
        requires short { length text ≤ file_limit }
        ensures gathered { OnOk result (IsGathered self.new) }
        ensures texts { OnOk result (self.new.texts ≡ self.old.texts ++ text ∷ []) }
        ensures stops { IfErr result (OverStops (self.old.texts ++ text ∷ [])) }
    {
        let bytes = self.bytes + text.len() as u64;
        if bytes > BYTE_LIMIT {
            return Err(ReadFault::Limit("bytes", BYTE_LIMIT));
        }
        if add_name(alloc, &mut self.names, &text).is_err() {
            return Err(ReadFault::Memory);
        }
        if self.names.len() > NAME_LIMIT {
            return Err(ReadFault::Limit("names", NAME_LIMIT as u64));
        }
        if self.texts.push(text).is_err() {
            return Err(ReadFault::Memory);
        }
        self.bytes = bytes;
        Ok(())
    }
}

/// Reads the texts of a run in their order, up to the first that cannot be read, is too long, or with which all together pass a limit.
pub fn read_texts<'a, H: Shelf>(
    alloc: Global,
    files: &'a [String],
    shelf: &mut H,
) -> Result<List<Text>, ReadFault<'a>>
    ensures read { IfOk result (λ texts. AreRead (H.held shelf.old) (map string_bytes files.now) texts) }
    ensures bytes { IfOk result (λ texts. bytes_of texts ≤ byte_limit) }
    ensures names { IfOk result HasFewNames }
    ensures stops { (link schedule turns : Bytes) → IsRead (H.held shelf.old) schedule turns → (HasTooMany turns → ⊥)
        → IfErr result (ReadStops (Play link schedule (map string_bytes files.now))
        (record { held = H.held shelf.old; taken = H.taken shelf.old; taken_after = H.taken shelf.new; faults = H.faults shelf.old; faults_after = H.faults shelf.new })) }
    ensures held { (name : Bytes) → H.held shelf.new name ≡ H.held shelf.old name }
    ensures taken { H.taken shelf.old ≤ H.taken shelf.new }
    ensures faults { H.faults shelf.old ≤ H.faults shelf.new }
{
    let mut gathered = Gathered::new(alloc);
    for file in files {
        match read_file(alloc, file, shelf) {
            Ok(text) => match gathered.add(alloc, text) {
                Ok(()) => {}
                Err(fault) => return Err(fault),
            },
            Err(fault) => return Err(fault),
        }
    }
    Ok(gathered.texts)
}
