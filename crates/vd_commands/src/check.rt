//! The command `check`.
ghost use Rattle.std.specs.Prelude.{◌≡◌, ◌≤◌, ◌++◌, map, string_bytes, Some, IfOk, MatchOption, codes};
ghost use Rattle.vd_commands.specs.Command.{Bytes, CommandLine, command_of, Check};
ghost use Rattle.vd_commands.specs.Answer.{AreCheckable, Checks, answer_of, written_text};
ghost use Rattle.vd_commands.specs.Call.{Means};
ghost use Rattle.vd_commands.specs.Steps.{Finishes};

use crate::ending::{Ending, finish};
use crate::files::{ending_of, read_files};
use crate::output::{put_line, put_lines};
use crate::submission::submitted;
use std::alloc::{AllocError, Global};
use vd_base::{List, Name, Shelf, Sink, Text};
use vd_check::try_scratch;
use vd_store::Outcome;

fn no_link(alloc: Global, link: &Name) -> Result<Text, AllocError>
    ensures { IfOk result (λ line. line ≡ codes "no link " ++ link.now) }
{
    let mut line = Text::new(alloc, b"no link ")?;
    line.append(link.as_bytes())?;
    Ok(line)
}

/// Writes the report of an outcome, or that there is no such link.
fn put_outcome<'a, K: Sink>(
    alloc: Global,
    outcome: &Outcome,
    link: &Name,
    out: &mut K,
) -> Ending<'a>
    ensures finishes { Finishes (answer_of link.now outcome.now).success (written_text (answer_of link.now outcome.now))
        (record { written = K.written out.old; written_after = K.written out.new; faults = K.faults out.old; faults_after = K.faults out.new }) result }
    ensures faults { K.faults out.old ≤ K.faults out.new }
{
    match outcome {
        Outcome::Accepted(_, report) => finish(
            put_lines(alloc, out, report.lines.as_slice()),
            true,
        ),
        Outcome::Rejected(report) => finish(put_lines(alloc, out, report.lines.as_slice()), false),
        Outcome::NoLink => match no_link(alloc, link) {
            Ok(line) => finish(put_line(alloc, out, &line), false),
            Err(_) => Ending::Memory,
        },
    }
}

/// The outcome of the link over the texts. It is None where they are outside the form.
fn outcome_of(alloc: Global, texts: List<Text>, link: &Name) -> Result<Option<Outcome>, AllocError>
    ensures { IfOk result (λ found. MatchOption found (AreCheckable texts → ⊥) (λ o. Checks link.now texts (answer_of link.now o))) }
{
    if texts.len() != 2 {
        return Ok(None);
    }
    let snapshot = match submitted(alloc, texts)? {
        Some(snapshot) => snapshot,
        None => return Ok(None),
    };
    try_scratch(alloc, &snapshot, link)
}

/// Checks the link over the files.
pub fn check<'a, H: Shelf, K: Sink>(
    alloc: Global,
    link: &Name,
    files: &'a [String],
    shelf: &mut H,
    out: &mut K,
) -> Ending<'a>
    ensures means { (words : CommandLine) → command_of words ≡ Some (Check link.now (map string_bytes files.now)) → Means result words
        (record { held = H.held shelf.old; taken = H.taken shelf.old; taken_after = H.taken shelf.new; faults = H.faults shelf.old; faults_after = H.faults shelf.new })
        (record { written = K.written out.old; written_after = K.written out.new; faults = K.faults out.old; faults_after = K.faults out.new }) }
    ensures held { (name : Bytes) → H.held shelf.new name ≡ H.held shelf.old name }
    ensures taken { H.taken shelf.old ≤ H.taken shelf.new }
    ensures shelf_faults { H.faults shelf.old ≤ H.faults shelf.new }
    ensures out_faults { K.faults out.old ≤ K.faults out.new }
{
    let texts = match read_files(alloc, files, shelf) {
        Ok(texts) => texts,
        Err(fault) => return ending_of(fault),
    };
    match outcome_of(alloc, texts, link) {
        Ok(Some(outcome)) => put_outcome(alloc, &outcome, link, out),
        Ok(None) => Ending::Unbuilt,
        Err(_) => Ending::Memory,
    }
}
