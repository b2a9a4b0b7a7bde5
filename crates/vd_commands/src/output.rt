//! What is written to the output, a line by one put.
ghost use Rattle.std.specs.Prelude.{◌≡◌, ◌≤◌, ◌++◌, ◌∷◌, [], IfOk};
ghost use Rattle.vd_outline.specs.Lines.{joined};
ghost use Rattle.vd_commands.specs.Steps.{Writes};

use std::alloc::{AllocError, Global};
use vd_base::{Sink, SinkFault, Text};

fn with_line_feed(alloc: Global, line: &Text) -> Result<Text, AllocError>
    ensures { IfOk result (λ piece. piece ≡ line.now ++ 10 ∷ []) }
{
    let mut piece = line.copy(alloc)?;
    piece.append(b"\n")?;
    Ok(piece)
}

/// Writes a line and a line feed.
pub fn put_line<K: Sink>(alloc: Global, out: &mut K, line: &Text) -> Result<(), SinkFault>
    ensures { Writes (line.now ++ 10 ∷ []) (record { written = K.written out.old; written_after = K.written out.new; faults = K.faults out.old; faults_after = K.faults out.new }) result }
{
    let Ok(piece) = with_line_feed(alloc, line) else {
        return Err(SinkFault::Memory);
    };
    out.put_all(piece.as_bytes())
}

/// Writes lines, up to the first that is not written whole.
pub fn put_lines<K: Sink>(alloc: Global, out: &mut K, lines: &[Text]) -> Result<(), SinkFault>
    ensures { Writes (joined lines.now) (record { written = K.written out.old; written_after = K.written out.new; faults = K.faults out.old; faults_after = K.faults out.new }) result }
{
    for line in lines {
        match put_line(alloc, out, line) {
            Ok(()) => {}
            Err(fault) => return Err(fault),
        }
    }
    Ok(())
}
