//! The lines that `play` writes of a run.
ghost use Rattle.std.specs.Prelude.{◌≡◌, ◌++◌, ◌∷◌, IfOk, codes, decimal};
ghost use Rattle.vd_commands.specs.Play.{cause_word, end_line, goes_well, is_unstuck, lines_of, race_line, signed, turns_line, value_words};

use std::alloc::{AllocError, Global};
use vd_base::{List, Text};
use vd_machine::{Cause, End, Outcome, Spot};
use vd_mem::Value;

fn turns_line(alloc: Global, turns: u32) -> Result<Text, AllocError>
    ensures { IfOk result (λ line. line ≡ turns_line turns) }
{
    let line = format!(in alloc; "turns {turns}")?;
    Text::new(alloc, line.as_bytes())
}

fn cause_word(cause: Cause) -> &'static str
    ensures { result.now ≡ cause_word cause }
{
    match cause {
        Cause::Undef => "undef",
        Cause::Overflow => "overflow",
        Cause::Divide => "divide",
        Cause::Shift => "shift",
        Cause::Address => "address",
        Cause::LockCell => "lockcell",
        Cause::NotHeld => "notheld",
        Cause::Free => "free",
        Cause::Far => "far",
        Cause::Pointer => "pointer",
    }
}

/// The line of a main that returned a 32-bit integer, which is written as signed.
fn int_line(alloc: Global, n: u32) -> Result<Text, AllocError>
    ensures { IfOk result (λ line. line ≡ codes "end main int " ++ signed n) }
{
    if n < 2147483648 {
        let line = format!(in alloc; "end main int {n}")?;
        Text::new(alloc, line.as_bytes())
    } else {
        let below = 4294967296 - n as u64;
        let line = format!(in alloc; "end main int -{below}")?;
        Text::new(alloc, line.as_bytes())
    }
}

fn pointer_line(alloc: Global, block: u32, offset: u32) -> Result<Text, AllocError>
    ensures { IfOk result (λ line. line ≡ codes "end main ptr " ++ (decimal block ++ 32 ∷ decimal offset)) }
{
    let line = format!(in alloc; "end main ptr {block} {offset}")?;
    Text::new(alloc, line.as_bytes())
}

fn main_line(alloc: Global, value: Value) -> Result<Text, AllocError>
    ensures { IfOk result (λ line. line ≡ codes "end main " ++ value_words value) }
{
    match value {
        Value::Undef => Text::new(alloc, b"end main undef"),
        Value::Int(n) => int_line(alloc, n),
        Value::Ptr(block, offset) => pointer_line(alloc, block, offset),
    }
}

fn stuck_line(alloc: Global, thread: u32, cause: Cause) -> Result<Text, AllocError>
    ensures { IfOk result (λ line. line ≡ codes "end stuck " ++ (decimal thread ++ 32 ∷ cause_word cause)) }
{
    let word = cause_word(cause);
    let line = format!(in alloc; "end stuck {thread} {word}")?;
    Text::new(alloc, line.as_bytes())
}

fn end_line(alloc: Global, end: End) -> Result<Text, AllocError>
    ensures { IfOk result (λ line. line ≡ end_line end) }
{
    match end {
        End::Main(value) => main_line(alloc, value),
        End::Stuck(thread, cause) => stuck_line(alloc, thread, cause),
        End::Open => Text::new(alloc, b"end open"),
    }
}

fn race_line(alloc: Global, race: Option<(u32, u32, u32, Spot)>) -> Result<Text, AllocError>
    ensures { IfOk result (λ line. line ≡ race_line race) }
{
    match race {
        None => Text::new(alloc, b"race none"),
        Some((turns, first, second, spot)) => {
            let block = spot.block;
            let offset = spot.offset;
            let line = format!(in alloc; "race {turns} {first} {second} {block} {offset}")?;
            Text::new(alloc, line.as_bytes())
        }
    }
}

/// The lines of a run: its turns, its end and its first race.
pub fn lines_of(alloc: Global, outcome: &Outcome) -> Result<List<Text>, AllocError>
    ensures { IfOk result (λ lines. lines ≡ lines_of outcome.now) }
{
    let mut lines = List::new(alloc);
    lines.push(turns_line(alloc, outcome.turns)?)?;
    lines.push(end_line(alloc, outcome.end)?)?;
    lines.push(race_line(alloc, outcome.race)?)?;
    Ok(lines)
}

fn is_unstuck(end: End) -> bool
    ensures { result ≡ is_unstuck end }
{
    match end {
        End::Main(_) => true,
        End::Stuck(_, _) => false,
        End::Open => true,
    }
}

/// Whether a run is neither stuck nor has a race.
pub fn goes_well(outcome: &Outcome) -> bool
    ensures { result ≡ goes_well outcome.now }
{
    is_unstuck(outcome.end) && outcome.race.is_none()
}
