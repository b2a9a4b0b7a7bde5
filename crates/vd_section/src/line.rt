//! The line `end`.

ghost use Rattle.std.specs.Prelude.{◌≡◌, ◌≤◌, ◌+◌, length, true, IfSome};
ghost use Rattle.vd_section.specs.EndLine as end;

use crate::word::spells;

fn begins_end(bytes: &[u8]) -> bool
    ensures test { result ≡ end.begins_end bytes.now }
    ensures within { result ≡ true → 4 ≤ length bytes.now }
{
    if bytes.len() < 4 {
        return false;
    }
    let (line, _) = bytes.split_at(4);
    spells(line, b"end\n")
}

/// How many bytes stand before the first line `end`.
pub fn end_of(body: &[u8]) -> Option<usize>
    ensures value { result ≡ end.end_at true body.now }
    ensures within { IfSome result (λ n. n + 4 ≤ length body.now) }
{
    let mut left = body;
    let mut starts = true;
    let mut n = 0;
    'bytes: while !left.is_empty() {
        if starts && begins_end(left) {
            return Some(n);
        }
        starts = left[0] == 10;
        let (_, rest) = left.split_at(1);
        left = rest;
        n += 1;
    }
    None
}
