//! Runs of bytes.

ghost use Rattle.std.specs.Prelude.{◌≡◌, ◌≤◌, ◌+◌, true, length, take, drop, IfSome, MatchOption, false};
ghost use Rattle.vd_tokens.specs.Bytes.{is_digit, is_letter, is_blank, is_word_byte, AllBytes};
ghost use Rattle.vd_tokens.specs.Text.{has_close, starts_close};
ghost use Rattle.vd_tokens.specs.Head.{passes, starts_with, StopsAt, ClosesAt};

/// What a run is made of.
#[derive(Clone, Copy)]
pub(crate) enum Run {
    Word,
    Digits,
    Line,
}

pub(crate) fn is_digit(byte: u8) -> bool
    ensures { result ≡ is_digit byte }
{
    48 <= byte && byte <= 57
}

pub(crate) fn is_letter(byte: u8) -> bool
    ensures { result ≡ is_letter byte }
{
    (65 <= byte && byte <= 90) || ((97 <= byte && byte <= 122) || byte == 95)
}

pub(crate) fn is_blank(byte: u8) -> bool
    ensures { result ≡ is_blank byte }
{
    byte == 32 || byte == 10
}

fn is_word_byte(byte: u8) -> bool
    ensures { result ≡ is_word_byte byte }
{
    is_letter(byte) || is_digit(byte)
}

fn passes(run: Run, byte: u8) -> bool
    ensures { result ≡ passes run byte }
{
    match run {
        Run::Word => is_word_byte(byte),
        Run::Digits => is_digit(byte),
        Run::Line => !(byte == 10),
    }
}

/// How many bytes of a run stand in front.
pub(crate) fn run_len(run: Run, bytes: &[u8]) -> usize
    ensures within { result ≤ length bytes.now }
    ensures passes { AllBytes (passes run) (take result bytes.now) }
    ensures stops { StopsAt (passes run) (drop result bytes.now) }
{
    let mut n = 0;
    'run: while n < bytes.len() && passes(run, bytes[n]) {
        n += 1;
    }
    n
}

pub(crate) fn starts_with(byte: u8, bytes: &[u8]) -> bool
    ensures test { result ≡ starts_with byte bytes.now }
    ensures within { result ≡ true → 1 ≤ length bytes.now }
{
    match bytes {
        [first, ..] => *first == byte,
        [] => false,
    }
}

fn starts_close(bytes: &[u8]) -> bool
    ensures { result ≡ starts_close bytes.now }
{
    match bytes {
        [a, b, ..] => *a == 42 && *b == 47,
        _ => false,
    }
}

/// Where the first `*/` stands.
pub(crate) fn close(bytes: &[u8]) -> Option<usize>
    ensures found { MatchOption result (has_close bytes.now ≡ false) (λ n. ClosesAt bytes.now n) }
    ensures within { IfSome result (λ n. n + 2 ≤ length bytes.now) }
{
    for n in 0..bytes.len() {
        let (_, from) = bytes.split_at(n);
        if starts_close(from) {
            return Some(n);
        }
    }
    None
}
