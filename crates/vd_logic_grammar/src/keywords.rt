//! The words of logic sections.

ghost use Rattle.std.specs.Prelude.{◌≡◌, None};
ghost use Rattle.vd_logic_grammar.specs.Words as words;

use crate::kind::Kind;
use vd_logic::Op;
use vd_section::spells;

fn integer_operation(other: Option<Op>, word: &[u8]) -> Option<Op>
    ensures { result ≡ words.entry_of words.integer_operations other word.now }
{
    if spells(word, b"quot") {
        Some(Op::Quot)
    } else if spells(word, b"rem") {
        Some(Op::Rem)
    } else if spells(word, b"band") {
        Some(Op::Band)
    } else if spells(word, b"bor") {
        Some(Op::Bor)
    } else if spells(word, b"bxor") {
        Some(Op::Bxor)
    } else if spells(word, b"shl") {
        Some(Op::Shl)
    } else if spells(word, b"shr") {
        Some(Op::Shr)
    } else if spells(word, b"lt") {
        Some(Op::Lt)
    } else if spells(word, b"le") {
        Some(Op::Le)
    } else if spells(word, b"eq") {
        Some(Op::Eq)
    } else {
        other
    }
}

fn value_operation(other: Option<Op>, word: &[u8]) -> Option<Op>
    ensures { result ≡ words.entry_of words.value_operations other word.now }
{
    if spells(word, b"len") {
        Some(Op::Len)
    } else if spells(word, b"sum") {
        Some(Op::Sum)
    } else if spells(word, b"num") {
        Some(Op::Num)
    } else if spells(word, b"unum") {
        Some(Op::Unum)
    } else if spells(word, b"vi") {
        Some(Op::Vi)
    } else if spells(word, b"undef") {
        Some(Op::Undef)
    } else if spells(word, b"off") {
        Some(Op::Off)
    } else if spells(word, b"nth") {
        Some(Op::Nth)
    } else {
        other
    }
}

fn list_operation(other: Option<Op>, word: &[u8]) -> Option<Op>
    ensures { result ≡ words.entry_of words.list_operations other word.now }
{
    if spells(word, b"nil") {
        Some(Op::Nil)
    } else if spells(word, b"cons") {
        Some(Op::Cons)
    } else if spells(word, b"app") {
        Some(Op::App)
    } else if spells(word, b"rev") {
        Some(Op::Rev)
    } else if spells(word, b"upd") {
        Some(Op::Upd)
    } else if spells(word, b"sub") {
        Some(Op::Slice)
    } else if spells(word, b"rep") {
        Some(Op::Rep)
    } else {
        other
    }
}

/// The operation that a word names.
pub(crate) fn operation_of(word: &[u8]) -> Option<Op>
    ensures { result ≡ words.operation_of word.now }
{
    let list = list_operation(None, word);
    integer_operation(value_operation(list, word), word)
}

fn flow_word(other: Kind, word: &[u8]) -> Kind
    ensures { result ≡ words.entry_of words.flow_words other word.now }
{
    if spells(word, b"skip") {
        Kind::Skip
    } else if spells(word, b"set") {
        Kind::Set
    } else if spells(word, b"load") {
        Kind::Load
    } else if spells(word, b"store") {
        Kind::Store
    } else if spells(word, b"if") {
        Kind::If
    } else if spells(word, b"while") {
        Kind::While
    } else {
        other
    }
}

fn leaving_word(other: Kind, word: &[u8]) -> Kind
    ensures { result ≡ words.entry_of words.leaving_words other word.now }
{
    if spells(word, b"break") {
        Kind::Break
    } else if spells(word, b"continue") {
        Kind::Continue
    } else if spells(word, b"return") {
        Kind::Return
    } else if spells(word, b"fall") {
        Kind::Fall
    } else if spells(word, b"block") {
        Kind::Block
    } else if spells(word, b"pose") {
        Kind::Pose
    } else {
        other
    }
}

fn call_word(other: Kind, word: &[u8]) -> Kind
    ensures { result ≡ words.entry_of words.call_words other word.now }
{
    if spells(word, b"call") {
        Kind::Call
    } else if spells(word, b"malloc") {
        Kind::Malloc
    } else if spells(word, b"free") {
        Kind::Free
    } else if spells(word, b"makelock") {
        Kind::MakeLock
    } else if spells(word, b"acquire") {
        Kind::Acquire
    } else if spells(word, b"release") {
        Kind::Release
    } else if spells(word, b"freelock") {
        Kind::FreeLock
    } else if spells(word, b"spawn") {
        Kind::Spawn
    } else {
        other
    }
}

fn fact_word(other: Kind, word: &[u8]) -> Kind
    ensures { result ≡ words.entry_of words.fact_words other word.now }
{
    if spells(word, b"fold") {
        Kind::Fold
    } else if spells(word, b"unfold") {
        Kind::Unfold
    } else if spells(word, b"split") {
        Kind::Split
    } else if spells(word, b"absurd") {
        Kind::Absurd
    } else if spells(word, b"have") {
        Kind::Have
    } else if spells(word, b"law") {
        Kind::Law
    } else if spells(word, b"subst") {
        Kind::Subst
    } else if spells(word, b"rewrite") {
        Kind::Rewrite
    } else {
        other
    }
}

fn item_word(other: Kind, word: &[u8]) -> Kind
    ensures { result ≡ words.entry_of words.item_words other word.now }
{
    if spells(word, b"cut") {
        Kind::Cut
    } else if spells(word, b"glue") {
        Kind::Glue
    } else if spells(word, b"share") {
        Kind::Share
    } else if spells(word, b"unshare") {
        Kind::Unshare
    } else if spells(word, b"agree") {
        Kind::Agree
    } else if spells(word, b"bounds") {
        Kind::Bounds
    } else if spells(word, b"apart") {
        Kind::Apart
    } else {
        other
    }
}

fn last_word(other: Kind, word: &[u8]) -> Kind
    ensures { result ≡ words.entry_of words.last_words other word.now }
{
    if spells(word, b"forget") {
        Kind::Forget
    } else if spells(word, b"meet") {
        Kind::Meet
    } else if spells(word, b"name") {
        Kind::NameWord
    } else if spells(word, b"at") {
        Kind::At
    } else if spells(word, b"by") {
        Kind::By
    } else if spells(word, b"as") {
        Kind::As
    } else if spells(word, b"back") {
        Kind::Back
    } else {
        other
    }
}

/// A word of steps, or another.
pub(crate) fn step_word(other: Kind, word: &[u8]) -> Kind
    ensures { result ≡ words.step_word other word.now }
{
    let other = item_word(last_word(other, word), word);
    let other = call_word(fact_word(other, word), word);
    flow_word(leaving_word(other, word), word)
}
