//! Which kinds a class has.

ghost use Rattle.std.specs.Prelude.{◌≡◌};
ghost use Rattle.vd_logic_grammar.specs.Kinds as kinds;

use crate::kind::{Class, Kind};

/// Its number in the order of the kinds.
fn kind_number(kind: Kind) -> u8
    ensures { result ≡ kinds.kind_number kind }
{
    match kind {
        Kind::End => 0,
        Kind::Name => 1,
        Kind::Own => 2,
        Kind::Reserved => 3,
        Kind::Number => 4,
        Kind::Index => 5,
        Kind::Int => 6,
        Kind::Val => 7,
        Kind::List => 8,
        Kind::Unsigned => 9,
        Kind::Lock => 10,
        Kind::Void => 11,
        Kind::Struct => 12,
        Kind::Constant => 13,
        Kind::OneArgument => 14,
        Kind::TwoArguments => 15,
        Kind::ThreeArguments => 16,
        Kind::Addr => 17,
        Kind::IsInt => 18,
        Kind::IsPtr => 19,
        Kind::Each => 20,
        Kind::Data => 21,
        Kind::Holds => 22,
        Kind::TokenWord => 23,
        Kind::Ex => 24,
        Kind::Prop => 25,
        Kind::Local => 26,
        Kind::Sep => 27,
        Kind::Case => 28,
        Kind::With => 29,
        Kind::Pre => 30,
        Kind::Post => 31,
        Kind::Skip => 32,
        Kind::Set => 33,
        Kind::Load => 34,
        Kind::Store => 35,
        Kind::If => 36,
        Kind::While => 37,
        Kind::Break => 38,
        Kind::Continue => 39,
        Kind::Return => 40,
        Kind::Fall => 41,
        Kind::Block => 42,
        Kind::Pose => 43,
        Kind::Call => 44,
        Kind::Malloc => 45,
        Kind::Free => 46,
        Kind::MakeLock => 47,
        Kind::Acquire => 48,
        Kind::Release => 49,
        Kind::FreeLock => 50,
        Kind::Spawn => 51,
        Kind::Fold => 52,
        Kind::Unfold => 53,
        Kind::Split => 54,
        Kind::Absurd => 55,
        Kind::Have => 56,
        Kind::Law => 57,
        Kind::Subst => 58,
        Kind::Rewrite => 59,
        Kind::Cut => 60,
        Kind::Glue => 61,
        Kind::Share => 62,
        Kind::Unshare => 63,
        Kind::Agree => 64,
        Kind::Bounds => 65,
        Kind::Apart => 66,
        Kind::Forget => 67,
        Kind::Meet => 68,
        Kind::NameWord => 69,
        Kind::At => 70,
        Kind::By => 71,
        Kind::As => 72,
        Kind::Back => 73,
        Kind::LeftParen => 74,
        Kind::RightParen => 75,
        Kind::LeftBrace => 76,
        Kind::RightBrace => 77,
        Kind::LeftBracket => 78,
        Kind::RightBracket => 79,
        Kind::Semicolon => 80,
        Kind::Colon => 81,
        Kind::Comma => 82,
        Kind::Equal => 83,
        Kind::NotEqual => 84,
        Kind::LessEqual => 85,
        Kind::Less => 86,
        Kind::Plus => 87,
        Kind::Minus => 88,
        Kind::Star => 89,
        Kind::EndLine => 90,
        Kind::Other => 91,
    }
}

fn same(a: Kind, b: Kind) -> bool
    ensures { result ≡ kinds.same a b }
{
    kind_number(a) == kind_number(b)
}

fn is_flow_word(kind: Kind) -> bool
    ensures { result ≡ kinds.has Class.FlowWord kind }
{
    matches!(
        kind,
        Kind::Skip | Kind::Set | Kind::Load | Kind::Store | Kind::If | Kind::While
    )
}

fn is_leaving_word(kind: Kind) -> bool
    ensures { result ≡ kinds.has Class.LeavingWord kind }
{
    matches!(
        kind,
        Kind::Break | Kind::Continue | Kind::Return | Kind::Fall | Kind::Block | Kind::Pose
    )
}

fn is_call_word(kind: Kind) -> bool
    ensures { result ≡ kinds.has Class.CallWord kind }
{
    matches!(
        kind,
        Kind::Call
            | Kind::Malloc
            | Kind::Free
            | Kind::MakeLock
            | Kind::Acquire
            | Kind::Release
            | Kind::FreeLock
            | Kind::Spawn
    )
}

fn is_fact_word(kind: Kind) -> bool
    ensures { result ≡ kinds.has Class.FactWord kind }
{
    matches!(
        kind,
        Kind::Fold
            | Kind::Unfold
            | Kind::Split
            | Kind::Absurd
            | Kind::Have
            | Kind::Law
            | Kind::Subst
            | Kind::Rewrite
    )
}

fn is_item_word(kind: Kind) -> bool
    ensures { result ≡ kinds.has Class.ItemWord kind }
{
    matches!(
        kind,
        Kind::Cut
            | Kind::Glue
            | Kind::Share
            | Kind::Unshare
            | Kind::Agree
            | Kind::Bounds
            | Kind::Apart
    )
}

fn is_last_word(kind: Kind) -> bool
    ensures { result ≡ kinds.has Class.LastWord kind }
{
    matches!(kind, Kind::Forget | Kind::Meet | Kind::NameWord)
}

#[tactic(auto, using(crate::proofs::Classes::step_word_is))]
fn is_step_word(kind: Kind) -> bool
    ensures { result ≡ kinds.has Class.StepWord kind }
{
    (is_flow_word(kind) || (is_leaving_word(kind) || is_call_word(kind)))
        || (is_fact_word(kind) || (is_item_word(kind) || is_last_word(kind)))
}

/// Whether a class has a kind.
pub fn has(class: Class, kind: Kind) -> bool
    ensures { result ≡ kinds.has class kind }
{
    match class {
        Class::One(one) => same(one, kind),
        Class::AnyName => matches!(kind, Kind::Name | Kind::Own | Kind::Reserved),
        Class::PlainName => matches!(kind, Kind::Name | Kind::Own),
        Class::AnyNumber => matches!(kind, Kind::Number | Kind::Index),
        Class::SortWord => matches!(kind, Kind::Int | Kind::Val | Kind::List),
        Class::TypeWord => matches!(
            kind,
            Kind::Int | Kind::Unsigned | Kind::Lock | Kind::Void | Kind::Struct
        ),
        Class::SimpleType => matches!(kind, Kind::Int | Kind::Unsigned | Kind::Lock | Kind::Void),
        Class::FilledType => matches!(kind, Kind::Int | Kind::Unsigned | Kind::Lock),
        Class::Relation => matches!(
            kind,
            Kind::Equal | Kind::NotEqual | Kind::LessEqual | Kind::Less
        ),
        Class::Summing => matches!(kind, Kind::Plus | Kind::Minus),
        Class::FlowWord => is_flow_word(kind),
        Class::LeavingWord => is_leaving_word(kind),
        Class::CallWord => is_call_word(kind),
        Class::FactWord => is_fact_word(kind),
        Class::ItemWord => is_item_word(kind),
        Class::LastWord => is_last_word(kind),
        Class::StepWord => is_step_word(kind),
    }
}
