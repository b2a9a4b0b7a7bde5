//! Sorts of terms.

ghost use Rattle.std.specs.Prelude.{◌≡◌, ◌↔◌, map, IsTrue};
ghost use Rattle.vd_sized.specs.Sorts as sorts;

use vd_base::List;
use vd_logic::{Op, Sort, Term};

/// What an operation takes, and what it gives.
fn signature(op: Op) -> (&'static [Sort], Sort)
    ensures args { result.0.now ≡ (sorts.signature op).0 }
    ensures given { result.1 ≡ (sorts.signature op).1 }
{
    match op {
        Op::Add | Op::Sub | Op::Mul => (&[Sort::Int, Sort::Int], Sort::Int),
        Op::Quot | Op::Rem => (&[Sort::Int, Sort::Int], Sort::Int),
        Op::Band | Op::Bor | Op::Bxor => (&[Sort::Int, Sort::Int], Sort::Int),
        Op::Shl | Op::Shr => (&[Sort::Int, Sort::Int], Sort::Int),
        Op::Lt | Op::Le | Op::Eq => (&[Sort::Int, Sort::Int], Sort::Int),
        Op::Len | Op::Sum => (&[Sort::List], Sort::Int),
        Op::Num | Op::Unum => (&[Sort::Val], Sort::Int),
        Op::Vi => (&[Sort::Int], Sort::Val),
        Op::Undef => (&[], Sort::Val),
        Op::Off => (&[Sort::Val, Sort::Int], Sort::Val),
        Op::Nth => (&[Sort::List, Sort::Int], Sort::Val),
        Op::Nil => (&[], Sort::List),
        Op::Cons => (&[Sort::Val, Sort::List], Sort::List),
        Op::App => (&[Sort::List, Sort::List], Sort::List),
        Op::Rev => (&[Sort::List], Sort::List),
        Op::Upd => (&[Sort::List, Sort::Int, Sort::Val], Sort::List),
        Op::Slice => (&[Sort::List, Sort::Int, Sort::Int], Sort::List),
        Op::Rep => (&[Sort::Val, Sort::Int], Sort::List),
    }
}

/// Whether two sorts are the same.
pub fn same_sort(a: Sort, b: Sort) -> bool
    ensures value { result ≡ sorts.same_sort a b }
    ensures same { IsTrue result ↔ (a ≡ b) }
{
    match (a, b) {
        (Sort::Int, Sort::Int) => true,
        (Sort::Val, Sort::Val) => true,
        (Sort::List, Sort::List) => true,
        _ => false,
    }
}

/// Whether a term's sort is that one.
fn is_sort(found: Option<Sort>, wanted: Sort) -> bool
    ensures { result ≡ sorts.is_sort found wanted }
{
    match found {
        Some(found) => same_sort(found, wanted),
        None => false,
    }
}

/// The sort of a term, where its parts agree. A name that nothing declares has none.
#[cycle(sort)]
fn sort_of(term: &Term) -> Option<Sort>
    ensures { result ≡ sorts.sort_of term.now }
{
    match term {
        Term::Num(_) => Some(Sort::Int),
        Term::Var(_, sort) => Some(*sort),
        Term::Named(_) => None,
        Term::Global(_) => Some(Sort::Val),
        Term::App(op, args) => {
            let (wanted, given) = signature(*op);
            if have_sorts(args, wanted) {
                Some(given)
            } else {
                None
            }
        }
    }
}

/// Whether terms have these sorts, one by one.
#[cycle(sort)]
pub fn have_sorts(terms: &List<Term>, wanted: &[Sort]) -> bool
    ensures { result ≡ sorts.are_sorts (map sorts.sort_of terms.now) wanted.now }
{
    let mut rest = wanted;
    for term in terms.as_slice() {
        match rest.split_first() {
            Some((sort, others)) => {
                if !is_sort(sort_of(term), *sort) {
                    return false;
                }
                rest = others;
            }
            None => return false,
        }
    }
    rest.is_empty()
}

/// Whether a term has a sort.
pub fn is_of(term: &Term, sort: Sort) -> bool
    ensures { result ≡ sorts.is_of sort term.now }
{
    is_sort(sort_of(term), sort)
}

/// Whether two terms have one sort.
pub fn are_alike(a: &Term, b: &Term) -> bool
    ensures { result ≡ sorts.are_alike (sorts.sort_of a.now) (sorts.sort_of b.now) }
{
    match sort_of(a) {
        Some(sort) => is_of(b, sort),
        None => false,
    }
}
