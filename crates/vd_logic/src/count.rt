//! How many nodes terms have.

ghost use Rattle.std.specs.Prelude.{◌≡◌, min, ◌^◌, ◌-◌, map};
ghost use Rattle.std.specs.List.{sum};
ghost use Rattle.vd_logic.specs.Nodes as count;

use crate::assertion::{Assertion, Item, Prop};
use crate::term::Term;
use vd_base::{List, Name};

#[cycle(nodes)]
fn term_nodes(term: &Term) -> u64
    ensures { result ≡ min (count.term_nodes term.now) (2 ^ 64 - 1) }
{
    match term {
        Term::App(_, args) => all_nodes(args).saturating_add(1),
        Term::Num(_) => 1,
        Term::Var(_, _) => 1,
        Term::Named(_) => 1,
        Term::Global(_) => 1,
    }
}

#[cycle(nodes)]
fn all_nodes(terms: &List<Term>) -> u64
    ensures { result ≡ min (count.all_nodes terms.now) (2 ^ 64 - 1) }
{
    let mut total: u64 = 0;
    for term in terms.as_slice() {
        total = total.saturating_add(term_nodes(term));
    }
    total
}

fn prop_nodes(prop: &Prop) -> u64
    ensures { result ≡ min (count.prop_nodes prop.now) (2 ^ 64 - 1) }
{
    match prop {
        Prop::Rel(_, a, b) => term_nodes(a).saturating_add(term_nodes(b)),
        Prop::IsInt(a) => term_nodes(a),
        Prop::IsPtr(a) => term_nodes(a),
        Prop::Each(l, a, b) => term_nodes(l)
            .saturating_add(term_nodes(a))
            .saturating_add(term_nodes(b)),
    }
}

fn item_nodes(item: &Item) -> u64
    ensures { result ≡ min (count.item_nodes item.now) (2 ^ 64 - 1) }
{
    match item {
        Item::Data(s, p, l) => term_nodes(s)
            .saturating_add(term_nodes(p))
            .saturating_add(term_nodes(l)),
        Item::Lock(s, p, l) => term_nodes(s)
            .saturating_add(term_nodes(p))
            .saturating_add(all_nodes(&l.args)),
        Item::Holds(p, l) => term_nodes(p).saturating_add(all_nodes(&l.args)),
        Item::Token(p, n) => term_nodes(p).saturating_add(term_nodes(n)),
        Item::Pred(l) => all_nodes(&l.args),
    }
}

fn props_nodes(props: &List<Prop>) -> u64
    ensures { result ≡ min (sum (map count.prop_nodes props.now)) (2 ^ 64 - 1) }
{
    let mut total: u64 = 0;
    for prop in props.as_slice() {
        total = total.saturating_add(prop_nodes(prop));
    }
    total
}

fn locals_nodes(locals: &List<(Name, Term)>) -> u64
    ensures { result ≡ min (sum (map count.local_nodes locals.now)) (2 ^ 64 - 1) }
{
    let mut total: u64 = 0;
    for local in locals.as_slice() {
        total = total.saturating_add(term_nodes(&local.1));
    }
    total
}

fn items_nodes(items: &List<Item>) -> u64
    ensures { result ≡ min (sum (map count.item_nodes items.now)) (2 ^ 64 - 1) }
{
    let mut total: u64 = 0;
    for item in items.as_slice() {
        total = total.saturating_add(item_nodes(item));
    }
    total
}

/// How many nodes the assertion's terms have, those of labels' arguments too, at most `u64::MAX`. A number, a variable, a
/// name or a global is one node. It takes no memory.
pub fn nodes(a: &Assertion) -> u64
    ensures { result ≡ min (count.nodes a.now) (2 ^ 64 - 1) }
{
    props_nodes(&a.props)
        .saturating_add(locals_nodes(&a.locals))
        .saturating_add(items_nodes(&a.items))
}
