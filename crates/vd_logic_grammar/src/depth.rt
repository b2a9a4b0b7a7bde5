//! How deeply tokens are nested.

ghost use Rattle.std.specs.Prelude.{◌≡◌, ◌+◌, ◌<◌, ◌≤◌, OnOk};
ghost use Rattle.vd_logic_grammar.specs.Nesting as nesting;
ghost use Rattle.vd_logic_grammar.specs.DepthView.{nested_of, IsCounted, elements_of};

use crate::class::has;
use crate::kind::{Class, Kind};
use std::alloc::{AllocError, Global};
use vd_base::List;

/// For each open bracket or brace, the outermost first, how many elements have begun; how many brackets and elements
/// there are; the operators since the last `;`, `{` or `}`; and whether the next token begins an element.
#[derive(Drop)]
pub struct Depth {
    pub elements: List<u32>,
    pub total: u32,
    pub operators: u32,
    pub begins_element: bool,
}

pub(crate) const LIMIT: u32 = 256;

fn opens(kind: Kind) -> bool
    ensures { result ≡ nesting.opens kind }
{
    has(Class::One(Kind::LeftParen), kind)
        || (has(Class::One(Kind::LeftBracket), kind) || has(Class::One(Kind::LeftBrace), kind))
}

fn closes(kind: Kind) -> bool
    ensures { result ≡ nesting.closes kind }
{
    has(Class::One(Kind::RightParen), kind)
        || (has(Class::One(Kind::RightBracket), kind) || has(Class::One(Kind::RightBrace), kind))
}

fn divides(kind: Kind) -> bool
    ensures { result ≡ nesting.divides kind }
{
    has(Class::One(Kind::Semicolon), kind)
        || (has(Class::One(Kind::LeftBrace), kind) || has(Class::One(Kind::RightBrace), kind))
}

fn is_operator(kind: Kind) -> bool
    ensures { result ≡ nesting.is_operator kind }
{
    has(Class::One(Kind::Plus), kind)
        || (has(Class::One(Kind::Minus), kind) || has(Class::One(Kind::Star), kind))
}

fn operators_after(kind: Kind, operators: u32) -> u32
    requires { operators < 256 }
    ensures value { result ≡ nesting.operators_after kind operators }
    ensures small { result ≤ 256 }
{
    if divides(kind) {
        0
    } else if is_operator(kind) {
        operators + 1
    } else {
        operators
    }
}

impl Depth {
    pub(crate) fn new(alloc: Global) -> Depth
        ensures value { nested_of result ≡ nesting.start }
        ensures counted { IsCounted result }
    {
        Depth {
            elements: List::new(alloc),
            total: 0,
            operators: 0,
            begins_element: false,
        }
    }

    /// One element more of the innermost bracket, where the next token begins one.
    fn begin(&mut self) -> Result<(), AllocError>
        requires counted { IsCounted self.old }
        requires shallow { self.old.total < 256 }
        ensures elements { OnOk result (elements_of self.new ≡ nesting.begun self.old.begins_element (elements_of self.old)) }
        ensures operators { OnOk result (self.new.operators ≡ self.old.operators) }
        ensures counted { OnOk result (IsCounted self.new) }
        ensures small { OnOk result (self.new.total ≤ 256) }
    {
        if self.begins_element {
            match self.elements.pop() {
                Some(count) => {
                    self.elements.push(count + 1)?;
                    self.total += 1;
                }
                None => {}
            }
        }
        Ok(())
    }

    /// Whether elements of the innermost bracket have begun.
    fn has_elements(&self) -> bool
        ensures { result ≡ nesting.has_elements (elements_of self.now) }
    {
        match self.elements.as_slice() {
            [.., last] => *last > 0,
            [] => false,
        }
    }

    /// Opens a bracket or closes the innermost.
    fn pass(&mut self, kind: Kind) -> Result<(), AllocError>
        requires counted { IsCounted self.old }
        requires shallow { self.old.total ≤ 256 }
        ensures elements { OnOk result (elements_of self.new ≡ nesting.elements_after kind (elements_of self.old)) }
        ensures operators { OnOk result (self.new.operators ≡ self.old.operators) }
        ensures counted { OnOk result (IsCounted self.new) }
        ensures small { OnOk result (self.new.total ≤ 257) }
    {
        if opens(kind) {
            self.elements.push(0)?;
            self.total += 1;
        } else if closes(kind) {
            match self.elements.pop() {
                Some(count) => self.total -= count + 1,
                None => {}
            }
        }
        Ok(())
    }

    /// Counts a token.
    pub(crate) fn count(&mut self, kind: Kind) -> Result<(), AllocError>
        requires counted { IsCounted self.old }
        requires shallow { self.old.total + self.old.operators < 256 }
        ensures value { OnOk result (nested_of self.new ≡ nesting.after kind (nested_of self.old)) }
        ensures counted { OnOk result (IsCounted self.new) }
        ensures small { OnOk result (self.new.total + self.new.operators ≤ 513) }
    {
        self.begin()?;
        let begins = has(Class::One(Kind::LeftBracket), kind)
            || (has(Class::One(Kind::Comma), kind) && self.has_elements());
        self.pass(kind)?;
        self.operators = operators_after(kind, self.operators);
        self.begins_element = begins;
        Ok(())
    }
}
