//! Sets of names.

ghost use Rattle.std.specs.Prelude.{◌≡◌, ◌++◌, ◌∷◌, [], IfOk, OnOk};
ghost use Rattle.std.specs.List.{list_any};
ghost use Rattle.std.specs.Str.{bytes_eq};

use std::alloc::{AllocError, Global};
use std::collections::BTreeSet;
use vd_base::List;

/// Names, in the order in which they were put into the set.
pub struct Names<'a> {
    listed: List<&'a [u8]>,
    found: BTreeSet<&'a [u8]>,
}

// By hand, so that an exit drops a set by one call.
impl Drop for Names<'_> {
    fn drop(self) {
        let Names {
            listed: _,
            found: _,
        } = self;
    }
}

impl<'a> Names<'a> {
    ghost use Rattle.vd_known.specs.Names.{names_of, IsSet};

    /// No name.
    pub fn new(alloc: Global) -> Names<'a>
        ensures set { IsSet result }
        ensures names { names_of result ≡ [] }
    {
        Names {
            listed: List::new(alloc),
            found: BTreeSet::new(alloc),
        }
    }

    /// Puts a name behind the others.
    pub fn add(&mut self, name: &'a [u8]) -> Result<(), AllocError>
        requires { IsSet self.old }
        ensures set { OnOk result (IsSet self.new) }
        ensures names { OnOk result (names_of self.new ≡ names_of self.old ++ name.now ∷ []) }
    {
        self.found.insert(name)?;
        self.listed.push(name)
    }

    /// Whether the name was put into the set.
    pub fn has(&self, name: &[u8]) -> bool
        requires { IsSet self.now }
        ensures { result ≡ list_any (bytes_eq name.now) (names_of self.now) }
    {
        self.found.contains(name)
    }

    /// The names, in their order.
    pub fn as_slice(&self) -> &[&'a [u8]]
        ensures { result.now ≡ self.now.listed }
    {
        self.listed.as_slice()
    }
}
