//! Which units declare a name.

ghost use Rattle.std.specs.Prelude.{◌≡◌, ◌↔◌, None, Some, IfOk, IsTrue, OnOk, if◌then◌else◌, ◌&&◌};
ghost use Rattle.std.specs.Str.{bytes_eq};
ghost use Rattle.vd_heads.specs.declared.table.Space.{Space as Space_of_name};
ghost use Rattle.vd_heads.specs.Declaration.{Bytes, same_space};
ghost use Rattle.vd_declared.specs.declared.owners.Owner.TheVariants.{More};
ghost use Rattle.vd_declared.specs.Owners.{AreOwners, joined, kept, owner_in};

use crate::declared::Declaration;
use std::alloc::{AllocError, Global};
use std::collections::BTreeMap;
use vd_heads::Space;

/// The units that declare a name: one, or more than one.
#[derive(Clone, Copy)]
enum Owner {
    One(usize),
    More,
}

/// The owner of a name that this unit declares too.
fn joined(owner: Option<Owner>, unit: usize) -> Owner
    ensures { result ≡ joined owner unit }
{
    match owner {
        Some(Owner::One(known)) => {
            if known == unit {
                Owner::One(known)
            } else {
                Owner::More
            }
        }
        Some(Owner::More) => Owner::More,
        None => Owner::One(unit),
    }
}

/// The owners of the names of a name space.
#[derive(Drop)]
struct Named<'u> {
    by_name: BTreeMap<&'u [u8], Owner>,
}

impl<'u> Named<'u> {
    fn new(alloc: Global) -> Named<'u>
        ensures { (name : Bytes) → kept result name ≡ None }
    {
        Named {
            by_name: BTreeMap::new(alloc),
        }
    }

    fn get(&self, name: &[u8]) -> Option<Owner>
        ensures { result ≡ kept self.now name.now }
    {
        self.by_name.get(name).copied()
    }

    fn add(&mut self, name: &'u [u8], unit: usize) -> Result<(), AllocError>
        ensures { OnOk result ((other : Bytes) → kept self.new other ≡ (if bytes_eq name.now other then Some (joined (kept self.old other) unit) else kept self.old other)) }
    {
        let owner = joined(self.get(name), unit);
        self.by_name.insert(name, owner)?;
        Ok(())
    }
}

/// The owners of the names of all name spaces.
#[derive(Drop)]
pub(crate) struct Owners<'u> {
    structs: Named<'u>,
    globals: Named<'u>,
    functions: Named<'u>,
    predicates: Named<'u>,
}

impl<'u> Owners<'u> {
    fn new(alloc: Global) -> Owners<'u>
        ensures { (space : Space_of_name) (name : Bytes) → owner_in result space name ≡ None }
    {
        Owners {
            structs: Named::new(alloc),
            globals: Named::new(alloc),
            functions: Named::new(alloc),
            predicates: Named::new(alloc),
        }
    }

    fn get(&self, space: Space, name: &[u8]) -> Option<Owner>
        ensures { result ≡ owner_in self.now space name.now }
    {
        match space {
            Space::Struct => self.structs.get(name),
            Space::Global => self.globals.get(name),
            Space::Function => self.functions.get(name),
            Space::Predicate => self.predicates.get(name),
        }
    }

    /// Whether more than one unit declares the name.
    pub(crate) fn are_more(&self, space: Space, name: &[u8]) -> bool
        ensures { IsTrue result ↔ (owner_in self.now space name.now ≡ Some More) }
    {
        matches!(self.get(space, name), Some(Owner::More))
    }

    fn add(&mut self, space: Space, name: &'u [u8], unit: usize) -> Result<(), AllocError>
        ensures { OnOk result ((s : Space_of_name) (other : Bytes) → owner_in self.new s other
            ≡ (if same_space s space && bytes_eq name.now other then Some (joined (owner_in self.old s other) unit) else owner_in self.old s other)) }
    {
        match space {
            Space::Struct => self.structs.add(name, unit),
            Space::Global => self.globals.add(name, unit),
            Space::Function => self.functions.add(name, unit),
            Space::Predicate => self.predicates.add(name, unit),
        }
    }

    /// Who declares each name.
    pub(crate) fn of(
        alloc: Global,
        declarations: &[Declaration<'u>],
    ) -> Result<Owners<'u>, AllocError>
        ensures { IfOk result (AreOwners declarations.now) }
    {
        let mut owners = Owners::new(alloc);
        for d in declarations {
            owners.add(d.space, d.name.as_bytes(), d.unit)?;
        }
        Ok(owners)
    }
}
