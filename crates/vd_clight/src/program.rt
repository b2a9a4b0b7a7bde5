//! Programs, and what a section's names mean.

use crate::typed::TypedFn;
use vd_base::{CType, Field, List, Name, Structs};

/// An initial value of a cell.
#[derive(Drop)]
pub enum Init {
    Int(u32),
    Addr(Name),
}

/// A global variable. Cells past the list start as the integer 0.
#[derive(Drop)]
pub struct GlobalDef {
    pub name: Name,
    pub cells: u32,
    pub init: List<Init>,
}

/// A linked program. `main` is the number of the function, from 0.
#[derive(Drop)]
pub struct Program {
    pub fns: List<TypedFn>,
    pub globals: List<GlobalDef>,
    pub main: u32,
}

/// What a function is called with, and what it gives.
#[derive(Drop)]
pub struct Signature {
    pub ret: CType,
    pub name: Name,
    pub params: List<Field>,
}

/// The structs, globals and functions that a section sees.
#[derive(Drop)]
pub struct CScope {
    pub structs: Structs,
    pub globals: List<(Name, CType)>,
    pub fns: List<Signature>,
}
