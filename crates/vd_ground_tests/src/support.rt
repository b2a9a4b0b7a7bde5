//! What tests make.

use std::alloc::{AllocError, Global};
use vd_base::{List, Name, NameFault};

/// A name; want of memory also where the bytes are none.
pub fn name(alloc: Global, bytes: &[u8]) -> Result<Name, AllocError> {
    match Name::new(alloc, bytes) {
        Ok(name) => Ok(name),
        Err(NameFault::NotName) => Err(AllocError),
        Err(NameFault::Memory(fault)) => Err(fault),
    }
}

/// A list of one item.
pub fn one<T: Drop>(alloc: Global, item: T) -> Result<List<T>, AllocError> {
    let mut items = List::new(alloc);
    items.push(item)?;
    Ok(items)
}
