//! One block, by the cells that were written.
ghost use Rattle.std.specs.Prelude.{◌≡◌, ◌<◌, length, IsTrue, IsFalse, OnOk, OnErr, IsSome};
ghost use Rattle.std.specs.List.{list_all};
ghost use Rattle.std.specs.Ordering.{nat_cmp};
ghost use Rattle.std.specs.BTreeMap.{get, values, IsOrdered};
ghost use Rattle.vd_mem.specs.Kept.{WritesTo, kept_cell};
ghost use Rattle.vd_mem.specs.Locks.{IsLock};
ghost use Rattle.vd_mem.specs.Memory.{new_block, block_cell, block_put, is_freeable, block_freed, is_data};

use crate::value::{Cell, Value};
use std::alloc::{AllocError, Global};
use std::collections::BTreeMap;
use std::marker::Model;

/// A block keeps a value and the cells that were written, so that a large one costs no more than its written cells.
#[derive(Drop)]
pub(crate) struct Kept {
    size: u32,
    fill: Value,
    live: bool,
    heap: bool,
    written: BTreeMap<u32, Cell>,
}

impl Model for Kept {
    ghost use Rattle.vd_mem.specs.Memory.{Block};

    ghost Value = { Block };

    ghost use Rattle.vd_mem.specs.Kept.{block_of, IsWithin};

    ghost view = { λ k. block_of k.size k.fill k.live k.heap k.written };

    ghost invariant = { λ k. IsWithin k.size k.written };
}

fn write(written: &mut BTreeMap<u32, Cell>, offset: u32, cell: Cell) -> Result<(), AllocError>
    ensures ok { OnOk result (WritesTo written.old written.new offset cell) }
    ensures err { OnErr result (written.new.entries ≡ written.old.entries) }
{
    written.insert(offset, cell)?;
    Ok(())
}

fn rewrite(written: &mut BTreeMap<u32, Cell>, offset: u32, cell: Cell)
    requires { IsSome (get nat_cmp written.old offset) }
    ensures { WritesTo written.old written.new offset cell }
{
    if let Some(kept) = written.get_mut(&offset) {
        *kept = cell;
    }
}

fn read(written: &BTreeMap<u32, Cell>, offset: u32, fill: Value) -> Cell
    ensures { result ≡ kept_cell fill written.now offset }
{
    match written.get(&offset) {
        Some(cell) => *cell,
        None => Cell::Data(fill),
    }
}

fn are_data(written: &BTreeMap<u32, Cell>) -> bool
    ensures value { result ≡ list_all is_data (values written.now) }
    ensures ordered { IsOrdered nat_cmp written.now }
{
    written.values().all(|cell| cell.is_data())
}

impl Kept {
    pub(crate) fn new(alloc: Global, size: u32, fill: Value, heap: bool) -> Kept
        ensures { result ≡ new_block size fill heap }
    {
        Kept {
            size,
            fill,
            live: true,
            heap,
            written: BTreeMap::new(alloc),
        }
    }

    pub(crate) fn cell(&self, offset: u32) -> Option<Cell>
        ensures { result ≡ block_cell self.now offset }
    {
        if !self.live {
            return None;
        }
        if offset >= self.size {
            return None;
        }
        Some(read(&self.written, offset, self.fill))
    }

    pub(crate) fn set(&mut self, offset: u32, cell: Cell) -> Result<(), AllocError>
        requires { offset < length self.old.cells }
        ensures ok { OnOk result (self.new ≡ block_put self.old offset cell) }
        ensures err { OnErr result (self.new ≡ self.old) }
    {
        write(&mut self.written, offset, cell)?;
        Ok(())
    }

    /// Sets a cell that is a lock. Such a cell was written before.
    pub(crate) fn relock(&mut self, offset: u32, cell: Cell)
        requires { IsLock (block_cell self.old offset) }
        ensures { self.new ≡ block_put self.old offset cell }
    {
        rewrite(&mut self.written, offset, cell);
    }

    /// Frees the block where it may be freed.
    pub(crate) fn free(&mut self) -> bool
        ensures answer { result ≡ is_freeable self.old }
        ensures freed { IsTrue result → self.new ≡ block_freed self.old }
        ensures same { IsFalse result → self.new ≡ self.old }
    {
        if !self.live {
            return false;
        }
        if !self.heap {
            return false;
        }
        if !are_data(&self.written) {
            return false;
        }
        self.live = false;
        true
    }
}
