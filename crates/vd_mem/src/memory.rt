//! The blocks, by number.
ghost use Rattle.std.specs.Prelude.{◌≡◌, ◌<◌, ◌≤◌, ◌^◌, [], length, IsTrue, IsFalse, is_some, IsSome, IfOk, OnOk, OnErr, ◌≢◌, true};
ghost use Rattle.vd_mem.specs.Memory.{grown, cell_at, put, may_free, freed, cell_limit};
ghost use Rattle.vd_mem.specs.Locks.{IsLockAt};

use crate::block::Kept;
use crate::value::{Cell, Value};
use std::alloc::{AllocError, Global};
use std::marker::Model;

/// Separate blocks of cells, numbered from 0 as they were made.
#[derive(Drop)]
pub struct Memory {
    blocks: Vec<Kept>,
}

impl Model for Memory {
    ghost use Rattle.std.specs.Prelude.{List};
    ghost use Rattle.vd_mem.specs.Memory.{Block};

    ghost Value = { List Block };

    ghost view = { λ m. m.blocks.items };
}

impl Memory {
    /// No block.
    pub fn new(alloc: Global) -> Memory
        ensures { result ≡ [] }
    {
        Memory {
            blocks: Vec::new(alloc),
        }
    }

    /// Makes a block, and answers its number.
    pub fn alloc(&mut self, cells: u32, fill: Value, heap: bool) -> Result<u32, AllocError>
        requires least { 1 ≤ cells }
        requires most { cells ≤ cell_limit }
        requires blocks { length self.old < 2 ^ 31 }
        ensures number { IfOk result (λ block. block ≡ length self.old) }
        ensures ok { OnOk result (self.new ≡ grown self.old cells fill heap) }
        ensures err { OnErr result (self.new ≡ self.old) }
    {
        let number = self.blocks.len() as u32;
        let block = Kept::new(*self.blocks.allocator(), cells, fill, heap);
        self.blocks.push(block)?;
        Ok(number)
    }

    /// The cell, where a live block has it.
    pub fn cell(&self, block: u32, offset: u32) -> Option<Cell>
        ensures { result ≡ cell_at self.now block offset }
    {
        self.blocks.get(block as usize)?.cell(offset)
    }

    /// Sets a cell of a live block.
    pub fn set(&mut self, block: u32, offset: u32, cell: Cell) -> Result<(), AllocError>
        requires { IsSome (cell_at self.old block offset) }
        ensures ok { OnOk result (self.new ≡ put self.old block offset cell) }
        ensures err { OnErr result (self.new ≡ self.old) }
    {
        let at = block as usize;
        let kept = &mut self.blocks[at];
        kept.set(offset, cell)?;
        Ok(())
    }

    /// Sets a lock cell of a live block.
    pub fn relock(&mut self, block: u32, offset: u32, cell: Cell)
        requires { IsLockAt self.old block offset }
        ensures { self.new ≡ put self.old block offset cell }
    {
        let at = block as usize;
        let kept = &mut self.blocks[at];
        kept.relock(offset, cell);
    }

    /// Frees a block where it may be freed: it is live, made with `heap`, and its cells are data. Else nothing changes.
    pub fn free(&mut self, block: u32) -> bool
        ensures answer { result ≡ may_free self.old block }
        ensures freed { IsTrue result → self.new ≡ freed self.old block }
        ensures same { IsFalse result → self.new ≡ self.old }
    {
        let at = block as usize;
        if at >= self.blocks.len() {
            return false;
        }
        let kept = &mut self.blocks[at];
        kept.free()
    }
}
