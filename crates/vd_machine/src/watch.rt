//! An index of what the threads' next statements touch, so that a race is found without a look at all threads.
ghost use Rattle.std.specs.Prelude.{◌≡◌, ℕ, ◌+◌, ◌<◌, ◌≤◌, length, not, ◌&&◌, ◌||◌, ◌==◌, true, false, [], IsFalse, IfOk, OnOk};
ghost use Rattle.vd_machine.specs.Touches.{nothing, is_at, is_in, covers};
ghost use Rattle.vd_machine.specs.Watching.{Two, has, is_either, spots, looks, writes, start_at, starts, touch_in, IsNoted, IsIndex, IsWith, Meets};

use crate::answer::Spot;
use crate::touch::{Touched, block, nothing};
use std::alloc::{AllocError, Global};
use std::collections::BTreeSet;

/// What each thread's next statement touches, and the places that are touched, each with its thread: where one looks,
/// where one writes, and the starts of blocks that are touched whole. None of them reaches a block from `blocks` on.
pub(crate) struct Watch {
    pub(crate) touches: Vec<Touched>,
    pub(crate) looked: BTreeSet<(u32, u32, u32)>,
    pub(crate) written: BTreeSet<(u32, u32, u32)>,
    pub(crate) freed: BTreeSet<(u32, u32, u32)>,
    pub(crate) blocks: u32,
}

// Written by hand, so that an exit lets go of an index by one call in place of one for each set.
impl Drop for Watch {
    fn drop(self) {
        let Watch {
            touches: _,
            looked: _,
            written: _,
            freed: _,
            blocks: _,
        } = self;
    }
}

fn spots(touched: Touched) -> (Option<Spot>, Option<Spot>)
    ensures { result ≡ spots touched }
{
    (touched.first, touched.second)
}

fn looks(touched: Touched) -> (Option<Spot>, Option<Spot>)
    ensures { result ≡ looks touched }
{
    if touched.writes {
        (None, None)
    } else {
        spots(touched)
    }
}

fn writes(touched: Touched) -> (Option<Spot>, Option<Spot>)
    ensures { result ≡ writes touched }
{
    if touched.writes {
        spots(touched)
    } else {
        (None, None)
    }
}

fn start_at(block: Option<u32>) -> Option<Spot>
    ensures { result ≡ start_at block }
{
    match block {
        Some(block) => Some(Spot { block, offset: 0 }),
        None => None,
    }
}

fn starts(touched: Touched) -> (Option<Spot>, Option<Spot>)
    ensures { result ≡ starts touched }
{
    (start_at(touched.block), None)
}

fn put(
    set: &mut BTreeSet<(u32, u32, u32)>,
    spot: Option<Spot>,
    thread: u32,
) -> Result<(), AllocError>
    ensures { OnOk result ((b o k : ℕ) → has set.new b o k ≡ ((is_at spot b o && (thread == k)) || has set.old b o k)) }
{
    match spot {
        Some(spot) => {
            set.insert((spot.block, spot.offset, thread))?;
            Ok(())
        }
        None => Ok(()),
    }
}

fn take(set: &mut BTreeSet<(u32, u32, u32)>, spot: Option<Spot>, thread: u32)
    ensures { (b o k : ℕ) → has set.new b o k ≡ (not (is_at spot b o && (thread == k)) && has set.old b o k) }
{
    match spot {
        Some(spot) => {
            let _was_there = set.remove(&(spot.block, spot.offset, thread));
        }
        None => {}
    }
}

fn put_both(
    set: &mut BTreeSet<(u32, u32, u32)>,
    both: (Option<Spot>, Option<Spot>),
    thread: u32,
) -> Result<(), AllocError>
    ensures { OnOk result ((b o k : ℕ) → has set.new b o k ≡ ((is_either both b o && (thread == k)) || has set.old b o k)) }
{
    put(set, both.0, thread)?;
    put(set, both.1, thread)
}

fn take_both(set: &mut BTreeSet<(u32, u32, u32)>, both: (Option<Spot>, Option<Spot>), thread: u32)
    ensures { (b o k : ℕ) → has set.new b o k ≡ (not (is_either both b o && (thread == k)) && has set.old b o k) }
{
    take(set, both.0, thread);
    take(set, both.1, thread);
}

/// Whether some thread is at a place.
fn is_met(set: &BTreeSet<(u32, u32, u32)>, spot: Option<Spot>) -> bool
    ensures { IsFalse result → (b o k : ℕ) → is_at spot b o ≡ true → has set.now b o k ≡ false }
{
    match spot {
        Some(spot) => match set.range((spot.block, spot.offset, 0)..).next() {
            Some(place) => place.0 == spot.block && place.1 == spot.offset,
            None => false,
        },
        None => false,
    }
}

fn is_either_met(set: &BTreeSet<(u32, u32, u32)>, both: (Option<Spot>, Option<Spot>)) -> bool
    ensures { IsFalse result → (b o k : ℕ) → is_either both b o ≡ true → has set.now b o k ≡ false }
{
    is_met(set, both.0) || is_met(set, both.1)
}

/// Whether some thread is in a block.
fn is_block_met(set: &BTreeSet<(u32, u32, u32)>, block: Option<u32>) -> bool
    ensures { IsFalse result → (b o k : ℕ) → is_in block b ≡ true → has set.now b o k ≡ false }
{
    match block {
        Some(block) => match set.range((block, 0, 0)..).next() {
            Some(place) => place.0 == block,
            None => false,
        },
        None => false,
    }
}

/// Notes a touch of a thread, or of the next one.
fn note(touches: &mut Vec<Touched>, thread: u32, touched: Touched) -> Result<(), AllocError>
    requires { thread ≤ length touches.old.items }
    ensures { OnOk result (IsNoted touches.old.items thread touched touches.new.items) }
{
    let at = thread as usize;
    if at < touches.len() {
        touches[at] = touched;
        Ok(())
    } else {
        touches.push(touched)?;
        Ok(())
    }
}

impl Watch {
    /// An index of no threads.
    pub(crate) fn new(alloc: Global, blocks: u32) -> Watch
        ensures index { IsIndex result }
        ensures touches { result.touches.items ≡ [] }
        ensures blocks { result.blocks ≡ blocks }
    {
        Watch {
            touches: Vec::new(alloc),
            looked: BTreeSet::new(alloc),
            written: BTreeSet::new(alloc),
            freed: BTreeSet::new(alloc),
            blocks,
        }
    }

    /// Without the touch of a thread, and with a number of blocks.
    pub(crate) fn without(mut self, thread: u32, blocks: u32) -> Watch
        requires index { IsIndex self }
        requires at { thread < length self.touches.items }
        ensures added { IsWith self thread nothing result }
        ensures known { result.blocks ≡ blocks }
    {
        let at = thread as usize;
        let touched = self.touches[at];
        take_both(&mut self.looked, looks(touched), thread);
        take_both(&mut self.written, writes(touched), thread);
        take_both(&mut self.freed, starts(touched), thread);
        self.touches[at] = nothing();
        self.blocks = blocks;
        self
    }

    /// With the touch of a thread, or of the next one, of which it has none yet.
    pub(crate) fn with(mut self, thread: u32, touched: Touched) -> Result<Watch, AllocError>
        requires index { IsIndex self }
        requires at { thread ≤ length self.touches.items }
        requires free { touch_in self.touches.items thread ≡ nothing }
        ensures added { IfOk result (IsWith self thread touched) }
        ensures blocks { IfOk result (λ watch. watch.blocks ≡ self.blocks) }
    {
        put_both(&mut self.looked, looks(touched), thread)?;
        put_both(&mut self.written, writes(touched), thread)?;
        put_both(&mut self.freed, starts(touched), thread)?;
        note(&mut self.touches, thread, touched)?;
        Ok(self)
    }

    /// Whether some thread is at a place of a touch, one of both writing.
    fn meets_spots(&self, touched: Touched) -> bool
        requires { IsIndex self.now }
        ensures { IsFalse result → (k b o : ℕ) → is_either (spots touched) b o ≡ true → is_either (spots (touch_in self.now.touches.items k)) b o ≡ true
            → (touched.writes || (touch_in self.now.touches.items k).writes) ≡ true → ⊥ }
    {
        if is_either_met(&self.written, spots(touched)) {
            return true;
        }
        touched.writes && is_either_met(&self.looked, spots(touched))
    }

    /// Whether some thread touches the block of a spot whole.
    fn meets_free(&self, spot: Option<Spot>) -> bool
        requires { IsIndex self.now }
        ensures { IsFalse result → (k b o : ℕ) → is_at spot b o ≡ true → is_in (touch_in self.now.touches.items k).block b ≡ true → ⊥ }
    {
        is_block_met(&self.freed, block(spot))
    }

    /// Whether some thread is in a block.
    fn meets_block(&self, block: Option<u32>) -> bool
        requires { IsIndex self.now }
        ensures { IsFalse result → (k b o : ℕ) → is_in block b ≡ true → covers (touch_in self.now.touches.items k) b o ≡ true → ⊥ }
    {
        if is_block_met(&self.freed, block) {
            return true;
        }
        is_block_met(&self.looked, block) || is_block_met(&self.written, block)
    }

    /// Whether some thread meets a touch.
    pub(crate) fn meets(&self, touched: Touched) -> bool
        requires { IsIndex self.now }
        ensures { IsFalse result → (k b o : ℕ) → Meets touched (touch_in self.now.touches.items k) b o → ⊥ }
    {
        if self.meets_spots(touched) || self.meets_block(touched.block) {
            return true;
        }
        self.meets_free(touched.first) || self.meets_free(touched.second)
    }
}
