//! What the tests of several crates make.

use std::alloc::{AllocError, Global};
use vd_base::{List, Text};
use vd_outline::{cut_at, head_of};
use vd_store::Snapshot;

/// A text, then a piece so many times.
pub(crate) fn repeated(
    alloc: Global,
    front: &[u8],
    piece: &[u8],
    count: u32,
) -> Result<Text, AllocError> {
    let mut text = Text::new(alloc, front)?;
    for _ in 0..count {
        text.append(piece)?;
    }
    Ok(text)
}

/// The texts that have a byte 0 between each two.
pub(crate) fn texts_of(alloc: Global, bytes: &[u8]) -> Result<List<Text>, AllocError> {
    let mut texts = List::new(alloc);
    let mut rest = bytes;
    for _ in 0..bytes.len() {
        match cut_at(rest, 0) {
            Some((text, after)) => {
                texts.push(Text::new(alloc, text)?)?;
                rest = after;
            }
            None => break,
        }
    }
    texts.push(Text::new(alloc, rest)?)?;
    Ok(texts)
}

/// The texts that have a byte 0 between each two, each with version 1 under the name in its head line.
pub(crate) fn snapshot_of(alloc: Global, bytes: &[u8]) -> Result<Snapshot, AllocError> {
    let mut texts = List::new(alloc);
    for text in texts_of(alloc, bytes)?.as_slice() {
        if let Some((_, name)) = head_of(alloc, text)? {
            texts.push((name, 1, text.copy(alloc)?))?;
        }
    }
    Ok(Snapshot { texts })
}
