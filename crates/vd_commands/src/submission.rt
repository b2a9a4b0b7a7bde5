//! The snapshot that texts make.
ghost use Rattle.std.specs.Prelude.{◌≡◌, ◌↔◌, ◌<◌, ◌^◌, true, false, IfOk, MatchOption, All};
ghost use Rattle.vd_commands.specs.Submission.{Entries, IsFirstHeadlessAt, IsHeaded, IsHeadless, PutsText, Submits};

use std::alloc::{AllocError, Global};
use vd_base::{List, Text};
use vd_outline::head_of;
use vd_store::{Snapshot, Store};

/// Makes a text the current one of the name of its head line; false where it has none.
fn put_text(alloc: Global, store: &mut Store, text: Text) -> Result<bool, AllocError>
    requires { store.old.puts < 2 ^ 31 }
    ensures put { IfOk result (λ put. put ≡ true → PutsText store.old text store.new) }
    ensures headless { IfOk result (λ put. put ≡ false → IsHeadless text) }
{
    match head_of(alloc, &text)? {
        Some((_, name)) => {
            store.put(name, text)?;
            Ok(true)
        }
        None => Ok(false),
    }
}

/// The snapshot after the texts were put in this order. It is None where one has no head line.
pub fn submitted(alloc: Global, texts: List<Text>) -> Result<Option<Snapshot>, AllocError>
    ensures { IfOk result (λ found. MatchOption found
        ((entries : Entries) → Submits texts entries → ⊥)
        (λ s. (entries : Entries) → Submits texts entries ↔ (entries ≡ s.texts))) }
{
    if texts.len() >= 2147483648 {
        return Err(AllocError);
    }
    let mut store = Store::new(alloc);
    for text in texts.into_vec() {
        if !put_text(alloc, &mut store, text)? {
            return Ok(None);
        }
    }
    let snapshot = store.snapshot()?;
    Ok(Some(snapshot))
}

/// The place of the first text without a head line.
pub fn headless(alloc: Global, texts: &[Text]) -> Result<Option<usize>, AllocError>
    ensures { IfOk result (λ found. MatchOption found (All IsHeaded texts.now) (IsFirstHeadlessAt texts.now)) }
{
    for (at, text) in texts.iter().enumerate() {
        if head_of(alloc, text)?.is_none() {
            return Ok(Some(at));
        }
    }
    Ok(None)
}
