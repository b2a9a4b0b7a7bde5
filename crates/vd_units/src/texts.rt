//! Texts by their names.

ghost use Rattle.std.specs.Prelude.{◌≡◌, ◌++◌, ◌∷◌, [], ℕ, List as Items, IfOk, OnOk, MatchOption, option_copied};
ghost use Rattle.vd_linkage.specs.Form.{Entry};
ghost use Rattle.vd_units.specs.Index.{IsIndexOf};
ghost use Rattle.vd_linkage.specs.Texts.{IsMissing, IsOutlined, text_named};

use std::alloc::{AllocError, Global};
use std::collections::BTreeMap;
use vd_base::{Name, Text};
use vd_outline::{Outline, OutlineFault, TextKind, outline_of};
use vd_store::Snapshot;

/// The current texts by their names.
#[derive(Drop)]
pub(crate) struct Index<'s> {
    texts: BTreeMap<&'s [u8], &'s Text>,
}

impl<'s> Index<'s> {
    /// Adds a text, unless its name has one.
    fn add(&mut self, name: &'s Name, text: &'s Text) -> Result<(), AllocError>
        ensures { (entries : Items Entry) (version : ℕ) → IsIndexOf entries self.old → OnOk result (IsIndexOf (entries ++ (name.now, version, text.now) ∷ []) self.new) }
    {
        let name = name.as_bytes();
        if !self.texts.contains_key(name) {
            self.texts.insert(name, text)?;
        }
        Ok(())
    }

    pub(crate) fn new(alloc: Global, snapshot: &'s Snapshot) -> Result<Index<'s>, AllocError>
        ensures { IfOk result (IsIndexOf snapshot.now.texts) }
    {
        let mut index = Index {
            texts: BTreeMap::new(alloc),
        };
        for (name, _, text) in snapshot.texts.as_slice() {
            index.add(name, text)?;
        }
        Ok(index)
    }

    pub(crate) fn text(&self, name: &[u8]) -> Option<&'s Text>
        ensures { (entries : Items Entry) → IsIndexOf entries self.now → option_copied result ≡ text_named name.now entries }
    {
        self.texts.get(name).copied()
    }

    /// The outline of the text of a name, where it is of this kind and has one.
    pub(crate) fn outlined(
        &self,
        alloc: Global,
        kind: TextKind,
        name: &[u8],
    ) -> Result<Option<Outline>, AllocError>
        ensures { IfOk result (λ found. (entries : Items Entry) → IsIndexOf entries self.now
            → MatchOption found (IsMissing entries kind name.now) (IsOutlined entries kind name.now)) }
    {
        let Some(text) = self.text(name) else {
            return Ok(None);
        };
        match outline_of(alloc, text) {
            Ok(outline) => {
                if outline.kind == kind {
                    Ok(Some(outline))
                } else {
                    Ok(None)
                }
            }
            Err(OutlineFault::NoHead) => Ok(None),
            Err(OutlineFault::Bad(_)) => Ok(None),
            Err(OutlineFault::Memory(fault)) => Err(fault),
        }
    }
}
