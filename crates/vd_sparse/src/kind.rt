//! Kinds of sections.

ghost use Rattle.std.specs.Prelude.{◌≡◌};
ghost use Rattle.vd_sparse.specs.Sections.{kind_of};

use vd_section::spells;

/// What kind of section a text begins.
#[derive(Clone, Copy, Debug, PartialEq, Eq)]
pub enum SectionKind {
    Abstract,
    Pred,
    Spec,
    Script,
    Sub,
    Init,
}

/// The kind of a section that begins with a word; a word that begins none is at fault in each.
pub(crate) fn kind_of(word: &[u8]) -> SectionKind
    ensures { result ≡ kind_of word.now }
{
    if spells(word, b"abstract") {
        SectionKind::Abstract
    } else if spells(word, b"pred") {
        SectionKind::Pred
    } else if spells(word, b"spec") {
        SectionKind::Spec
    } else if spells(word, b"script") {
        SectionKind::Script
    } else if spells(word, b"sub") {
        SectionKind::Sub
    } else {
        SectionKind::Init
    }
}
