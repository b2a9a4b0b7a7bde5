//! Sections of a text.

ghost use Rattle.std.specs.Prelude.{◌≡◌, ◌↔◌, IsTrue, IfSome, option_copied};
ghost use Rattle.vd_outline.specs.Lookup.{is_called, section_called};

use vd_base::{Name, Text};

/// What a section declares or defines.
#[derive(Clone, Copy, Debug, PartialEq, Eq)]
pub enum SectionKind {
    Uses,
    Exports,
    Units,
    Struct,
    Global,
    Abstract,
    Pred,
    Spec,
    Fn,
    Script,
    Sub,
    Init,
}

/// A section. Its text is all its bytes, from the header line to the line `end`, both included.
#[derive(Drop)]
pub struct Section {
    pub kind: SectionKind,
    pub name: Option<Name>,
    pub text: Text,
}

impl Section {
    /// Whether it is of this kind and name.
    pub fn is(&self, kind: SectionKind, name: Option<&[u8]>) -> bool
        ensures value { result ≡ is_called kind (option_copied name.entry) self.now }
        ensures same { IsTrue result ↔ ((self.now.kind ≡ kind) × (self.now.name ≡ option_copied name.entry)) }
    {
        if self.kind != kind {
            return false;
        }
        match (&self.name, name) {
            (None, None) => true,
            (Some(own), Some(name)) => own.as_bytes() == name,
            (None, Some(_)) | (Some(_), None) => false,
        }
    }
}

/// The first section of this kind and name.
pub fn find<'a>(
    sections: &'a [Section],
    kind: SectionKind,
    name: Option<&[u8]>,
) -> Option<&'a Section>
    ensures first { option_copied result ≡ section_called kind (option_copied name.entry) sections.now }
    ensures found { IfSome result (λ section. (section.now.kind ≡ kind) × (section.now.name ≡ option_copied name.entry)) }
{
    for section in sections {
        if section.is(kind, name) {
            return Some(section);
        }
    }
    None
}
