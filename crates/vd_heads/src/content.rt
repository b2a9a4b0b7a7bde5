//! What head parts say.

ghost use Rattle.std.specs.Prelude.{◌≡◌, ◌↔◌, Some, option_copied, IsTrue};
ghost use Rattle.vd_heads.specs.Closure.{interface_name};
ghost use Rattle.vd_heads.specs.Declaration.{Bytes};
ghost use Rattle.vd_outline.specs.declared.outline.TextKind.TheVariants as text;

use vd_base::{Field, List, Name};
use vd_clight::Init;
use vd_logic::{PredDef, Sort, Spec};
use vd_outline::TextKind;

/// A name in a list of names, and the place of its first byte.
#[derive(Drop)]
pub struct Mention {
    pub name: Name,
    pub place: u32,
}

/// What a head section says. Where names are declared in it one behind another, the flag says that one hides another.
#[derive(Drop)]
pub enum Content {
    Uses(List<Mention>),
    Exports(List<Mention>),
    Struct(Name, List<Field>),
    Global(Field, List<Init>),
    Abstract(Name, List<Sort>, bool),
    Pred(PredDef, bool),
    Spec(Spec, bool),
    /// It is not read; the place of the fault, in the head part.
    Unread(u32),
}

/// A head section, and the place of its header line in the head part. A place above 4294967295 is given as that.
#[derive(Drop)]
pub struct HeadSection {
    pub place: u32,
    pub content: Content,
}

/// A head part. A text without an outline has no head; it has one section, which is not read.
#[derive(Drop)]
pub struct Part {
    pub head: Option<(TextKind, Name)>,
    pub sections: List<HeadSection>,
}

impl Part {
    /// Whether it is that of an interface of this name.
    pub fn interface(&self) -> Option<&Name>
        ensures { option_copied result ≡ interface_name self.now.head }
    {
        match &self.head {
            Some((TextKind::Interface, name)) => Some(name),
            Some((TextKind::Unit, _)) | Some((TextKind::Link, _)) | None => None,
        }
    }

    /// Whether it is that of a unit.
    pub fn is_unit(&self) -> bool
        ensures { IsTrue result ↔ ((name : Bytes) × (self.now.head ≡ Some (text.Unit, name))) }
    {
        match &self.head {
            Some((TextKind::Unit, _)) => true,
            Some((TextKind::Interface, _)) | Some((TextKind::Link, _)) | None => false,
        }
    }
}
