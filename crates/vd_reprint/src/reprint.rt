//! A function as a section.

ghost use Rattle.std.specs.Prelude.{◌≡◌, ℕ, List, IfOk};
ghost use Rattle.vd_cparse.specs.Section.{IsFnSection};
ghost use Rattle.vd_reprint.specs.Nested.{FunctionsAreShallow};
ghost use Rattle.vd_reprint.specs.SectionText.{section_text, ReadsBack, SectionsReadBack};

use std::alloc::{AllocError, Global};
use vd_base::Text;
use vd_clight::{FnText, print};

/// Laws of printed functions: the call does nothing.
pub fn reprint_laws()
    ensures nested { FunctionsAreShallow }
    ensures sections { SectionsReadBack }
{}

/// The section of a function: a header line with its name, the printed text as one line, and the line `end`.
pub fn print_section(alloc: Global, f: &FnText) -> Result<Text, AllocError>
    ensures text { IfOk result (λ text. text ≡ section_text f.now) }
    ensures back { IfOk result (λ text. (from : List ℕ) → IsFnSection from f.now → ReadsBack text f.now) }
{
    let mut text = Text::new(alloc, b"fn ")?;
    text.append(f.name.as_bytes())?;
    text.append(b"\n")?;
    let line = print(alloc, f)?;
    text.append(line.as_bytes())?;
    text.append(b"\nend\n")?;
    Ok(text)
}
