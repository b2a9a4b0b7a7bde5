//! The link conditions, in their order, as far as the form of texts asks them: without interfaces no condition on those can fail.

ghost use Rattle.std.specs.Prelude.{IfOk, MatchOption};
ghost use Rattle.vd_linkage.specs.Conditions.{IsLinked};
ghost use Rattle.vd_linkage.specs.Form.{ArePlain};
ghost use Rattle.vd_link.specs.Results.{Fits, HasUnits, PrintsFailure};

use crate::failure::{at_place, bare, of_name};
use std::alloc::{AllocError, Global};
use vd_base::{List, Name, Text};
use vd_declared::{declared_twice, has_one_main};
use vd_outline::Outline;
use vd_store::Snapshot;
use vd_units::{Listed, units_of};

/// Whether the units of a link fit together: they do, or a condition fails, as it is printed.
#[derive(Drop)]
pub(crate) enum Fit {
    Units(List<Outline>),
    Fails(Text),
}

/// The outlines of the units that a link lists, where the conditions hold that a program needs; else the first that fails, as it is printed.
pub(crate) fn linked(alloc: Global, texts: &Snapshot, link: &Name) -> Result<Fit, AllocError>
    requires { ArePlain texts.now.texts }
    ensures { IfOk result (λ fit. Fits fit (λ units. IsLinked texts.now.texts link.now × HasUnits texts.now.texts link.now units) (PrintsFailure texts.now.texts link.now)) }
{
    let units = match units_of(alloc, texts, link)? {
        Listed::Units(units) => units,
        Listed::Outside(place) => return Ok(Fit::Fails(at_place(alloc, 1, place)?)),
        Listed::Other(name) => return Ok(Fit::Fails(of_name(alloc, 2, name.as_bytes())?)),
    };
    if let Some(name) = declared_twice(alloc, &units)? {
        return Ok(Fit::Fails(of_name(alloc, 6, name.as_bytes())?));
    }
    if !has_one_main(alloc, &units)? {
        return Ok(Fit::Fails(bare(alloc, 7)?));
    }
    Ok(Fit::Units(units))
}

/// The first of the link conditions 1 to 7 that fails, as it is printed; none where they hold.
pub fn conditions(alloc: Global, texts: &Snapshot, link: &Name) -> Result<Option<Text>, AllocError>
    requires { ArePlain texts.now.texts }
    ensures { IfOk result (λ found. MatchOption found (IsLinked texts.now.texts link.now) (PrintsFailure texts.now.texts link.now)) }
{
    match linked(alloc, texts, link)? {
        Fit::Units(_) => Ok(None),
        Fit::Fails(text) => Ok(Some(text)),
    }
}
