//! The program of a link.

ghost use Rattle.std.specs.Prelude.{◌≡◌, codes, position, IfOk};
ghost use Rattle.std.specs.Str.{bytes_eq};
ghost use Rattle.vd_code.specs.Code.{IsCodeOf};
ghost use Rattle.vd_linkage.specs.Form.{ArePlain};
ghost use Rattle.vd_linkage.specs.Only.{IsOnly};
ghost use Rattle.vd_linkage.specs.Program.{IsMadeOf, IsProgram};

use crate::linking::{Fit, linked};
use std::alloc::{AllocError, Global};
use vd_base::{List, Name};
use vd_clight::{Program, TypedFn};
use vd_code::{Code, add_unit};
use vd_outline::Outline;
use vd_store::Snapshot;
use vd_whole::is_whole;

fn is_called_main(f: &TypedFn) -> bool
    ensures { result ≡ bytes_eq f.now.name (codes "main") }
{
    f.name.as_bytes() == b"main".as_slice()
}

/// The number of the function main.
fn main_number(fns: &[TypedFn]) -> Option<usize>
    ensures { result ≡ position (λ f. bytes_eq f.name (codes "main")) fns.now }
{
    for (number, f) in fns.iter().enumerate() {
        if is_called_main(f) {
            return Some(number);
        }
    }
    None
}

/// The functions and globals of units, in their order; none where one of them has none.
fn code_of(alloc: Global, units: &List<Outline>) -> Result<Option<Code>, AllocError>
    ensures { IfOk result (IsCodeOf units.now) }
{
    let mut code = Code::new(alloc);
    for unit in units.as_slice() {
        if !add_unit(alloc, unit, &mut code)? {
            return Ok(None);
        }
    }
    Ok(Some(code))
}

/// The program of these functions and globals, where main is among them and it is whole. More than 2^32 functions are beyond memory.
fn whole_of(alloc: Global, code: Code) -> Result<Option<Program>, AllocError>
    ensures { IfOk result (IsOnly (IsMadeOf code.fns code.globals)) }
{
    let Code { fns, globals } = code;
    let Some(number) = main_number(fns.as_slice()) else {
        return Ok(None);
    };
    let Ok(main) = u32::try_from(number) else {
        return Err(AllocError);
    };
    let program = Program { fns, globals, main };
    if is_whole(alloc, &program)? {
        Ok(Some(program))
    } else {
        Ok(None)
    }
}

/// The program of the link over the texts; none exactly where a link condition from 1 to 7 fails, a function is not read or not typed,
/// or the program is not whole.
pub fn program(alloc: Global, texts: &Snapshot, link: &Name) -> Result<Option<Program>, AllocError>
    requires { ArePlain texts.now.texts }
    ensures { IfOk result (IsOnly (IsProgram texts.now.texts link.now)) }
{
    let units = match linked(alloc, texts, link)? {
        Fit::Units(units) => units,
        Fit::Fails(_) => return Ok(None),
    };
    match code_of(alloc, &units)? {
        Some(code) => whole_of(alloc, code),
        None => Ok(None),
    }
}
