//! Links of which a condition fails, links without a program, and programs by their counts.

ghost use Rattle.std.specs.Prelude.{IfOk, IsTrue};
ghost use Rattle.vd_linkage.specs.Form.{ArePlain};

use crate::support::snapshot_of;
use std::alloc::{AllocError, Global};
use vd_base::{List, Text};
use vd_clight::Program;
use vd_code::{Code, add_unit};
use vd_declared::{declared_twice, has_one_main};
use vd_ground_tests::name;
use vd_link::{conditions, program};
use vd_linkage::{is_plain, is_read};
use vd_outline::Outline;
use vd_store::Snapshot;
use vd_units::{Listed, units_of};
use vd_whole::is_whole;

/// What is shown, texts, and the condition of the link `l` that fails as it is printed; nothing where all hold.
const CONDITIONS: &[(&str, &[u8], &[u8])] = &[
    (
        "no link",
        b"unit u\nfn main\nint main ( void ) { return 0 ; }\nend\n\0",
        b"1 0",
    ),
    ("a unit of that name", b"unit l\n\0", b"1 0"),
    (
        "no outline",
        b"link l\nunits\nu\nend\nfn f\nend\n\0",
        b"1 19",
    ),
    ("no sections", b"link l\n\0", b"1 7"),
    ("no names", b"link l\nunits\nend\n\0", b"1 13"),
    (
        "a comma too much",
        b"link l\nunits\nu , , v\nend\n\0",
        b"1 17",
    ),
    ("no such unit", b"link l\nunits\nu\nend\n\0", b"2 u"),
    ("a link is no unit", b"link l\nunits\nl\nend\n\0", b"2 l"),
    (
        "a unit without an outline",
        b"link l\nunits\nu\nend\n\0unit u\nend\n\0",
        b"2 u",
    ),
    (
        "the second name is no unit, the third stands twice",
        b"link l\nunits\nu , v , u\nend\n\0unit u\n\0",
        b"2 u",
    ),
    (
        "a global in two units",
        b"link l\nunits\nu , v\nend\n\0unit u\nglobal g\nint g ;\nend\n\0unit v\nglobal g\nint g ;\nend\n\0",
        b"6 g",
    ),
    (
        "the first by the place of its first declaration",
        b"link l\nunits\nu , v\nend\n\0unit u\nstruct s\nstruct s { int a ; } ;\nend\nglobal g\nint g ;\nend\n\0unit v\nglobal g\nint g ;\nend\nstruct s\nstruct s { int a ; } ;\nend\n\0",
        b"6 s",
    ),
    (
        "a section that is not read declares nothing",
        b"link l\nunits\nu , v\nend\n\0unit u\nglobal g\nint ;\nend\n\0unit v\nglobal g\nint g ;\nend\n\0",
        b"7",
    ),
    (
        "a specification and a function of two units",
        b"link l\nunits\nu , v\nend\n\0unit u\nspec f\nvoid f ( void )\npre prop ( ) sep ( )\npost prop ( ) sep ( )\nend\n\0unit v\nfn f\nvoid f ( void ) { return ; }\nend\n\0",
        b"6 f",
    ),
    (
        "main with a parameter",
        b"link l\nunits\nu\nend\n\0unit u\nfn main\nint main ( int a ) { return 0 ; }\nend\n\0",
        b"7",
    ),
    (
        "all hold, whatever a head part says",
        b"link l\nunits\nu\nend\n\0unit u\nfn main\nint main ( void ) { return 0 ; }\nend\nglobal g\nint ;\nend\n\0",
        b"",
    ),
];

/// What is shown, and texts of which the link `l` has no program.
const WITHOUT_PROGRAM: &[(&str, &[u8])] = &[
    ("a condition fails", b"link l\nunits\nu\nend\n\0"),
    (
        "a section of the head part is not read",
        b"link l\nunits\nu\nend\n\0unit u\nfn main\nint main ( void ) { return 0 ; }\nend\nglobal g\nint ;\nend\n\0",
    ),
    (
        "a function is not read",
        b"link l\nunits\nu\nend\n\0unit u\nfn main\nint main ( void ) { return 0 ; }\nend\nfn f\nvoid f ( void ) { return }\nend\n\0",
    ),
    (
        "a function is not typed",
        b"link l\nunits\nu\nend\n\0unit u\nfn main\nint main ( void ) { int t ; t = u ; return 0 ; }\nend\n\0",
    ),
    (
        "a called function is specified and not there",
        b"link l\nunits\nu\nend\n\0unit u\nspec f\nvoid f ( void )\npre prop ( ) sep ( )\npost prop ( ) sep ( )\nend\nfn main\nint main ( void ) { f ( ) ; return 0 ; }\nend\n\0",
    ),
    (
        "an initial value names what is no global",
        b"link l\nunits\nu\nend\n\0unit u\nglobal g\nint * g = & h ;\nend\nfn main\nint main ( void ) { return 0 ; }\nend\n\0",
    ),
];

/// What is shown, texts, how many functions and globals the program of the link `l` has, and the number of its main.
const PROGRAMS: &[(&str, &[u8], (usize, usize, u32))] = &[
    (
        "one function",
        b"link l\nunits\nu\nend\n\0unit u\nspec main\nint main ( void )\npre prop ( ) sep ( )\npost prop ( r = vi(5) ) sep ( )\nend\nfn main\nint main ( void ) { int t ; t = 2 + 3 ; return t ; }\nend\nscript main\nset ; return ( ) ;\nend\n\0",
        (1, 0, 0),
    ),
    (
        "it goes past the numbers of its type",
        b"link l\nunits\nu\nend\n\0unit u\nspec main\nint main ( void )\npre prop ( ) sep ( )\npost prop ( r = vi(5) ) sep ( )\nend\nfn main\nint main ( void ) { int x ; x = 2147483647 ; x = x + 1 ; return x ; }\nend\n\0",
        (1, 0, 0),
    ),
    (
        "a race",
        b"link l\nunits\nrace\nend\n\0unit race\nglobal x\nint x = 0 ;\nend\nspec w\nvoid w ( int * p )\nwith v : val ;\npre prop ( ) local ( p = v ) sep ( data(32, v, [vi(0)]) )\npost prop ( ) sep ( data(32, v, [vi(1)]) )\nend\nfn w\nvoid w ( int * p ) { * p = 1 ; return ; }\nend\nspec main\nint main ( void )\npre prop ( ) sep ( data(64, addr(x), [vi(0)]) )\npost prop ( ) sep ( data(32, addr(x), [vi(2)]) )\nend\nfn main\nint main ( void ) { spawn ( w , & x ) ; x = 2 ; return 0 ; }\nend\n\0",
        (2, 1, 1),
    ),
    (
        "a lock that is released twice",
        b"link l\nunits\ntwice\nend\n\0unit twice\nglobal l\nlock l ;\nend\npred E\n( )\ncase prop ( ) sep ( )\nend\nspec main\nint main ( void )\npre prop ( ) sep ( data(64, addr(l), [vi(0)]) )\npost prop ( ) sep ( lock(64, addr(l), E()) )\nend\nfn main\nint main ( void ) { makelock ( & l ) ; release ( & l ) ; release ( & l ) ; return 0 ; }\nend\n\0",
        (1, 1, 0),
    ),
    (
        "two units, in the order of the link",
        b"link l\nunits\nv , u\nend\n\0unit u\nspec main\nint main ( void )\npre prop ( ) sep ( )\npost prop ( ) sep ( )\nend\nfn main\nint main ( void ) { return 0 ; }\nend\n\0unit v\nspec f\nvoid f ( void )\npre prop ( ) sep ( )\npost prop ( ) sep ( )\nend\nfn f\nvoid f ( void ) { return ; }\nend\nglobal g\nint g [ 3 ] ;\nend\n\0",
        (2, 1, 1),
    ),
];

/// Whether all texts are of the form.
fn are_plain(alloc: Global, snapshot: &Snapshot) -> Result<bool, AllocError>
    ensures { IfOk result (λ plain. IsTrue plain → ArePlain snapshot.now.texts) }
{
    for (_, _, text) in snapshot.texts.as_slice() {
        if !is_plain(alloc, text)? {
            return Ok(false);
        }
    }
    Ok(true)
}

/// The condition of the link `l` that fails as it is printed; `outside` where the texts are not of the form.
fn failing(alloc: Global, bytes: &[u8]) -> Result<Option<Text>, AllocError> {
    let snapshot = snapshot_of(alloc, bytes)?;
    if !are_plain(alloc, &snapshot)? {
        return Ok(Some(Text::new(alloc, b"outside")?));
    }
    conditions(alloc, &snapshot, &name(alloc, b"l")?)
}

/// How many functions and globals the program of the link `l` has, and the number of its main; none without a program.
fn counts_of(alloc: Global, bytes: &[u8]) -> Result<Option<(usize, usize, u32)>, AllocError> {
    let snapshot = snapshot_of(alloc, bytes)?;
    if !are_plain(alloc, &snapshot)? {
        return Ok(None);
    }
    match program(alloc, &snapshot, &name(alloc, b"l")?)? {
        Some(program) => Ok(Some((program.fns.len(), program.globals.len(), program.main))),
        None => Ok(None),
    }
}

#[test]
fn links_have_their_failing_conditions(rt: HostRuntime) -> Result<(), AllocError> {
    for (shown, texts, want) in CONDITIONS {
        match failing(rt.alloc(), texts)? {
            Some(found) => assert!(rt; found.as_bytes() == *want, "{shown}"),
            None => assert!(rt; want.is_empty(), "{shown}"),
        }
    }
    Ok(())
}

#[test]
fn links_have_their_programs(rt: HostRuntime) -> Result<(), AllocError> {
    for (shown, texts) in WITHOUT_PROGRAM {
        let found = counts_of(rt.alloc(), texts)?;
        assert!(rt; found.is_none(), "{shown}");
    }
    for (shown, texts, want) in PROGRAMS {
        let found = counts_of(rt.alloc(), texts)?;
        assert!(rt; found == Some(*want), "{shown}");
    }
    Ok(())
}

/// Whether the section of number 0 of each unit is read.
fn are_first_read(alloc: Global, units: &List<Outline>) -> Result<bool, AllocError> {
    for unit in units.as_slice() {
        match unit.sections.get(0) {
            Some(section) => {
                if !is_read(alloc, section)? {
                    return Ok(false);
                }
            }
            None => return Ok(false),
        }
    }
    Ok(true)
}

/// The functions and globals of units; none where a unit has none.
fn code_of(alloc: Global, units: &List<Outline>) -> Result<Option<Code>, AllocError> {
    let mut code = Code::new(alloc);
    for unit in units.as_slice() {
        if !add_unit(alloc, unit, &mut code)? {
            return Ok(None);
        }
    }
    Ok(Some(code))
}

/// The units of the link `l`; none where it is at fault.
fn listed(alloc: Global, bytes: &[u8]) -> Result<Option<List<Outline>>, AllocError> {
    let snapshot = snapshot_of(alloc, bytes)?;
    match units_of(alloc, &snapshot, &name(alloc, b"l")?)? {
        Listed::Units(units) => Ok(Some(units)),
        Listed::Outside(_) => Ok(None),
        Listed::Other(_) => Ok(None),
    }
}

const TWO_UNITS: &[u8] =
    b"link l\nunits\nv , u\nend\n\0unit u\nfn main\nint main ( void ) { return 0 ; }\nend\n\0unit v\nfn f\nvoid f ( void ) { return ; }\nend\nglobal g\nint g [ 3 ] ;\nend\n\0";

/// Each part of linking finds memory.
#[test]
fn units_are_put_together(rt: HostRuntime) -> Result<(), AllocError> {
    let found = listed(rt.alloc(), TWO_UNITS)?;
    let Some(units) = found else {
        assert!(rt; false);
        return Ok(());
    };
    assert!(rt; units.len() == 2);
    assert!(rt; are_first_read(rt.alloc(), &units)?);
    assert!(rt; declared_twice(rt.alloc(), &units)?.is_none());
    assert!(rt; has_one_main(rt.alloc(), &units)?);
    let made = code_of(rt.alloc(), &units)?;
    let Some(code) = made else {
        assert!(rt; false);
        return Ok(());
    };
    let Code { fns, globals } = code;
    let program = Program {
        fns,
        globals,
        main: 1,
    };
    assert!(rt; is_whole(rt.alloc(), &program)?);
    Ok(())
}
