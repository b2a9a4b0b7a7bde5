//! Texts with an outline, and the line at which others have none.

use std::alloc::{AllocError, Global};
use vd_base::Text;
use vd_outline::{OutlineFault, SectionKind, TextKind, find, head_of, outline_of};

/// What is wanted of a text.
#[derive(Clone, Copy, Debug, PartialEq, Eq)]
enum Wanted {
    Sections(usize),
    NoHead,
    Bad(u32),
}

const UNIT: &[u8] =
    b"unit u\nspec main\nint main ( void )\npre prop ( ) sep ( )\npost prop ( r = vi(5) ) sep ( )\nend\nfn main\nint main ( void ) { int t ; t = 2 + 3 ; return t ; }\nend\nscript main\nset ; return ( ) ;\nend\n";

const LINK: &[u8] = b"link l\nunits\nu\nend\n";

const TEXTS: &[(&[u8], Wanted)] = &[
    (UNIT, Wanted::Sections(3)),
    (LINK, Wanted::Sections(1)),
    (b"interface I\n", Wanted::Sections(0)),
    (b"unit u\nuses\nend\n", Wanted::Sections(1)),
    (
        b"unit u\nfn f\n \nend \nend\nfn g\nend\n",
        Wanted::Sections(2),
    ),
    (b"unit u\nfn f\nend\nspec f\nend\n", Wanted::Sections(2)),
    (b"", Wanted::NoHead),
    (b"\n", Wanted::NoHead),
    (b"unit u", Wanted::NoHead),
    (b"unit\n", Wanted::NoHead),
    (b"unit  u\n", Wanted::NoHead),
    (b"unit u \n", Wanted::NoHead),
    (b"unit 1\n", Wanted::NoHead),
    (b"Unit u\n", Wanted::NoHead),
    (b"unit u\tv\n", Wanted::NoHead),
    (b"link l\n", Wanted::Bad(7)),
    (b"link l\nunits\nu\nend\nunits\nu\nend\n", Wanted::Bad(19)),
    (b"link l\nuses\nu\nend\n", Wanted::Bad(7)),
    (b"link l\nunits\nu\nend\n\n", Wanted::Bad(19)),
    (b"unit u\nfn f\nend\nfn f\nend\n", Wanted::Bad(16)),
    (b"unit u\nuses\nend\nuses\nend\n", Wanted::Bad(16)),
    (b"unit u\nfn f\n", Wanted::Bad(12)),
    (b"unit u\nfn f\nend", Wanted::Bad(12)),
    (b"unit u\nfn f\nx\n\ty\nend\n", Wanted::Bad(14)),
    (b"unit u\nfn f\nx\x7f\nend\n", Wanted::Bad(12)),
    (b"unit u\nfn f\nx\x1f", Wanted::Bad(12)),
    (b"unit u\nfn f\nend\nfn g", Wanted::Bad(16)),
    (b"unit u\n\nfn f\nend\n", Wanted::Bad(7)),
    (b"unit u\nfn\nend\n", Wanted::Bad(7)),
    (b"unit u\nuses v\nend\n", Wanted::Bad(7)),
    (b"unit u\nabstract f\nend\n", Wanted::Bad(7)),
    (b"interface i\nfn f\nend\n", Wanted::Bad(12)),
];

fn answer(alloc: Global, bytes: &[u8]) -> Result<Wanted, AllocError> {
    let text = Text::new(alloc, bytes)?;
    match outline_of(alloc, &text) {
        Ok(outline) => Ok(Wanted::Sections(outline.sections.len())),
        Err(OutlineFault::NoHead) => Ok(Wanted::NoHead),
        Err(OutlineFault::Bad(place)) => Ok(Wanted::Bad(place)),
        Err(OutlineFault::Memory(fault)) => Err(fault),
    }
}

#[test]
fn texts_have_their_outlines(rt: HostRuntime) -> Result<(), AllocError> {
    for (number, (bytes, want)) in TEXTS.iter().enumerate() {
        let answered = answer(rt.alloc(), bytes)?;
        assert_eq!(rt; answered, *want, "text {number}");
    }
    Ok(())
}

#[test]
fn sections_are_found(rt: HostRuntime) -> Result<(), AllocError> {
    let text = Text::new(rt.alloc(), UNIT)?;
    let Some((kind, name)) = head_of(rt.alloc(), &text)? else {
        return Err(AllocError);
    };
    assert!(rt; kind == TextKind::Unit);
    assert!(rt; name.as_bytes() == b"u".as_slice());
    let Ok(outline) = outline_of(rt.alloc(), &text) else {
        return Err(AllocError);
    };
    let sections = outline.sections.as_slice();
    let script = find(sections, SectionKind::Script, Some(b"main"));
    match script {
        Some(section) => {
            assert!(rt;
                section.text.as_bytes() == b"script main\nset ; return ( ) ;\nend\n".as_slice()
            )
        }
        None => return Err(AllocError),
    }
    assert!(rt; find(sections, SectionKind::Script, None).is_none());
    assert!(rt; find(sections, SectionKind::Fn, Some(b"mai")).is_none());
    Ok(())
}
