//! Sections of C by example, and the first fault of those that cannot be read.

use crate::support::repeated;
use std::alloc::{AllocError, Global};
use vd_base::Text;
use vd_clight::FnText;
use vd_cparse::{ParseFault, parse_decl, parse_section};

const FUNCTIONS: &[(&[u8], Option<ParseFault>)] = &[
    (b"fn f\nvoid f(void){}\nend\n", None),
    (b"fn f\nint f(void){\nend\n", Some(ParseFault::Bad(18))),
    (b"fn f\nvoid f(void){}\nend\n x", Some(ParseFault::Bad(25))),
    (b"fn f\nvoid f(void){}\n", Some(ParseFault::Bad(20))),
    (b"fn f\nvoid g(void){}\nend\n", Some(ParseFault::Bad(10))),
    (b"fn if\nvoid if(void){}\nend\n", Some(ParseFault::Bad(3))),
    (b"fn  f\nvoid f(void){}\nend\n", Some(ParseFault::Bad(4))),
    (
        b"fn f\nvoid f(void){x=a||b;}\nend\n",
        Some(ParseFault::Bad(22)),
    ),
    (
        b"fn f\nvoid f(void){x=007;}\nend\n",
        Some(ParseFault::Bad(21)),
    ),
    (
        b"fn f\nvoid f(void){x=2147483648;}\nend\n",
        Some(ParseFault::Bad(20)),
    ),
    (b"fn f\nvoid f(void){x=4294967295u;}\nend\n", None),
    (
        b"fn f\nvoid f(void){break;}\nend\n",
        Some(ParseFault::Bad(18)),
    ),
    (b"fn f\nvoid f(void){while(1){break;}}\nend\n", None),
    (
        b"fn f\nvoid f(void){x=1/*2\nend\n*/;}\nend\n",
        Some(ParseFault::Bad(21)),
    ),
    (
        b"fn f\nvoid f(void){x=(int)sizeof(int*);p=malloc(sizeof(struct s));}\nend\n",
        None,
    ),
    (
        b"fn f\nvoid f(int a,struct s*b){b->c[a].d=-f(a);}\nend\n",
        Some(ParseFault::Bad(42)),
    ),
];

const DECLARATIONS: &[(&[u8], Option<ParseFault>)] = &[
    (b"struct n\nstruct n{int a;struct n*b[3];};\nend\n", None),
    (b"struct n\nstruct m{};\nend\n", Some(ParseFault::Bad(16))),
    (
        b"struct n\nstruct n{int a[65537];};\nend\n",
        Some(ParseFault::Bad(24)),
    ),
    (b"global x\nint*x[2]={-1,&y};\nend\n", None),
    (b"global x\nint x[0];\nend\n", Some(ParseFault::Bad(15))),
    (b"global x\nint x==1;\nend\n", Some(ParseFault::Bad(15))),
    (b"global x\nint x=->;\nend\n", Some(ParseFault::Bad(16))),
    (b"global x\nint x={};\nend\n", Some(ParseFault::Bad(16))),
    (b"uses\na\nend\n", Some(ParseFault::Bad(0))),
];

/// What stands in front, what stands behind it and how often, and the fault.
const NESTED: &[(&[u8], &[u8], u32, ParseFault)] = &[
    (
        b"fn main\nint main(void){",
        b"if(1){",
        255,
        ParseFault::Deep(1549),
    ),
    (
        b"fn main\nint main(void){return ",
        b"(",
        300,
        ParseFault::Deep(284),
    ),
];

/// A section, and how many parameters, temporaries and statements its function has.
const COUNTED: &[(&[u8], (usize, usize, usize))] = &[
    (
        b"fn reverse\nstruct node * reverse ( struct node * p )\n{ struct node * w ; struct node * t ; w = 0 ;\n  while ( p != 0 ) { t = p -> tail ; p -> tail = w ; w = p ; p = t ; } return w ; }\nend\n",
        (1, 2, 3),
    ),
    (
        b"fn main\nint main ( void ) { struct node * p ; p = reverse ( 0 ) ; return 0 ; }\nend\n",
        (0, 1, 2),
    ),
];

fn fault_of(alloc: Global, text: &Text) -> Option<ParseFault> {
    match parse_section(alloc, text) {
        Ok(_) => None,
        Err(fault) => Some(fault),
    }
}

fn fault_of_declaration(alloc: Global, text: &Text) -> Option<ParseFault> {
    match parse_decl(alloc, text) {
        Ok(_) => None,
        Err(fault) => Some(fault),
    }
}

fn counts(f: &FnText) -> (usize, usize, usize) {
    (f.params.len(), f.temps.len(), f.body.len())
}

#[test]
fn sections_are_read_or_have_their_first_fault(rt: HostRuntime) -> Result<(), AllocError> {
    for (number, (bytes, want)) in FUNCTIONS.iter().enumerate() {
        let text = Text::new(rt.alloc(), bytes)?;
        assert_eq!(rt; fault_of(rt.alloc(), &text), *want, "function {number}");
    }
    for (number, (bytes, want)) in DECLARATIONS.iter().enumerate() {
        let text = Text::new(rt.alloc(), bytes)?;
        assert_eq!(rt;
            fault_of_declaration(rt.alloc(), &text),
            *want,
            "declaration {number}"
        );
    }
    for (number, (front, piece, count, want)) in NESTED.iter().enumerate() {
        let text = repeated(rt.alloc(), front, piece, *count)?;
        assert_eq!(rt; fault_of(rt.alloc(), &text), Some(*want), "nested {number}");
    }
    Ok(())
}

#[test]
fn functions_have_their_parts(rt: HostRuntime) -> Result<(), AllocError> {
    for (number, (bytes, want)) in COUNTED.iter().enumerate() {
        let text = Text::new(rt.alloc(), bytes)?;
        match &parse_section(rt.alloc(), &text) {
            Ok(f) => assert_eq!(rt; counts(f), *want, "function {number}"),
            Err(_) => assert!(rt; false, "function {number}"),
        }
    }
    Ok(())
}
