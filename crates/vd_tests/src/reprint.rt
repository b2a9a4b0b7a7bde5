//! The functions of a unit that reverses a list, and one whose brackets and `else` drop out: each is read, printed, and
//! read and printed again.

use std::alloc::{AllocError, Global};
use vd_base::Text;
use vd_cparse::parse_section;
use vd_reprint::print_section;

/// A section, and the section that is printed of it.
const SECTIONS: &[(&[u8], &[u8])] = &[
    (
        b"fn reverse\nstruct node*reverse(struct node*p){\n  struct node*w; struct node*t;\n  w=0; while(p!=0){t=p->tail; p->tail=w; w=p; p=t;}\n  return w;\n}\nend\n",
        b"fn reverse\nstruct node * reverse ( struct node * p ) { struct node * w ; struct node * t ; w = 0 ; while ( p != 0 ) { t = p -> tail ; p -> tail = w ; w = p ; p = t ; } return w ; }\nend\n",
    ),
    (
        b"fn main\nint main(void){\n  struct node*p; // an empty list\n  p=reverse(0); return 0;\n}\nend\n",
        b"fn main\nint main ( void ) { struct node * p ; p = reverse ( 0 ) ; return 0 ; }\nend\n",
    ),
    (
        b"fn f\nvoid f(int a){if((a-1)-(2-a)){;}else{} a=((a));}\nend\n",
        b"fn f\nvoid f ( int a ) { if ( a - 1 - ( 2 - a ) ) { ; } a = a ; }\nend\n",
    ),
];

/// Whether this is the section that is printed of the function that a section reads as.
fn is_printed(alloc: Global, section: &[u8], want: &[u8]) -> Result<bool, AllocError> {
    let section = Text::new(alloc, section)?;
    match parse_section(alloc, &section) {
        Ok(f) => {
            let found = print_section(alloc, &f)?;
            Ok(found.as_bytes() == want)
        }
        Err(_) => Ok(false),
    }
}

#[test]
fn printed_sections_read_back(rt: HostRuntime) -> Result<(), AllocError> {
    for (number, (section, want)) in SECTIONS.iter().enumerate() {
        assert!(rt; is_printed(rt.alloc(), section, want)?, "section {number}");
        assert!(rt;
            is_printed(rt.alloc(), want, want)?,
            "section {number} again"
        );
    }
    Ok(())
}
