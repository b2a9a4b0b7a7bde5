//! Functions as they are printed: those of a unit that reverses a list, and the fewest brackets.

use std::alloc::{AllocError, Global};
use vd_base::Text;
use vd_clight::print;
use vd_cparse::parse_section;

/// A section, and what is printed of its function. 1 - (2 - 3) is in brackets, (4 - 5) - 6 is not, a product in a sum is
/// not, a sum in a product is.
const FUNCTIONS: &[(&[u8], &[u8])] = &[
    (
        b"fn reverse\nstruct node*reverse(struct node*p){struct node*w;struct node*t;w=0;while(p!=0){t=p->tail;p->tail=w;w=p;p=t;}return w;}\nend\n",
        b"struct node * reverse ( struct node * p ) { struct node * w ; struct node * t ; w = 0 ; while ( p != 0 ) { t = p -> tail ; p -> tail = w ; w = p ; p = t ; } return w ; }",
    ),
    (
        b"fn main\nint main(void){struct node*p;p=reverse(0);return 0;}\nend\n",
        b"int main ( void ) { struct node * p ; p = reverse ( 0 ) ; return 0 ; }",
    ),
    (
        b"fn main\nint main(void){struct node*p;if((-((1-(2-3))*((4-5)-6)))+7u){;}return 0;}\nend\n",
        b"int main ( void ) { struct node * p ; if ( - ( ( 1 - ( 2 - 3 ) ) * ( 4 - 5 - 6 ) ) + 7u ) { ; } return 0 ; }",
    ),
];

/// Whether this is what is printed of the function that a section reads as.
fn is_printed(alloc: Global, section: &[u8], want: &[u8]) -> Result<bool, AllocError> {
    let section = Text::new(alloc, section)?;
    match parse_section(alloc, &section) {
        Ok(f) => {
            let found = print(alloc, &f)?;
            Ok(found.as_bytes() == want)
        }
        Err(_) => Ok(false),
    }
}

#[test]
fn functions_are_printed(rt: HostRuntime) -> Result<(), AllocError> {
    for (number, (section, want)) in FUNCTIONS.iter().enumerate() {
        assert!(rt; is_printed(rt.alloc(), section, want)?, "function {number}");
    }
    Ok(())
}
