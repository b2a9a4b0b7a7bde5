//! Cases of head parts with predicates and specifications.

use crate::scopes::Case;

/// Names in predicates and specifications for which nothing stands.
pub(crate) const UNKNOWN_NAMES: &[Case] = &[
    ("unread", b"interface I\nabstract P\n( x )\nend\n", 27, 1),
    (
        "unknown variable",
        b"interface I\npred P\n( a : int , v : val , l : list ) case prop ( a = len(zz) ) sep ( )\nend\n",
        12,
        2,
    ),
    (
        "unknown predicate",
        b"interface I\npred P\n(  ) case prop ( ) sep ( Q() )\nend\n",
        12,
        2,
    ),
    (
        "unknown invariant",
        b"interface I\npred P\n( a : int , v : val , l : list ) case prop ( ) sep ( lock(a, v, Q()) )\nend\n",
        12,
        2,
    ),
    (
        "global of no unit",
        b"interface I\npred P\n(  ) case prop ( addr(g) = addr(g) ) sep ( )\nend\n",
        12,
        2,
    ),
    (
        "global of the unit",
        b"unit u\npred P\n(  ) case prop ( addr(g) = addr(g) ) sep ( )\nend\nglobal g\nint g ;\nend\n",
        0,
        0,
    ),
    (
        "temporary in a case",
        b"interface I\npred P\n( a : int , v : val , l : list ) case prop ( ) local ( x = v ) sep ( )\nend\n",
        12,
        2,
    ),
    (
        "temporaries",
        b"interface I\nspec f\nint f ( int p )\nwith a : int , v : val ;\npre prop ( ) local ( p = v , p = v ) sep ( )\npost prop ( r = v ) sep ( )\nend\n",
        0,
        0,
    ),
    (
        "temporary that is no parameter",
        b"interface I\nspec f\nint f ( int p )\nwith a : int , v : val ;\npre prop ( ) local ( q = v ) sep ( )\npost prop ( ) sep ( )\nend\n",
        12,
        2,
    ),
    (
        "temporary in a post",
        b"interface I\nspec f\nint f ( int p )\nwith a : int , v : val ;\npre prop ( ) sep ( )\npost prop ( ) local ( p = v ) sep ( )\nend\n",
        12,
        2,
    ),
    (
        "result in a pre",
        b"interface I\nspec f\nint f ( int p )\nwith a : int , v : val ;\npre prop ( r = v ) sep ( )\npost prop ( ) sep ( )\nend\n",
        12,
        2,
    ),
    (
        "result of nothing",
        b"interface I\nspec f\nvoid f ( int p )\nwith a : int , v : val ;\npre prop ( ) sep ( )\npost prop ( r = v ) sep ( )\nend\n",
        0,
        0,
    ),
    (
        "struct parameter",
        b"interface I\nspec f\nvoid f ( struct s x )\npre prop ( ) sep ( )\npost prop ( ) sep ( )\nend\n",
        12,
        2,
    ),
    (
        "struct pointers",
        b"interface I\nspec f\nstruct s * f ( struct s * x , lock y )\npre prop ( ) sep ( )\npost prop ( ) sep ( )\nend\n",
        0,
        0,
    ),
];

/// Names that stand twice.
pub(crate) const SECOND_DECLARATIONS: &[Case] = &[
    (
        "variable twice",
        b"interface I\nspec f\nvoid f ( void )\nwith a : int , a : val ;\npre prop ( ) sep ( )\npost prop ( ) sep ( )\nend\n",
        12,
        3,
    ),
    (
        "opened over",
        b"interface I\nspec f\nvoid f ( void )\nwith a : int ;\npre prop ( ) sep ( )\npost ex a : int ; prop ( ) sep ( )\nend\n",
        12,
        3,
    ),
    (
        "result as a variable",
        b"interface I\nspec f\nvoid f ( void )\nwith r : int ;\npre prop ( ) sep ( )\npost prop ( ) sep ( )\nend\n",
        12,
        3,
    ),
    (
        "result opened",
        b"interface I\nspec f\nvoid f ( void )\npre prop ( ) sep ( )\npost ex r : int ; prop ( ) sep ( )\nend\n",
        12,
        3,
    ),
    (
        "argument twice",
        b"interface I\nabstract P\n( a : int , a : int )\nend\n",
        12,
        3,
    ),
    (
        "argument opened over",
        b"interface I\npred P\n( a : int ) case prop ( ) sep ( ) case ex a : int ; prop ( ) sep ( )\nend\n",
        12,
        3,
    ),
    (
        "argument r",
        b"interface I\npred P\n( r : int ) case ex b : int ; prop ( ) sep ( ) case ex b : int ; prop ( ) sep ( )\nend\n",
        0,
        0,
    ),
    (
        "parameter twice",
        b"interface I\nspec f\nvoid f ( int a , int a )\npre prop ( ) sep ( )\npost prop ( ) sep ( )\nend\n",
        12,
        3,
    ),
    (
        "parameter and variable",
        b"interface I\nspec f\nvoid f ( int a )\nwith a : int ;\npre prop ( ) sep ( )\npost prop ( ) sep ( )\nend\n",
        0,
        0,
    ),
    (
        "abstract and defined",
        b"interface I\nabstract P\n(  )\nend\npred P\n(  ) case prop ( ) sep ( )\nend\n",
        32,
        3,
    ),
    (
        "defined in what is used",
        b"unit u\nuses\nI\nend\npred P\n(  ) case prop ( ) sep ( )\nend\n\x00interface I\nabstract P\n(  )\nend\n",
        18,
        3,
    ),
    (
        "defined in what is exported",
        b"unit u\nexports\nI\nend\npred P\n(  ) case prop ( ) sep ( )\nend\n\x00interface I\nabstract P\n(  )\nend\n",
        0,
        0,
    ),
    (
        "defined twice",
        b"unit u\nexports\nI\nend\npred P\n(  ) case prop ( ) sep ( )\nend\n\x00interface I\npred P\n(  ) case prop ( ) sep ( )\nend\n",
        21,
        3,
    ),
    (
        "exported and used",
        b"unit u\nexports\nI\nend\nuses\nJ\nend\npred P\n(  ) case prop ( ) sep ( )\nend\n\x00interface I\nabstract P\n(  )\nend\n\x00interface J\nabstract P\n(  )\nend\n",
        32,
        3,
    ),
    (
        "specified in what is used",
        b"unit u\nuses\nI\nend\nspec f\nvoid f ( void )\npre prop ( ) sep ( )\npost prop ( ) sep ( )\nend\n\x00interface I\nspec f\nvoid f ( void )\npre prop ( ) sep ( )\npost prop ( ) sep ( )\nend\n",
        18,
        3,
    ),
    (
        "specified in what is exported",
        b"unit u\nexports\nI\nend\nspec f\nvoid f ( void )\npre prop ( ) sep ( )\npost prop ( ) sep ( )\nend\n\x00interface I\nspec f\nvoid f ( void )\npre prop ( ) sep ( )\npost prop ( ) sep ( )\nend\n",
        0,
        0,
    ),
];

/// Sorts and types that disagree.
pub(crate) const SORTS: &[Case] = &[
    (
        "sorts of an equation",
        b"interface I\npred P\n( a : int , v : val , l : list ) case prop ( a = v ) sep ( )\nend\n",
        12,
        4,
    ),
    (
        "order of values",
        b"interface I\npred P\n( a : int , v : val , l : list ) case prop ( v <= v ) sep ( )\nend\n",
        12,
        4,
    ),
    (
        "integer of an integer",
        b"interface I\npred P\n( a : int , v : val , l : list ) case prop ( isint(a) ) sep ( )\nend\n",
        12,
        4,
    ),
    (
        "all well",
        b"interface I\npred P\n( a : int , v : val , l : list ) case prop ( each(l, a, a) , a < len(l) , v != undef , l = nil ) sep ( P(a, v, l) , lock(a, v, P(a, v, l)) , holds(v, P(a, v, l)) , token(v, a) , data(a, v, l) )\nend\n",
        0,
        0,
    ),
    (
        "operation",
        b"interface I\npred P\n( a : int , v : val , l : list ) case prop ( a = len(v) ) sep ( )\nend\n",
        12,
        4,
    ),
    (
        "elements",
        b"interface I\npred P\n( a : int , v : val , l : list ) case prop ( l = [a] ) sep ( )\nend\n",
        12,
        4,
    ),
    (
        "too few arguments",
        b"interface I\npred P\n( a : int , v : val , l : list ) case prop ( ) sep ( P(a, v) )\nend\n",
        12,
        4,
    ),
    (
        "other arguments",
        b"interface I\npred P\n( a : int , v : val , l : list ) case prop ( ) sep ( P(v, v, l) )\nend\n",
        12,
        4,
    ),
    (
        "place of a lock",
        b"interface I\npred P\n( a : int , v : val , l : list ) case prop ( ) sep ( lock(a, a, P(a, v, l)) )\nend\n",
        12,
        4,
    ),
    (
        "size of a token",
        b"interface I\npred P\n( a : int , v : val , l : list ) case prop ( ) sep ( token(v, v) )\nend\n",
        12,
        4,
    ),
    (
        "value of a temporary",
        b"interface I\nspec f\nint f ( int p )\nwith a : int , v : val ;\npre prop ( ) local ( p = a ) sep ( )\npost prop ( ) sep ( )\nend\n",
        12,
        4,
    ),
    (
        "result is a value",
        b"interface I\nspec f\nint f ( int p )\nwith a : int , v : val ;\npre prop ( ) sep ( )\npost prop ( r = a ) sep ( )\nend\n",
        12,
        4,
    ),
    (
        "other sorts than exported",
        b"unit u\nexports\nI\nend\npred P\n( a : val ) case prop ( ) sep ( )\nend\n\x00interface I\nabstract P\n( a : int )\nend\n",
        21,
        4,
    ),
    (
        "own sorts count",
        b"unit u\nexports\nI\nend\nspec g\nvoid g ( void )\nwith v : val ;\npre prop ( ) sep ( P(v) )\npost prop ( ) sep ( )\nend\npred P\n( a : val ) case prop ( ) sep ( )\nend\n\x00interface I\nabstract P\n( a : int )\nend\n",
        111,
        4,
    ),
    (
        "other types than exported",
        b"unit u\nexports\nI\nend\nspec f\nint f ( unsigned p )\npre prop ( ) sep ( )\npost prop ( ) sep ( )\nend\n\x00interface I\nspec f\nint f ( int p )\npre prop ( ) sep ( )\npost prop ( ) sep ( )\nend\n",
        21,
        4,
    ),
    (
        "other result than exported",
        b"unit u\nexports\nI\nend\nspec f\nunsigned f ( int p )\npre prop ( ) sep ( )\npost prop ( ) sep ( )\nend\n\x00interface I\nspec f\nint f ( int p )\npre prop ( ) sep ( )\npost prop ( ) sep ( )\nend\n",
        21,
        4,
    ),
    (
        "other names than exported",
        b"unit u\nexports\nI\nend\nspec f\nint f ( int p )\npre prop ( ) sep ( )\npost prop ( ) sep ( )\nend\n\x00interface I\nspec f\nint f ( int q )\npre prop ( ) sep ( )\npost prop ( ) sep ( )\nend\n",
        0,
        0,
    ),
];

/// What a unit lacks.
pub(crate) const BODIES: &[Case] = &[
    (
        "specification without a function",
        b"unit u\nspec f\nvoid f ( void )\npre prop ( ) sep ( )\npost prop ( ) sep ( )\nend\n\x00",
        7,
        6,
    ),
    (
        "specification with one",
        b"unit u\nspec f\nvoid f ( void )\npre prop ( ) sep ( )\npost prop ( ) sep ( )\nend\n\x00fn f\nscript f\n",
        0,
        0,
    ),
    (
        "place 0 goes first",
        b"unit u\nspec f\nvoid f ( void )\npre prop ( ) sep ( )\npost prop ( ) sep ( )\nend\n\x00script g\n",
        0,
        6,
    ),
    (
        "predicate of an export",
        b"unit u\nexports\nI\nend\n\x00interface I\nabstract P\n(  )\nend\n\x00",
        15,
        6,
    ),
    (
        "function of an export",
        b"unit u\nexports\n/* c */ J , I\nend\n\x00interface I\nspec f\nvoid f ( void )\npre prop ( ) sep ( )\npost prop ( ) sep ( )\nend\n\x00interface J\n\x00",
        27,
        6,
    ),
    (
        "function of an export there",
        b"unit u\nexports\nI\nend\n\x00interface I\nspec f\nvoid f ( void )\npre prop ( ) sep ( )\npost prop ( ) sep ( )\nend\n\x00fn f\nscript f\n",
        0,
        0,
    ),
    (
        "own specification without a subsumption",
        b"unit u\nexports\nI\nend\nspec f\nvoid f ( void )\npre prop ( ) sep ( )\npost prop ( ) sep ( )\nend\n\x00interface I\nspec f\nvoid f ( void )\npre prop ( ) sep ( )\npost prop ( ) sep ( )\nend\n\x00fn f\nscript f\n",
        21,
        6,
    ),
    (
        "own specification with one",
        b"unit u\nexports\nI\nend\nspec f\nvoid f ( void )\npre prop ( ) sep ( )\npost prop ( ) sep ( )\nend\n\x00interface I\nspec f\nvoid f ( void )\npre prop ( ) sep ( )\npost prop ( ) sep ( )\nend\n\x00fn f\nscript f\nsub f\n",
        0,
        0,
    ),
    (
        "subsumption without own specification",
        b"unit u\nexports\nI\nend\n\x00interface I\nspec f\nvoid f ( void )\npre prop ( ) sep ( )\npost prop ( ) sep ( )\nend\n\x00fn f\nscript f\nsub f\n",
        0,
        6,
    ),
    (
        "subsumption inside",
        b"unit u\nspec f\nvoid f ( void )\npre prop ( ) sep ( )\npost prop ( ) sep ( )\nend\n\x00fn f\nscript f\nsub f\n",
        0,
        6,
    ),
    (
        "the smaller place",
        b"unit u\nspec f\nvoid f ( void )\npre prop ( ) sep ( )\npost prop ( ) sep ( )\nend\nexports\nI\nend\n\x00interface I\nspec f\nvoid f ( void )\npre prop ( ) sep ( )\npost prop ( ) sep ( )\nend\n\x00",
        7,
        6,
    ),
    (
        "an export of an export",
        b"unit u\nexports\nI\nend\n\x00interface I\nuses\nJ\nend\n\x00interface J\nabstract P\n(  )\nend\n\x00",
        0,
        0,
    ),
    (
        "an interface lacks nothing",
        b"interface I\nspec f\nvoid f ( void )\npre prop ( ) sep ( )\npost prop ( ) sep ( )\nend\nabstract P\n(  )\nend\n\x00",
        0,
        0,
    ),
];
