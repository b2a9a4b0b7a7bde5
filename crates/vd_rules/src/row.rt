//! Polynomials and rows, over terms of any kind.

use vd_base::List;

/// A coefficient times a product of terms.
#[derive(Drop)]
pub struct MonomialOf<A> {
    pub coefficient: i128,
    pub product: List<A>,
}

/// The left side of `0 <= e`: unknowns with their coefficients, and a constant.
#[derive(Drop)]
pub struct RowOf<A> {
    pub parts: List<(A, i128)>,
    pub constant: i128,
}
