//! Conditions in order.

/// What passes its conditions, or the number of the first condition that fails.
#[derive(Drop)]
pub enum Checked<A> {
    Passed(A),
    Refused(u8),
}
