//! The lines that match an address with one weight.

/// The lines of a file system that match an address with one weight.
#[derive(Clone, Copy)]
pub struct Weighed<'a> {
    /// How heavy they are: 34 by a name, one more than the prefix by a network, 0 for everybody.
    pub weight: u8,
    /// Their numbers, in ascending order.
    pub lines: &'a [u32],
}
