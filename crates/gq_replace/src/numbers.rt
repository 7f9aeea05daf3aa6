//! How many numbers of tags are left between two losses.

/// How many numbers of tags are left for what is written between two losses of nodes. The sessions of a new node begin this many higher with
/// each loss that its first plan tells of, so above all that a lost node wrote. At 1,000 writes a second so many last for 34 years.
pub const NUMBERS_OF_A_LOSS: u64 = 1099511627776;
