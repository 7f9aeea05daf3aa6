//! The tags of a new node's sessions are above all that a lost node used.
//!
//! They begin at 2^40 times the losses of the plan with which it began. A lost node acts only while all plans tell of fewer
//! losses, so its numbers are lower, unless 2^40 were used between two losses: at 1,000 writes a second that takes 34 years.
//! With 255 losses at most, numbers stay below 2^48. They are reserved in the journal too. One that is written anew begins with
//! the last plan, which may tell of more losses. Only its own sessions have them, since a later plan numbers the others anew.
#![tactic(auto)]

pub mod laws;
