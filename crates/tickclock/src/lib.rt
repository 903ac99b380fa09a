// The leaves for C: plain numbers in, a number or one field out, or a thread record lent. Each refuses for itself;
// crate tickclock_c exports them.
#![tactic(auto, unfolding(error::specs::Said::number_in))]

pub mod lent;
mod plain;
pub mod thread;
pub mod timer;
