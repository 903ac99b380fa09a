// The archive for C: an export for each function of crate tickclock, under its name and with its clause: an export
// has its own type for C, and no crate can stand on an archive, so that each stands here once more.
#![tactic(auto)]

mod lent;
mod thread;
mod timer;
