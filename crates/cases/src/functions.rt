// Upstream's functions: from 1 those of its systick.rs, from 7 those of its usage.rs.
use crate::compare;

#[derive(Clone, Copy)]
pub struct Function {
    // What a row of it begins with.
    pub number: u64,
    pub name: &'static str,
    // Whether our leaf gives a row's answers. It is handed the columns after the number. None where there are too few
    // or too many, or one that its type can't hold.
    pub compare: fn(&[u64]) -> Option<bool>,
}

pub const FUNCTIONS: [Function; 17] = [
    Function {
        number: 1,
        name: "elapsed_cycles",
        compare: compare::elapsed_cycles,
    },
    Function {
        number: 2,
        name: "cycles_to_ticks",
        compare: compare::cycles_to_ticks,
    },
    Function {
        number: 3,
        name: "ticks_to_cycles",
        compare: compare::ticks_to_cycles,
    },
    Function {
        number: 4,
        name: "max_ticks",
        compare: compare::max_ticks,
    },
    Function {
        number: 5,
        name: "elapsed_decide",
        compare: compare::elapsed_decide,
    },
    Function {
        number: 6,
        name: "announce_decide",
        compare: compare::announce_decide,
    },
    Function {
        number: 7,
        name: "new_idle",
        compare: compare::new_idle,
    },
    Function {
        number: 8,
        name: "is_tracked",
        compare: compare::is_tracked,
    },
    Function {
        number: 9,
        name: "enable",
        compare: compare::enable,
    },
    Function {
        number: 10,
        name: "disable",
        compare: compare::disable,
    },
    Function {
        number: 11,
        name: "accumulate",
        compare: compare::accumulate,
    },
    Function {
        number: 12,
        name: "sys_enable_decide",
        compare: compare::sys_enable_decide,
    },
    Function {
        number: 13,
        name: "sys_disable_decide",
        compare: compare::sys_disable_decide,
    },
    Function {
        number: 14,
        name: "start_decide",
        compare: compare::start_decide,
    },
    Function {
        number: 15,
        name: "stop_decide",
        compare: compare::stop_decide,
    },
    Function {
        number: 16,
        name: "average_cycles",
        compare: compare::average_cycles,
    },
    // The timer's leaves have one of that name too.
    Function {
        number: 17,
        name: "usage elapsed_cycles",
        compare: compare::usage_elapsed_cycles,
    },
];
