// Cycles and ticks: two kinds of number that can't be mixed. The conversions in systick are the way across.
#![tactic(auto)]

// Cycles of the timer's clock: a time, a count or a total. Laid out for C as its one number.
#[repr(C)]
#[derive(Clone, Copy, Default)]
pub struct Cycles(pub u64);

// Ticks of the kernel: a number of them, never a time in cycles.
#[derive(Clone, Copy, Default)]
pub struct Ticks(pub u64);
