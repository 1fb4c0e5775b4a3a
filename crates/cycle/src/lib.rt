// The record of a cycle (document 01, 'Resolution'): for the definitions, the steps and the callers alike.
#![tactic(auto)]

// "three pair numbers in giving order from the lowest place, the third N for a two"
#[repr(C)]
#[derive(Clone, Copy)]
pub struct Cycle {
    pub first: u16,
    pub second: u16,
    pub third: u16,
}
