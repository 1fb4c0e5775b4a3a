// A live pool (document 02, W-206 and W-207): what starting it, registering a pair and withdrawing one answer and leave, what is promised of these calls
// and of every list of them, and examples. Here is a pair as the calls have it.
#![tactic(auto)]

// A pair that is registered.
#[repr(C)]
#[derive(Clone, Copy)]
pub struct Pair {
    pub id: u32,
    pub donor_blood: u8,
    pub patient_blood: u8,
    pub donor_age: u8,
    pub patient_age: u8,
    pub donor_antigens: u64,
    pub patient_antigens: u64,
    pub patient_antibodies: u64,
}
