// The machine as its callers use it: entries that judge any state that they are handed.
#![tactic(auto)]

pub mod entries;
