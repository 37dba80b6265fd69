// The public face of the machine, for C and Rust: the entries over a box that stands, its caches slot records. Start is crate
// `box_start`, and what works on one cache by itself crate `box_cache`.
#![tactic(auto)]

pub mod entries;
