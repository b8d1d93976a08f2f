//! Readers and writers that remember whether a call on them failed. It knows which errors count as a fault, and not
//! what is read or written, or why. It promises that only a call that failed makes a tap a failed one: no crate above
//! it can do so by itself.
#![tactic(auto)]

mod taps;

pub use taps::Tap;
