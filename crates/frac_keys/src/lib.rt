//! Fractional keys: between any two of them there is another one, by the order of their bytes.
#![tactic(auto)]

mod digits;
mod generate;
mod integers;
mod key;
mod midpoint;
mod parts;
mod spread;

pub use generate::between;
pub use key::Key;
pub use spread::n_between;
