//! A caller of any store, and the stores of one caller.

mod held;
mod moves;
mod stores;
