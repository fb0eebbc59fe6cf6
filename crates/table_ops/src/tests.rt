//! Sessions of one caller over the two stores of one caller.

mod plain;
mod session;
