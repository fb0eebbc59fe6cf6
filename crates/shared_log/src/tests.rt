//! Callers of any log, at the forms for one caller and for several, and passes in threads.

mod callers;
mod calls;
mod forms;
mod threads;
mod worked;
