mod ages;
mod compared;
mod memory;
mod order;
mod plain;
