//! The calls of the C library, whose header is `include/sacn.h`: what each does over what a handle stands for. Each answers a status, a
//! number of its own or that of a fault, and writes to what it is lent.
#![tactic(auto)]

mod collector;
mod console;
mod faults;
mod handle;
mod held_value;
mod loose;
mod monitor;
mod news;
mod node;
mod numbers;
mod packets;
mod pages;
mod reading;
mod release;
mod rooms;
mod source;
mod sources;
mod state;
mod status;
