//! The library for callers in C: sends of one stream and of several channels, and loads of them
//! into blocks of C; files with mapped-ram; hellos and packets. Its header is `include/zimgasol.h`,
//! which describes each call.
//!
//! C has a handle (`handle`) for each object that it works on, and passes it to each call. The
//! handle owns the object in a box (`object`). A call requires of its handle that it has an object
//! of the call's kind, or none. It tests every other condition, and returns a status, by the
//! libraries `mig_c_calls`, `mig_c_loads` and `mig_c_mapped`, whose relations its contract states of
//! the object. In each module the exported functions take the object out of its handle, make the
//! call on it, and put it back.
#![tactic(auto)]

mod handle;
mod load;
mod loose;
mod mapped;
mod object;
mod packet;
mod send;
mod table;
mod text;
mod worker;
