//! The event core of an OSPF area border router (RFC 2328) for C.
//!
//! `include/abr.h` documents each function. The comments here say what a function returns, and what
//! happens to the core. Places `n` count from 0.
//!
//! - C has a core as two words: a pointer, and a word that is true if it leads to a core. So a call
//!   for a core that is not open returns 60, and closing it does nothing.
//! - C passes bytes, and none of them are kept. If a pointer to bytes may be null, the header tests
//!   it and calls the function whose name ends in `_bytes`. Other languages call that function.
//! - C gets one number. For a configuration, an LSA or a base that is not valid, it is the number
//!   of its own fault, not 54, 55 or 56. Only C has 60 and 61.
//! - The changes of the due summaries are one list over all areas, as a daemon originates LSAs into
//!   each of them.
//! - Items are copied many at a time: finding item `n` takes time for all items before it.
//! - The engine with its threads is not for C: a static library may start no thread and use no
//!   lock. A daemon keeps a core under a lock of its own.
#![tactic(auto)]

mod base;
mod c_types;
mod due;
mod due_changes;
mod events;
mod given;
mod handle;
mod items;
mod lsas;
mod numbers;
mod opening;
mod seed;
mod slot;
mod table;
mod taken;

pub use c_types::{CDue, CDueChange, CHop, CInterface, CItem, CKey, CPrefix, CScope};
pub use slot::Slot;
