//! The header page of a pool: who it is, what shape it has, and its layout's name, written twice.
//!
//! Promises whoever makes or opens a pool that `encode` writes exactly the spelling of a header, main pair and
//! copy, and no other word of the page; that `decode` gives the header both pairs spell exactly where they do,
//! else the page's one fault; that `copy_good` mends the page from its good pair. It stands on `pm_words` and
//! `pm_layout`.
//! The spelling is in specs/Spelling.antt, the pairs and faults in specs/Pairs.antt and specs/Faults.antt, and
//! docs/FORMAT.md, "Header page", tells the rest.
#![tactic(auto)]

mod fault;
mod header;
mod laws;
mod name;
mod reading;
mod spelling;

pub use fault::HeaderFault;
pub use header::Header;
pub use laws::one_fault_per_page;
pub use name::Name;
pub use reading::{copy_good, decode};
pub use spelling::encode;

#[cfg(test)]
mod tests;
