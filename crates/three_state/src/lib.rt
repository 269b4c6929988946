//! The algebra of results: complete, on placeholders, incomplete, or at fault.
#![tactic(auto)]

mod all_any;
mod junction;
pub mod laws;
mod res;
mod strict;

pub use all_any::{AllFold, AnyFold};
pub use res::{Res, down, truth};
pub use strict::{Strict, Verdict, finish};
