//! Exact decimal numbers, read from texts and added up.
//!
//! # Examples
//!
//! ```
//! use h3_numbers::{MAX_SUM_LEN, Sum, read_number, write_sum};
//!
//! fn put_sum(amounts: &[&[u8]], text: &mut [u8; MAX_SUM_LEN]) -> Option<usize> {
//!     let mut sum = Sum::new();
//!     for amount in amounts {
//!         if sum.count() == 1 << 63 {
//!             return None;
//!         }
//!         sum = sum.plus(read_number(amount)?);
//!     }
//!     Some(write_sum(sum, text))
//! }
//! ```
#![tactic(auto)]

pub mod laws;
mod number;
mod powers;
mod reading;
mod sum;
mod writing;

pub use number::Number;
pub use reading::read_number;
pub use sum::Sum;
pub use writing::{MAX_SUM_LEN, write_sum};
