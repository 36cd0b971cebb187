//! Five uses of `hipstr`, each written as its user would write it, over `hipstr` alone (`table` over `hip_fields` too).
//!
//! - [`template`]: `{{name}}` in a text stands for what goes under that name.
//! - [`tokens`]: a source is cut into runs of one class.
//! - [`queue`]: a message goes to many subscribers as clones of one handle.
//! - [`intern`]: each different text is kept once, and has a number.
//! - [`table`]: a header names the columns of the rows below it.
//!
//! [`tools`] write what these make of an input, line by line.
//!
//! [`packed`] makes the maps of `intern` and `template` faster where their hasher is seeded.
#![tactic(auto)]

mod fault;
pub mod intern;
mod keyed;
pub mod packed;
pub mod queue;
pub mod table;
pub mod template;
pub mod tokens;
pub mod tools;
