//! Records of fields, over a text's lines.
//!
//! - `rows`: texts and their records, lent and copied, ten thousand empty lines, and a line of a mebibyte.
//! - `kinds`: how fields are held, and how many bytes are copied for them.
//! - `reader`: records that are drawn one after another.

mod kinds;
mod reader;
mod rows;
mod told;
