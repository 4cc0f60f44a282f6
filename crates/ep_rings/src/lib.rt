//! For each owner a circle of keys, linked by the numbers of the keys, and a row of keys that begins where the circle
//! does. A key gets its place beforehand, and then joins the end of a row and leaves it in constant time and without
//! memory.
#![tactic(auto)]

mod circle;
mod circles;
mod keys;
mod link;
mod placed_rows;

pub use crate::circle::Circle;
pub use crate::circles::Circles;
pub use crate::keys::Keys;
pub use crate::placed_rows::PlacedRows;
