// The image: cells in sequence at the layout's widths in lent bytes, and the way from bytes to cells and back.
#![tactic(auto)]

mod codec;
mod image;
mod numbers;

pub use codec::{decode, encode};
pub use image::{Image, ImageStore};
