//! From sources to an image and an import library, and from an image to the ROM.
#![tactic(auto)]

mod constant;
mod image;
mod load;

pub use constant::{one_constant, read_constant};
pub use image::{Gate, write_image};
pub use load::{ImageFault, load_image};
