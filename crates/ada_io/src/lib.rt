//! Integers as texts (4.10, A.10.8): images, numbers in a field of places, and the Get of an integer.
#![tactic(auto)]

mod asking;
pub mod images;
pub mod input;
mod phases;

pub use images::{
    append_digits, append_image, append_padded, image, image_of, padded, truth_image,
};
pub use input::{GetEnd, Got, Reader};
