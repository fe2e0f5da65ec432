//! Views: 16 bytes that hold a short value, or name the bytes of a long one, and the checks of raw views. Arrow columnar
//! format, "Variable-size Binary View Layout".
#![tactic(auto)]

mod laws;
mod lengths;
mod strided;
mod validate;
mod view;

pub use laws::{
    inline_views_are_contents, made_view_says_its_bytes, no_fault_in_each,
    other_place_keeps_the_rest, texts_are_byte_strings,
};
pub use lengths::sum_of_lengths;
pub use validate::{
    check_contents, check_views, validate_binary_view, validate_utf8_only, validate_utf8_view,
};
pub use view::View;
