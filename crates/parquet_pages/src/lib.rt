//! The pages of Parquet files, both ways: PLAIN values, definition levels, dictionaries and the places of values in them.
#![tactic(auto)]

mod dictionary;
mod fault;
mod hybrid;
mod laws;
mod levels;
mod pages;
mod places;
mod plain;

pub use dictionary::{Dictionary, Indexed, count_present};
pub use laws::{dictionaries_pay, nulls_are_found, pages_are_read, pages_read_back};
pub use pages::{page_has_null, read_dictionary, read_page, write_page};
