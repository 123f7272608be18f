//! Rows of a table and what describes them: texts, kinds of columns, data, schemas, rows and their order, calendar
//! dates, and what every crate shares: lists, limits, numbers in decimal, and the answer that memory ran out.
#![tactic(auto)]

mod bag;
mod date;
mod into_rows;
mod items;
pub mod limits;
mod memory;
pub mod numbers;
mod order;
mod row;
mod row_slice;
mod rows;
mod schema;
mod sorting;
mod text;

pub use bag::rows_are_counted;
pub use date::{dates_give_back, read_date, write_date};
pub use into_rows::IntoRows;
pub use items::Items;
pub use memory::{NoMemory, OutOfMemory};
pub use order::{cmp_rows, row_order_is_total};
pub use row::{Datum, Kind, Row, ScannedFile};
pub use row_slice::RowSlice;
pub use rows::Rows;
pub use schema::{Column, RowFault, Schema, SchemaFault, Unsettled, copy_columns};
pub use sorting::sorted;
pub use text::{Text, copy_texts};
