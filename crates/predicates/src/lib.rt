//! Predicates over rows in three-valued logic: how they are written down as trees, how their names are bound to the
//! places of a schema, and their truth for a row.
#![tactic(auto)]

mod bind;
mod bind_expr;
mod copies;
mod expr;
mod fault;
mod pred;
mod truth;

pub use copies::ColumnKey;
pub use expr::{Expr, ExprFault};
pub use fault::BindFault;
pub use pred::{Op, Operand, Pred};
pub use truth::Truth;
