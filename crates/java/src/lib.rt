// What Java says of its primitive types, their values and the operators on them.
#![tactic(auto)]

mod codes;
mod operators;
mod results;
mod types;
mod typing;
mod values;

pub use codes::UnknownCode;
pub use operators::{Arithmetic, Binary, Bitwise, Comparison, Equality, Shift, Unary};
pub use results::NoValue;
pub use types::{Numeric, Primitive};
pub use values::Value;
