//! The rules of the calls: what can be asked of a station and what it answers, as enums, and in specs/ what each call
//! does. The station above is proved to do just that.

#![tactic(auto)]

mod answer;
mod call;
mod fields;

pub use answer::{Answer, Code, LEAST_SHEET};
pub use call::{Call, Macro};
pub use fields::is_task_field;
