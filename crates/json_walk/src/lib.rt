//! From bytes to JSON; from JSON to the values of messages, or the first offence with its place.
#![tactic(auto)]

mod alphabet;
mod fields;
mod leaves;
mod numbers;
mod places;
mod readers;
mod refusal;
mod value;
mod walk;

pub use alphabet::is_authority;
pub use fields::{Reader, alone, field, field_place, must, optional, required};
pub use json_tables::Message;
pub use leaves::{
    choice_of, items_of, list_of, or_empty, read_list, text_of, text_or_empty, truth_of,
};
pub use numbers::{count_of, whole_of};
pub use places::{at_index, under};
pub use readers::{AnyText, Int64, ListOf, Truth};
pub use refusal::{Kind, ReadFail, Refusal, refused, refused_at};
pub use text_base::Text;
pub use value::read_value;
pub use walk::{Names, members, object_of};
