//! What runs of code make of values: values that are lent or made, and the operations on them.
#![tactic(auto)]

mod calls;
mod consumed;
mod held;
mod maps;
mod numbers;
mod pairs;
mod sets;

pub use calls::{next_row, result_held};
pub use consumed::{
    combine_held, compare_held, flat_held, insert_held, is_held_member, join_held, made_int_held,
    pair_elem_held, pair_held, remove_held,
};
pub use held::{Held, HeldElem};
pub use maps::{join_entry, look_held, update_held};
pub use numbers::{compare, made_int, negated_int};
pub use pairs::{elem_half, half};
pub use sets::{combine, insert_elem, is_member, is_unreached, remove_elem, set_elems};
