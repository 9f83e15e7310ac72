//! The words of event lines: numbers, addresses, bytes, names, paths, and the states and choices that
//! steps and replies tell.
//!
//! Terms: a datum is one word of a line, of a kind that its place says; the generation of a slot is the
//! slot and the number of guests that were claimed before; signal changes tell what a step changed of a
//! region's interrupt line and of the pins of VCPUs.
#![tactic(auto)]

mod law;
mod parts;
mod push;
mod refusal;
mod spelled;
mod take;
mod word;

pub use law::{data_are_unambiguous, words_have_no_space};
pub use parts::{behind_word, first_word, split_at_byte};
pub use push::{
    push_access_kind, push_address, push_address_type, push_bytes, push_changes, push_direction,
    push_generation, push_names, push_next_stage, push_path, push_stage, push_state,
    push_state_name,
};
pub use refusal::WordRefusal;
pub use spelled::{
    access_kind_word, address_type_word, direction_word, next_stage_word, stage_word,
    state_name_word,
};
pub use take::{
    take_access_kind, take_address, take_address_type, take_bytes, take_changes, take_direction,
    take_generation, take_name, take_names, take_next_stage, take_number, take_number8, take_path,
    take_stage, take_state, take_state_name,
};
pub use word::{
    address_word, bytes_word, changes_word, generation_word, name_word, names_word, number_word,
    number8_word, path_word, state_word,
};

#[cfg(test)]
mod tests;
