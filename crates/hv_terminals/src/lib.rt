//! A terminal's program: the plans of guests that it goes by, its open scripts, what a command asks
//! for, and how its next step shows what the directory gives.
//!
//! Terms: a command is a line of a script; a plan says what a guest of the host tree is made of; a
//! step that is due is asked for, and a step by guest shows a generation once the directory gives it.
#![tactic(auto)]

mod answer;
mod due;
mod laws;
mod owes;
mod plans;
mod script;
mod scripts;
mod session;
mod stack;
mod task;
mod terminal;
#[cfg(test)]
mod tests;
mod work;

pub use answer::{RunAnswer, answer_run};
pub use due::{Begins, Due, Hands, room_for};
pub use laws::{
    terminals_add_vcpus_of_their_plans, terminals_agree_to_what_is_due,
    terminals_ask_for_steps_of_the_board, terminals_open_few_lines,
    terminals_owe_steps_of_the_board, terminals_start_so,
};
pub use plans::{Plans, Unplanned, index_of};
pub use script::OpenScript;
pub use scripts::Scripts;
pub use session::Session;
pub use stack::Stack;
pub use terminal::Terminal;
pub use work::{Work, work_of};
