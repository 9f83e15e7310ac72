//! Assembler text: the words that its lines stand for, and the lines of words.
#![tactic(auto)]

mod assembly;
mod find;
mod forms;
mod laws;
mod line;
mod number;
mod operand;
mod operands;
mod print;
mod refusal;
mod syntax;
#[cfg(test)]
mod tests;
mod word;

pub use assembly::assemble;
pub use laws::{each_text_assembles_or_has_a_bad_line, texts_assemble_one_way};
pub use line::read_asm;
pub use print::print_asm;
pub use refusal::{AsmRefusal, BadLineAsm};
