//! Trees printed as device tree source.
#![tactic(auto)]

mod print;
mod print_len;
mod print_line;
#[cfg(test)]
mod tests_printing;

pub use print::print_root;
