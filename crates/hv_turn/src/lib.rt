//! History locks: a value with a history, which threads acquire in turns.
//!
//! Turn: the lock, around a value that is Standing, which has a list of entries
//! Pass: a handle, with which one actor acquires and releases the lock; an entry may name it
//! Held: a guard, which has the value while its handle is inside
//! inside: of a handle: it has acquired the lock and not yet released it; else it is outside
//! seen: of a handle: the history as it was when the handle last acquired or released the lock, or
//! when the lock was opened
#![tactic(auto)]

mod held;
mod pass;
mod rule;
mod standing;
mod turn;

pub use held::Held;
pub use pass::Pass;
pub use standing::Standing;
pub use turn::Turn;

#[cfg(test)]
mod tests;
