//! Why a line stands for nothing, and a text for no bytes.
use std::alloc::AllocError;

/// A line is neither blank nor one of the forms.
#[derive(Clone, Copy, Debug, PartialEq, Eq)]
pub struct BadLineAsm;

/// Why a text gave no bytes.
#[derive(Debug, Drop)]
pub enum AsmRefusal {
    /// The number, from 1, of the first line that is neither blank nor one of the forms.
    BadAsm(usize),
    /// Memory ran out.
    Memory(AllocError),
}
