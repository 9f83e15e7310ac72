//! A look on the heap.
ghost use Rattle.std.specs.Prelude.{◌≡◌, IfOk};

use crate::look::Look;
use std::alloc::{AllocError, Global};
use std::marker::Model;

/// A look in its own room, which contracts see as the look: what may hold one stays small.
#[derive(Debug, Drop)]
pub struct BoxedLook {
    look: Box<Look>,
}

impl Model for BoxedLook {
    ghost use Rattle.hv_look.specs.declared.look.Look.{Look};

    ghost Value = { Look };

    ghost view = { λ b. b.look.value };
}

impl BoxedLook {
    /// This look.
    pub fn new(alloc: Global, look: Look) -> Result<BoxedLook, AllocError>
        ensures { IfOk result (λ boxed. boxed ≡ look) }
    {
        Ok(BoxedLook {
            look: Box::new(alloc, look)?,
        })
    }

    /// The look that is held.
    pub fn as_look(&self) -> &Look
        ensures { result.now ≡ self.now }
    {
        &self.look
    }
}
