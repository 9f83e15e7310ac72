//! Paths of faulty nodes.
ghost use Rattle.std.specs.Prelude.{◌≡◌, ◌∷◌, ◌++◌, [], codes, IfOk, OnOk};
ghost use Rattle.hv_text.specs.Path.{path_text};
ghost use Rattle.hv_plan.specs.Reading.{Tells};

use crate::refusal::PlanRefusal;
use hv_kinds::Cause;
use hv_text::Bytes;
use std::alloc::{AllocError, Global};

fn push_name(path: &mut Bytes, name: &[u8]) -> Result<(), AllocError>
    ensures { OnOk result (path.new ≡ path.old ++ 47 ∷ name.now) }
{
    path.append(b"/")?;
    path.append(name)
}

/// The path of a node at the top.
pub(crate) fn path_of_one(alloc: Global, name: &[u8]) -> Result<Bytes, AllocError>
    ensures { IfOk result (λ path. path ≡ path_text (name.now ∷ [])) }
{
    let mut path = Bytes::from_vec(Vec::new(alloc));
    push_name(&mut path, name)?;
    Ok(path)
}

/// The path of a node below one at the top.
pub(crate) fn path_of_two(alloc: Global, above: &[u8], name: &[u8]) -> Result<Bytes, AllocError>
    ensures { IfOk result (λ path. path ≡ path_text (above.now ∷ name.now ∷ [])) }
{
    let mut path = path_of_one(alloc, above)?;
    push_name(&mut path, name)?;
    Ok(path)
}

/// The path of a guest's VCPU or region.
fn path_of_four(alloc: Global, guest: &[u8], inner: &[u8], name: &[u8]) -> Result<Bytes, AllocError>
    ensures { IfOk result (λ path. path ≡ path_text (codes "guests" ∷ guest.now ∷ inner.now ∷ name.now ∷ [])) }
{
    let mut path = path_of_two(alloc, b"guests", guest)?;
    push_name(&mut path, inner)?;
    push_name(&mut path, name)?;
    Ok(path)
}

/// A fault of a guest's node.
pub(crate) fn guest_fault(alloc: Global, guest: &[u8], cause: Cause) -> PlanRefusal
    ensures { Tells (path_text (codes "guests" ∷ guest.now ∷ []), cause) result }
{
    match path_of_two(alloc, b"guests", guest) {
        Ok(path) => PlanRefusal::BadNode(path, cause),
        Err(refused) => PlanRefusal::Memory(refused),
    }
}

/// A fault of a VCPU's or a region's node.
pub(crate) fn inner_fault(
    alloc: Global,
    guest: &[u8],
    inner: &[u8],
    name: &[u8],
    cause: Cause,
) -> PlanRefusal
    ensures { Tells (path_text (codes "guests" ∷ guest.now ∷ inner.now ∷ name.now ∷ []), cause) result }
{
    match path_of_four(alloc, guest, inner, name) {
        Ok(path) => PlanRefusal::BadNode(path, cause),
        Err(refused) => PlanRefusal::Memory(refused),
    }
}
