//! Plans of regions, copied.
ghost use Rattle.std.specs.Prelude.{◌≡◌, IfOk};

use hv_region::{Form, RegionPlan};
use hv_text::Strings;
use std::alloc::{AllocError, Global};

fn copy_strings(alloc: Global, strings: &Strings) -> Result<Strings, AllocError>
    ensures { IfOk result (λ copy. copy ≡ strings.now) }
{
    let mut copy = Strings::new(alloc)?;
    for text in strings.as_slice() {
        copy.push(text.clone()?)?;
    }
    Ok(copy)
}

fn copy_form(alloc: Global, form: &Form) -> Result<Form, AllocError>
    ensures { IfOk result (λ copy. copy ≡ form.now) }
{
    match form {
        Form::Ram => Ok(Form::Ram),
        Form::Rom => Ok(Form::Rom),
        Form::Device(names) => Ok(Form::Device(copy_strings(alloc, names)?)),
        Form::Real { area, offset } => Ok(Form::Real {
            area: *area,
            offset: *offset,
        }),
        Form::Alias(address) => Ok(Form::Alias(*address)),
    }
}

fn copy_region(alloc: Global, region: &RegionPlan) -> Result<RegionPlan, AllocError>
    ensures { IfOk result (λ copy. copy ≡ region.now) }
{
    Ok(RegionPlan {
        name: region.name.clone()?,
        kind: region.kind,
        base: region.base,
        size: region.size,
        form: copy_form(alloc, &region.form)?,
        detached: region.detached,
        clock: region.clock,
        parent: region.parent,
    })
}

/// The same plans.
pub(crate) fn copy_regions(
    alloc: Global,
    regions: &[RegionPlan],
) -> Result<Vec<RegionPlan>, AllocError>
    ensures { IfOk result (λ copy. copy.items ≡ regions.now) }
{
    let mut copy = Vec::new(alloc);
    for region in regions {
        copy.push(copy_region(alloc, region)?)?;
    }
    Ok(copy)
}
