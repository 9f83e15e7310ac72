//! The windows of planned regions.
ghost use Rattle.std.specs.Prelude.{◌≡◌, ◌≤◌, ◌+◌, nat_lt, length};
ghost use Rattle.std.specs.List.{list_any};
ghost use Rattle.hv_plan.specs.Properties.{first_of};
ghost use Rattle.hv_plan.specs.Windows.{meets, holds, is_alias, blocks, has_range, lacks_target, overlap_causes, alias_causes};

use hv_kinds::{AddressType, Cause};
use hv_region::{Form, RegionPlan};

/// Whether two regions have an address in common.
fn meets(one: &RegionPlan, other: &RegionPlan) -> bool
    ensures { result ≡ meets one.now other.now }
{
    one.kind == other.kind
        && begins_before(one.base, other.base, other.size)
        && begins_before(other.base, one.base, one.size)
}

/// Whether a number is below the sum of two others.
fn begins_before(number: u64, base: u64, size: u64) -> bool
    ensures { result ≡ nat_lt number (base + size) }
{
    number < base || number - base < size
}

/// Whether a region has a whole range.
fn holds(region: &RegionPlan, kind: AddressType, base: u64, size: u64) -> bool
    ensures { result ≡ holds region.now kind base size }
{
    if region.kind != kind || base < region.base {
        return false;
    }
    let offset = base - region.base;
    offset <= region.size && size <= region.size - offset
}

/// Whether an earlier region stands where this one would.
fn blocks(region: &RegionPlan, earlier: &RegionPlan) -> bool
    ensures { result ≡ blocks region.now earlier.now }
{
    !earlier.detached && meets(earlier, region)
}

fn is_blocked(earlier: &[RegionPlan], region: &RegionPlan) -> bool
    ensures { result ≡ list_any (blocks region.now) earlier.now }
{
    for one in earlier {
        if blocks(region, one) {
            return true;
        }
    }
    false
}

/// What is wrong with a region's window.
pub(crate) fn overlap_cause(
    regions: &[RegionPlan],
    row: usize,
    region: &RegionPlan,
) -> Option<Cause>
    requires { row ≤ length regions.now }
    ensures { result ≡ first_of (overlap_causes regions.now row region.now) }
{
    if !region.detached && is_blocked(&regions[..row], region) {
        return Some(Cause::Overlap);
    }
    None
}

fn is_alias(form: &Form) -> bool
    ensures { result ≡ is_alias form.now }
{
    match form {
        Form::Alias(_) => true,
        _ => false,
    }
}

/// Whether a region that is no alias has what an alias stands for.
fn has_range(region: &RegionPlan, base: u64, other: &RegionPlan) -> bool
    ensures { result ≡ has_range region.now base other.now }
{
    !other.detached && !is_alias(&other.form) && holds(other, region.kind, base, region.size)
}

fn lacks_target(regions: &[RegionPlan], region: &RegionPlan) -> bool
    ensures { result ≡ lacks_target regions.now region.now region.now.form }
{
    let Form::Alias(base) = region.form else {
        return false;
    };
    for other in regions {
        if has_range(region, base, other) {
            return false;
        }
    }
    true
}

/// What is wrong with what an alias stands for.
pub(crate) fn alias_cause(regions: &[RegionPlan], region: &RegionPlan) -> Option<Cause>
    ensures { result ≡ first_of (alias_causes regions.now 0 region.now) }
{
    if !region.detached && lacks_target(regions, region) {
        return Some(Cause::AliasTarget);
    }
    None
}
