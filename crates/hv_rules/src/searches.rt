//! The rules name what searches in a list of windows give.
ghost use Rattle.std.specs.Prelude.{◌≡◌, ◌&&◌, ℕ, List, filter, find, Option, None, Some, Result, Ok, Err};
ghost use Rattle.std.specs.Result.{result_ok};
ghost use Rattle.hv_body.specs.Windows.{meets, put_in_order};
ghost use Rattle.hv_kinds.specs.declared.address.AddressType.{AddressType};
ghost use Rattle.hv_region.specs.Addresses.{IsPlaceOf};
ghost use Rattle.hv_region.specs.Windows.{Adds, AreWindows, Finds, FindsTarget};
ghost use Rattle.hv_region.specs.declared.window.RegionRefusal.{RegionRefusal};
ghost use Rattle.hv_region.specs.declared.window.RegionRefusal.TheVariants.{Overlap};
ghost use Rattle.hv_region.specs.declared.window.Window.{Window};
ghost use Rattle.hv_rules.specs.Space.{is_own, least_row};
ghost use Rattle.hv_rules.specs.Windows.{guest_place, has_range, window_at};

/// An address means one place, a range has one window and one region that it can be an alias of, and
/// an addition has one outcome.
pub fn searches_find_what_the_rules_name()
    ensures place { (address : ℕ) (place : Option (AddressType × ℕ)) → IsPlaceOf address place
        → place ≡ guest_place address }
    ensures window { (windows : List Window) (kind : AddressType) (address size : ℕ) (found : Option Window)
        → AreWindows windows → Finds windows kind address size found → found ≡ window_at windows kind address size }
    ensures target { (windows : List Window) (kind : AddressType) (address size : ℕ)
        (found : Result Window RegionRefusal) → AreWindows windows → FindsTarget windows kind address size found
        → result_ok found ≡ find (λ window. is_own window && has_range kind address size window) windows }
    ensures added { (old new : List Window) (window : Window) → AreWindows new → Adds old window (Ok tt) new
        → (least_row (filter (meets window) old) ≡ None) × (new ≡ put_in_order window old) }
    ensures met { (old new : List Window) (window : Window) (owner : ℕ) → Adds old window (Err (Overlap owner)) new
        → least_row (filter (meets window) old) ≡ Some owner }
{}
