//! What a step finds at the parts that stand first, which tells the parts that it is made at.
ghost use Rattle.std.specs.Prelude.{◌≡◌, ◌∷◌, [], map, Some};
ghost use Rattle.hv_event.specs.declared.event.CellId.TheVariants as component;
ghost use Rattle.hv_memory_steps.specs.Accesses.{Makes};
ghost use Rattle.hv_parts.specs.Value.{valued};
ghost use Rattle.hv_rules.specs.Body.{area_in};
ghost use Rattle.hv_vcpu_steps.specs.Instructions.{IsPending};
ghost use Rattle.hv_access_steps.specs.First.{StandFirst, access_first, area_first, area_for, behind, fetch_first, size_first, size_of, window_first, window_for};
ghost use Rattle.hv_model.specs.Files.{read_file};

use hv_device_steps::memory_window;
use hv_emu::Emulator;
use hv_files::FileTree;
use hv_handed::Pending;
use hv_memory_steps::{area_accessed, area_fetched, area_shown};
use hv_parts::{Part, body, files, space, vcpu};
use hv_region::Window;
use hv_step::{Access, Fetch, Load, Mem};
use hv_text::Path;

/// The area that gives the instruction of a hart's fetch, and the offset there; None where none is
/// needed. A VCPU and a region stand first.
pub fn area_of_fetch<E: Emulator>(hart: u8, step: Fetch, parts: &[Part<E>]) -> Option<(u8, u64)>
    requires { StandFirst (component.Vcpu 0 ∷ component.Body 0 0 ∷ [])
        (map (valued E.state) parts.now) }
    ensures { result ≡ area_in (fetch_first hart step (map (valued E.state) parts.now)) }
{
    area_fetched(hart, step, vcpu(&parts[0]), body(&parts[1]))
}

/// The same of a hart's access.
pub fn area_of_access<E: Emulator>(
    hart: u8,
    step: Access,
    pending: Pending,
    parts: &[Part<E>],
) -> Option<(u8, u64)>
    requires pending { IsPending pending }
    requires step { Makes pending step }
    requires parts { StandFirst (component.Vcpu 0 ∷ component.Body 0 0 ∷ [])
        (map (valued E.state) parts.now) }
    ensures { result ≡ area_in (access_first hart step (map (valued E.state) parts.now)) }
{
    area_accessed(hart, step, pending, vcpu(&parts[0]), body(&parts[1]))
}

/// The window that holds a look. The directory and a space stand first.
pub fn window_of_mem<E: Emulator>(step: &Mem, parts: &[Part<E>]) -> Option<Window>
    requires { StandFirst (component.Dir ∷ component.Space 0 ∷ []) (map (valued E.state) parts.now) }
    ensures { result ≡ window_first step.now.address step.now.count
        (behind (map (valued E.state) parts.now)) }
{
    memory_window(space(&parts[1]), step.address, step.count)
}

/// The area of which a window shows what is looked at. The directory, a space and a region stand
/// first.
pub fn area_of_mem<E: Emulator>(step: &Mem, window: Window, parts: &[Part<E>]) -> Option<(u8, u64)>
    requires { StandFirst (component.Dir ∷ component.Space 0 ∷ component.Body 0 0 ∷ [])
        (map (valued E.state) parts.now) }
    ensures { result ≡ area_first (Some window) step.now.address step.now.count
        (behind (map (valued E.state) parts.now)) }
{
    area_shown(body(&parts[2]), window, step.address, step.count)
}

/// The window that holds the whole of a file; None where the file is missing. The directory, the
/// files and a space stand first.
pub fn window_of_load<E: Emulator>(step: &Load, parts: &[Part<E>]) -> Option<Window>
    requires { StandFirst (component.Dir ∷ component.Files ∷ component.Space 0 ∷ [])
        (map (valued E.state) parts.now) }
    ensures { let values = behind (map (valued E.state) parts.now) in
        result ≡ window_for step.now.address (size_first step.now values) (behind values) }
{
    let size = size_of(files(&parts[1]), &step.path)?;
    memory_window(space(&parts[2]), step.address, size)
}

/// The area of which a window shows where a file goes. The directory, the files, a space and a region
/// stand first.
pub fn area_of_load<E: Emulator>(
    step: &Load,
    window: Window,
    parts: &[Part<E>],
) -> Option<(u8, u64)>
    requires { StandFirst (component.Dir ∷ component.Files ∷ component.Space 0
        ∷ component.Body 0 0 ∷ []) (map (valued E.state) parts.now) }
    ensures { let values = behind (map (valued E.state) parts.now) in
        result ≡ area_for (Some window) step.now.address (size_first step.now values)
        (behind values) }
{
    let size = size_of(files(&parts[1]), &step.path)?;
    area_shown(body(&parts[3]), window, step.address, size)
}

// How many bytes a file has, if it is there.
fn size_of(files: &FileTree, path: &Path) -> Option<u64>
    ensures { result ≡ size_of (read_file files.now path.now) }
{
    match files.get(path) {
        Ok(bytes) => Some(bytes.len() as u64),
        Err(_) => None,
    }
}
