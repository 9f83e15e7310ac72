//! Data printed, each behind a space.
ghost use Rattle.std.specs.Prelude.{◌≡◌, ◌++◌, ◌∷◌, OnOk};
ghost use Rattle.std.specs.Fmt.{decimal};
ghost use Rattle.hv_text.specs.Path.{path_text};
ghost use Rattle.hv_data.specs.Text.{address_text, hex_text, name_text, generation_text, stage_text};

use hv_data::{push_address, push_bytes, push_generation, push_path, push_stage};
use hv_kinds::{Generation, Stage};
use hv_text::{Bytes, Path, push_decimal};
use std::alloc::{AllocError, Global};

pub fn push_number_word(alloc: Global, to: &mut Bytes, value: u64) -> Result<(), AllocError>
    ensures { OnOk result (to.new ≡ to.old ++ 32 ∷ decimal value) }
{
    to.append(b" ")?;
    push_decimal(alloc, to, value)
}

pub fn push_address_word(alloc: Global, to: &mut Bytes, value: u64) -> Result<(), AllocError>
    ensures { OnOk result (to.new ≡ to.old ++ 32 ∷ address_text value) }
{
    to.append(b" ")?;
    push_address(alloc, to, value)
}

pub fn push_bytes_word(alloc: Global, to: &mut Bytes, bytes: &Bytes) -> Result<(), AllocError>
    ensures { OnOk result (to.new ≡ to.old ++ 32 ∷ hex_text bytes.now) }
{
    to.append(b" ")?;
    push_bytes(alloc, to, bytes)
}

pub fn push_path_word(alloc: Global, to: &mut Bytes, path: &Path) -> Result<(), AllocError>
    ensures { OnOk result (to.new ≡ to.old ++ 32 ∷ path_text path.now) }
{
    to.append(b" ")?;
    push_path(alloc, to, path)
}

pub fn push_generation_word(
    alloc: Global,
    to: &mut Bytes,
    generation: Option<Generation>,
) -> Result<(), AllocError>
    ensures { OnOk result (to.new ≡ to.old ++ 32 ∷ generation_text generation) }
{
    to.append(b" ")?;
    push_generation(alloc, to, generation)
}

pub fn push_name_word(to: &mut Bytes, name: &Bytes) -> Result<(), AllocError>
    ensures { OnOk result (to.new ≡ to.old ++ 32 ∷ name_text name.now) }
{
    to.append(b" ")?;
    to.append(name.as_slice())
}

pub fn push_stage_word(to: &mut Bytes, stage: Stage) -> Result<(), AllocError>
    ensures { OnOk result (to.new ≡ to.old ++ 32 ∷ stage_text stage) }
{
    to.append(b" ")?;
    push_stage(to, stage)
}
