//! Memory helpers, over values that are widened to addresses and sizes.
ghost use Rattle.std.specs.Prelude.{◌≡◌, OnOk};
ghost use Rattle.clif_types.specs.Target.{pointer_type_of};
ghost use Rattle.clif_memory_helpers.specs.Lines.{HasType};

use crate::CONFIG;
use crate::calls::{Fault, exists, open};
use clif_access_plans::may_move;
use clif_types::PointerWidth;
use clif_types::types::I64;
use cranelift_frontend::{FunctionBuilder, MemFlagsData, MemoryHelpers, Value};

// A value exists and is an address or a size.
fn pointer(builder: &FunctionBuilder<'_>, value: Value) -> Result<(), Fault>
    ensures { OnOk result (HasType builder.now value (pointer_type_of PointerWidth.U64)) }
{
    exists(builder, value)?;
    if builder.func().value_type(value) != I64 {
        return Err(Fault::Misuse);
    }
    Ok(())
}

/// A copy of so many bytes, of any alignment, which may overlap.
pub fn copy(
    builder: &mut FunctionBuilder<'_>,
    dest: Value,
    src: Value,
    size: u64,
) -> Result<(), Fault>
    ensures { builder.new.ctx.now.parts.variables ≡ builder.old.ctx.now.parts.variables }
{
    open(builder)?;
    pointer(builder, dest)?;
    pointer(builder, src)?;
    if !may_move(CONFIG.pointer_width, size, 1) {
        return Err(Fault::Misuse);
    }
    let flags = MemFlagsData::new();
    builder.emit_small_memory_copy(CONFIG, dest, src, size, 1, 1, false, flags)?;
    Ok(())
}

/// A fill of so many bytes, of any alignment.
pub fn fill(builder: &mut FunctionBuilder<'_>, buffer: Value, size: u64) -> Result<(), Fault>
    ensures { builder.new.ctx.now.parts.variables ≡ builder.old.ctx.now.parts.variables }
{
    open(builder)?;
    pointer(builder, buffer)?;
    if !may_move(CONFIG.pointer_width, size, 1) {
        return Err(Fault::Misuse);
    }
    builder.emit_small_memset(CONFIG, buffer, 7, size, 1, MemFlagsData::new())?;
    Ok(())
}

/// A copy by a call of the C library.
pub fn copy_by_call(
    builder: &mut FunctionBuilder<'_>,
    dest: Value,
    src: Value,
    size: Value,
) -> Result<(), Fault>
    ensures { builder.new.ctx.now.parts.variables ≡ builder.old.ctx.now.parts.variables }
{
    open(builder)?;
    pointer(builder, dest)?;
    pointer(builder, src)?;
    pointer(builder, size)?;
    builder.call_memcpy(CONFIG, dest, src, size)?;
    Ok(())
}
