//! Memory helpers.
ghost use Rattle.std.specs.Prelude.{◌≡◌, IfOk, codes};
ghost use Rattle.clif_text.specs.Reading.{ReadsCall};
ghost use Rattle.clif_text.specs.Texts.{library_call_name};

use clif_arguments::args::Args;
use clif_calls::{Call, MemoryCall};
use clif_types::LibCall;
use clif_words::error::{Expected, Fault, LineError};

// The helper of this name, with what follows it.
pub(crate) fn read_memory_call<'a>(
    head: &'a str,
    args: &mut Args<'_, 'a>,
) -> Result<Call, LineError<'a>>
    ensures { IfOk result (ReadsCall args.old args.new head.now) }
{
    match head {
        "call_memcpy" => read_library_call(head, LibCall::Memcpy, args),
        "call_memmove" => read_library_call(head, LibCall::Memmove, args),
        "call_memset" => read_library_call(head, LibCall::Memset, args),
        "call_memcmp" => read_library_call(head, LibCall::Memcmp, args),
        "emit_small_memory_copy" => read_copy_call(head, args),
        "emit_small_memset" => read_fill_call(head, args),
        "emit_small_memory_compare" => read_compare_call(head, args),
        _ => Err(LineError::Fault(Fault::UnknownCall(head))),
    }
}

// The name of a helper that calls this function on three values.
pub(crate) fn library_call_name(callee: LibCall) -> &'static str
    ensures { result.now ≡ library_call_name callee }
{
    match callee {
        LibCall::Memcpy => "call_memcpy",
        LibCall::Memmove => "call_memmove",
        LibCall::Memset => "call_memset",
        LibCall::Memcmp => "call_memcmp",
    }
}

// The same for such a helper.
fn read_library_call<'a>(
    head: &'a str,
    callee: LibCall,
    args: &mut Args<'_, 'a>,
) -> Result<Call, LineError<'a>>
    requires { head.now ≡ library_call_name callee }
    ensures { IfOk result (ReadsCall args.old args.new head.now) }
{
    let (first, second, size) = args.three_values()?;
    Ok(Call::Memory(MemoryCall::CallLibrary {
        callee,
        first,
        second,
        size,
    }))
}

// The same for a copy: two addresses, the size, two alignments, whether the bytes overlap, and flags.
fn read_copy_call<'a>(head: &'a str, args: &mut Args<'_, 'a>) -> Result<Call, LineError<'a>>
    requires { head.now ≡ codes "emit_small_memory_copy" }
    ensures { IfOk result (ReadsCall args.old args.new head.now) }
{
    let (dest, src) = args.two_values()?;
    let size = args.magnitude(Expected::ByteCount)?;
    let dest_align = args.byte(Expected::Alignment)?;
    let src_align = args.byte(Expected::Alignment)?;
    let non_overlapping = args.non_overlapping()?;
    let flags = args.flags();
    Ok(Call::Memory(MemoryCall::Copy {
        dest,
        src,
        size,
        dest_align,
        src_align,
        non_overlapping,
        flags,
    }))
}

// The same for a fill: an address, the byte, the size, the alignment, and flags.
fn read_fill_call<'a>(head: &'a str, args: &mut Args<'_, 'a>) -> Result<Call, LineError<'a>>
    requires { head.now ≡ codes "emit_small_memset" }
    ensures { IfOk result (ReadsCall args.old args.new head.now) }
{
    let buffer = args.value()?;
    let ch = args.byte(Expected::Byte)?;
    let size = args.magnitude(Expected::ByteCount)?;
    let buffer_align = args.byte(Expected::Alignment)?;
    let flags = args.flags();
    Ok(Call::Memory(MemoryCall::Fill {
        buffer,
        ch,
        size,
        buffer_align,
        flags,
    }))
}

// The same for a comparison: the condition, two addresses, the size, two alignments, and flags.
fn read_compare_call<'a>(head: &'a str, args: &mut Args<'_, 'a>) -> Result<Call, LineError<'a>>
    requires { head.now ≡ codes "emit_small_memory_compare" }
    ensures { IfOk result (ReadsCall args.old args.new head.now) }
{
    let int_cc = args.condition()?;
    let (left, right) = args.two_values()?;
    let size = args.magnitude(Expected::ByteCount)?;
    let left_align = args.non_zero_alignment()?;
    let right_align = args.non_zero_alignment()?;
    let flags = args.flags();
    Ok(Call::Memory(MemoryCall::Compare {
        int_cc,
        left,
        right,
        size,
        left_align,
        right_align,
        flags,
    }))
}
