//! The helpers, as methods of the builder.
#![tactic(auto)]

ghost use Rattle.std.specs.Prelude.{[], ◌∷◌};
ghost use Rattle.std.specs.Int.NonZero.{non_zero_u8_get};
ghost use Rattle.clif_types.specs.declared.libcall.LibCall.TheVariants.{Memcpy, Memmove, Memset, Memcmp};
ghost use Rattle.clif_meaning.specs.ByteOperation.{CallLibrary};
ghost use Rattle.clif_memory_helpers.specs.Helpers.{Answers, Helps, MayHelp, comparing, copying, filling_with};

use crate::accesses::{Side, compare_loads, copy_flags, copy_pieces, fill_pieces, flags_where};
use crate::library::{
    compare_by_call, compare_known_by_call, copy_by_call, copy_known_by_call, copying_function,
    fill_by_call, fill_known_by_call,
};
use clif_access_plans::laws::plans_are_exact;
use clif_access_plans::{ComparePlan, MovePlan, is_aligned_load, plan_compare, plan_move};
use clif_builder::laws::{ledger_is_read_by_number, requests_ask_for_their_shapes};
use clif_builder::{FunctionBuilder, InstBuilder};
use clif_types::types::I8;
use clif_types::{BuildError, IntCC, LibCall, MemFlagsData, TargetFrontendConfig, Value};
use std::num::NonZeroU8;

/// Copies, fills and comparisons of bytes: `builder.call_memcpy(config, dest, src, size)?`.
///
/// There is a current block, which isn't filled; the operands exist, and the byte that `call_memset` writes is an I8. Addresses and
/// sizes are to be of the target's pointer type: the code isn't well typed where they aren't. Instructions are appended to the current
/// block, which isn't filled then either. A helper that calls a function of the C library imports the function first, and its signature
/// with the target's convention, whether or not they were imported before.
///
/// # Errors
///
/// Those of [`BuildError`]: memory was refused, a table is full, or the builder had failed before. After an error the builder has
/// failed, and the function may still contain some of the instructions.
pub trait MemoryHelpers {
    ghost use Rattle.std.specs.Prelude.{ℕ, List, Result};
    ghost use Rattle.clif_types.specs.declared.error.BuildError.{BuildError};
    ghost use Rattle.clif_types.specs.declared.target.TargetFrontendConfig.{TargetFrontendConfig};
    ghost use Rattle.clif_meaning.specs.ByteOperation.{ByteOperation};

    // a helper that does this to bytes may be called on these operands
    ghost may_help: { Self → TargetFrontendConfig → ByteOperation → List ℕ → Type 0 };

    // what a helper without a result makes of the builder, by the target, what it does to bytes, and its operands
    ghost helps: { TargetFrontendConfig → ByteOperation → List ℕ → Self → Self → Result (Unit {0}) BuildError → Type 0 };

    // the same of a helper with a result
    ghost answers: { TargetFrontendConfig → ByteOperation → List ℕ → Self → Self → Result ℕ BuildError → Type 0 };

    /// Calls `Memcpy`, which copies `size` bytes from `src` to `dest`. They must not overlap, which isn't checked.
    fn call_memcpy(
        &mut self,
        config: TargetFrontendConfig,
        dest: Value,
        src: Value,
        size: Value,
    ) -> Result<(), BuildError>
        requires { may_help self.old config (CallLibrary Memcpy) (dest ∷ src ∷ size ∷ []) }
        ensures { helps config (CallLibrary Memcpy)
            (dest ∷ src ∷ size ∷ []) self.old self.new result };

    /// Calls `Memmove`, which copies `size` bytes from `src` to `dest`. They may overlap: all is read before anything is written.
    fn call_memmove(
        &mut self,
        config: TargetFrontendConfig,
        dest: Value,
        src: Value,
        size: Value,
    ) -> Result<(), BuildError>
        requires { may_help self.old config (CallLibrary Memmove) (dest ∷ src ∷ size ∷ []) }
        ensures { helps config (CallLibrary Memmove)
            (dest ∷ src ∷ size ∷ []) self.old self.new result };

    /// Calls `Memset`, which writes `ch`, an I8, to `size` bytes from `buffer` on. `ch` is widened first.
    fn call_memset(
        &mut self,
        config: TargetFrontendConfig,
        buffer: Value,
        ch: Value,
        size: Value,
    ) -> Result<(), BuildError>
        requires { may_help self.old config (CallLibrary Memset) (buffer ∷ ch ∷ size ∷ []) }
        ensures { helps config (CallLibrary Memset)
            (buffer ∷ ch ∷ size ∷ []) self.old self.new result };

    /// Calls `Memcmp`, which compares `size` bytes from `left` on with as many from `right` on. Returns an I32, which is 0 where they
    /// are the same, and else has the sign of the difference of the first two that differ, as unsigned numbers.
    fn call_memcmp(
        &mut self,
        config: TargetFrontendConfig,
        left: Value,
        right: Value,
        size: Value,
    ) -> Result<Value, BuildError>
        requires { may_help self.old config (CallLibrary Memcmp) (left ∷ right ∷ size ∷ []) }
        ensures { answers config (CallLibrary Memcmp)
            (left ∷ right ∷ size ∷ []) self.old self.new result };

    /// Copies `size` bytes from `src` to `dest`: by at most four loads and then as many stores, each of the greatest power of two that
    /// divides the size, at most 8; else by a call of `Memcpy` or, unless `non_overlapping` says that the bytes don't overlap, of
    /// `Memmove`. Of no bytes nothing is appended.
    ///
    /// The size fits a pointer, and the smaller alignment is at most the greatest power of two that divides the size. The loads and
    /// stores have the flags `flags`, and are said to be aligned where both alignments are at least their size.
    fn emit_small_memory_copy(
        &mut self,
        config: TargetFrontendConfig,
        dest: Value,
        src: Value,
        size: u64,
        dest_align: u8,
        src_align: u8,
        non_overlapping: bool,
        flags: MemFlagsData,
    ) -> Result<(), BuildError>
        requires { may_help self.old config (copying size dest_align src_align non_overlapping flags)
            (dest ∷ src ∷ []) }
        ensures { helps config (copying size dest_align src_align non_overlapping flags)
            (dest ∷ src ∷ []) self.old self.new result };

    /// Writes the byte `ch` to `size` bytes from `buffer` on: by one constant and at most four stores of it, each of the greatest power
    /// of two that divides the size, at most 8; else by a call of `Memset`. Of no bytes nothing is appended.
    ///
    /// The size fits a pointer, and the alignment is at most the greatest power of two that divides the size. The stores have the flags
    /// `flags`, and are said to be aligned where the alignment is at least their size.
    fn emit_small_memset(
        &mut self,
        config: TargetFrontendConfig,
        buffer: Value,
        ch: u8,
        size: u64,
        buffer_align: u8,
        flags: MemFlagsData,
    ) -> Result<(), BuildError>
        requires { may_help self.old config (filling_with ch size buffer_align flags)
            (buffer ∷ []) }
        ensures { helps config (filling_with ch size buffer_align flags)
            (buffer ∷ []) self.old self.new result };

    /// Compares `size` bytes from `left` on with as many from `right` on, the first two that differ as unsigned numbers. Returns an I8,
    /// which is 1 if the condition holds, and else 0: for equality by a load of each side where an integer has as many bytes, for the
    /// order of single bytes by two loads; else by a call of `Memcmp`, whose number is compared with 0. Of no bytes it is a constant.
    ///
    /// The condition is none of signed numbers, and the size fits a pointer. The loads have the flags `flags`; those of equality are
    /// said to be aligned where the alignment is the size, and those of single bytes always.
    fn emit_small_memory_compare(
        &mut self,
        config: TargetFrontendConfig,
        int_cc: IntCC,
        left: Value,
        right: Value,
        size: u64,
        left_align: NonZeroU8,
        right_align: NonZeroU8,
        flags: MemFlagsData,
    ) -> Result<Value, BuildError>
        requires { may_help self.old config (comparing int_cc size (non_zero_u8_get left_align) (non_zero_u8_get right_align) flags)
            (left ∷ right ∷ []) }
        ensures { answers config (comparing int_cc size (non_zero_u8_get left_align) (non_zero_u8_get right_align) flags)
            (left ∷ right ∷ []) self.old self.new result };
}

impl<'a, R> MemoryHelpers for FunctionBuilder<'a, R> {
    ghost may_help = { MayHelp };

    ghost helps = { Helps };

    ghost answers = { Answers };

    fn call_memcpy(
        &mut self,
        config: TargetFrontendConfig,
        dest: Value,
        src: Value,
        size: Value,
    ) -> Result<(), BuildError> {
        copy_by_call(self, config, LibCall::Memcpy, dest, src, size)
    }

    fn call_memmove(
        &mut self,
        config: TargetFrontendConfig,
        dest: Value,
        src: Value,
        size: Value,
    ) -> Result<(), BuildError> {
        copy_by_call(self, config, LibCall::Memmove, dest, src, size)
    }

    fn call_memset(
        &mut self,
        config: TargetFrontendConfig,
        buffer: Value,
        ch: Value,
        size: Value,
    ) -> Result<(), BuildError> {
        fill_by_call(self, config, buffer, ch, size)
    }

    fn call_memcmp(
        &mut self,
        config: TargetFrontendConfig,
        left: Value,
        right: Value,
        size: Value,
    ) -> Result<Value, BuildError> {
        compare_by_call(self, config, left, right, size)
    }

    fn emit_small_memory_copy(
        &mut self,
        config: TargetFrontendConfig,
        dest: Value,
        src: Value,
        size: u64,
        dest_align: u8,
        src_align: u8,
        non_overlapping: bool,
        flags: MemFlagsData,
    ) -> Result<(), BuildError> {
        if self.has_failed() {
            return Err(BuildError::Failed);
        }
        plans_are_exact();
        ledger_is_read_by_number();
        match plan_move(size) {
            MovePlan::Nothing => Ok(()),
            MovePlan::Inline(accesses) => {
                let flags = copy_flags(flags, accesses, dest_align, src_align);
                copy_pieces(self, accesses, flags, dest, src)
            }
            MovePlan::LibraryCall => {
                let callee = copying_function(non_overlapping);
                copy_known_by_call(self, config, callee, dest, src, size)
            }
        }
    }

    fn emit_small_memset(
        &mut self,
        config: TargetFrontendConfig,
        buffer: Value,
        ch: u8,
        size: u64,
        buffer_align: u8,
        flags: MemFlagsData,
    ) -> Result<(), BuildError> {
        if self.has_failed() {
            return Err(BuildError::Failed);
        }
        plans_are_exact();
        ledger_is_read_by_number();
        match plan_move(size) {
            MovePlan::Nothing => Ok(()),
            MovePlan::Inline(accesses) => {
                let flags = flags_where(flags, accesses.are_aligned(buffer_align));
                fill_pieces(self, accesses, flags, buffer, ch)
            }
            MovePlan::LibraryCall => fill_known_by_call(self, config, buffer, ch, size),
        }
    }

    fn emit_small_memory_compare(
        &mut self,
        config: TargetFrontendConfig,
        int_cc: IntCC,
        left: Value,
        right: Value,
        size: u64,
        left_align: NonZeroU8,
        right_align: NonZeroU8,
        flags: MemFlagsData,
    ) -> Result<Value, BuildError> {
        ledger_is_read_by_number();
        requests_ask_for_their_shapes();
        match plan_compare(int_cc, size) {
            ComparePlan::Constant(number) => self.iconst(I8, number),
            ComparePlan::Inline(ty) => {
                let left = Side {
                    address: left,
                    flags: flags_where(flags, is_aligned_load(int_cc, size, left_align.get())),
                };
                let right = Side {
                    address: right,
                    flags: flags_where(flags, is_aligned_load(int_cc, size, right_align.get())),
                };
                compare_loads(self, int_cc, ty, left, right)
            }
            ComparePlan::LibraryCall(cond) => {
                compare_known_by_call(self, config, cond, left, right, size)
            }
        }
    }
}
