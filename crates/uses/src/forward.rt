//! A call of a function that lies outside.
#![tactic(auto)]

ghost use Rattle.std.specs.Prelude.{◌≡◌, ◌++◌, IfOk, OnOk, length};
ghost use Rattle.clif_instructions.specs.Instruction.{AFunctionRef};
ghost use Rattle.clif_ir.specs.Consistent.{EntryExists};
ghost use Rattle.clif_tables.specs.Callees.{function_at, signature_at};
ghost use Rattle.clif_builder.specs.Builder.{HasCurrent};
ghost use Rattle.clif_builder.specs.Clear.{IsClear};
ghost use Rattle.clif_builder.specs.Context.{IsFresh};

use clif_types::types::I32;
use cranelift_frontend::{
    AbiParam, BuildError, CallConv, ExtFuncData, ExternalName, FinalizeError, FuncRef, Function,
    FunctionBuilder, FunctionBuilderContext, InstBuilder, Signature, TargetFrontendConfig,
};
use std::alloc::Global;

/// Builds `return f(n)`, where `n` is the function's parameter and `f` lies outside.
pub fn forward(
    func: &mut Function,
    ctx: &mut FunctionBuilderContext,
    config: TargetFrontendConfig,
) -> Result<(), FinalizeError>
    requires fresh { IsFresh func.old }
    requires empty { IsClear ctx.old }
{
    let alloc = func.allocator();
    let mut builder = FunctionBuilder::new(func, ctx);
    let block = builder.create_block()?;
    let n = builder.append_block_param(block, I32)?;
    builder.switch_to_block(block);
    builder.seal_block(block)?;
    let f = import_f(alloc, &mut builder)?;
    let call = builder.ins().call(f, &[n])?;
    let answer = builder.inst_results(call)[0];
    builder.ins().return_(&[answer])?;
    builder.finalize(config)
}

// Imports `f`, which takes an integer of 32 bits and returns one.
fn import_f(alloc: Global, builder: &mut FunctionBuilder<'_>) -> Result<FuncRef, BuildError>
    requires { HasCurrent builder.old }
    ensures current { OnOk result (HasCurrent builder.new) }
    ensures values { OnOk result (builder.new.func.now.values ≡ builder.old.func.now.values) }
    ensures exists { IfOk result (λ f. EntryExists builder.new.func.now.tables (AFunctionRef f)) }
    ensures returns_one { IfOk result (λ f.
        let tables = builder.new.func.now.tables in
        length (signature_at tables (function_at tables f).signature).returns ≡ 1) }
{
    let mut signature = Signature::new(alloc, CallConv::SystemV);
    signature.params.push(AbiParam::new(I32))?;
    signature.returns.push(AbiParam::new(I32))?;
    let signature = builder.import_signature(signature)?;
    builder.import_function(ExtFuncData {
        name: ExternalName::testcase(String::from_str(alloc, "f")?),
        signature,
        colocated: false,
        patchable: false,
    })
}
