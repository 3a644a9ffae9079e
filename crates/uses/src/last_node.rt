//! A loop over a list, whose nodes a collector may move at each call.
#![tactic(auto)]

ghost use Rattle.std.specs.Prelude.{IfOk, OnOk};
ghost use Rattle.clif_instructions.specs.Instruction.{AFunctionRef};
ghost use Rattle.clif_ir.specs.Consistent.{EntryExists};
ghost use Rattle.clif_builder.specs.Builder.{HasCurrent};
ghost use Rattle.clif_builder.specs.Clear.{IsClear};
ghost use Rattle.clif_builder.specs.Context.{IsFresh};
ghost use Rattle.uses.specs.Importing.{Imports};

use clif_types::types::I64;
use cranelift_frontend::{
    AbiParam, BuildError, CallConv, ExtFuncData, ExternalName, FinalizeError, FuncRef, Function,
    FunctionBuilder, FunctionBuilderContext, InstBuilder, MemFlagsData, Signature,
    TargetFrontendConfig,
};
use std::alloc::Global;

// Where in a node the reference to the next one lies.
const NEXT: i32 = 8;

/// Builds `loop { visit(node); next = node.next; if next == null { return node } node = next }`, where `node` is the
/// function's parameter at first, and `visit` lies outside. The variable is marked, so that a collector that moves nodes
/// finds the one that is used after the call.
pub fn last_node(
    func: &mut Function,
    ctx: &mut FunctionBuilderContext,
    config: TargetFrontendConfig,
) -> Result<(), FinalizeError>
    requires fresh { IsFresh func.old }
    requires empty { IsClear ctx.old }
{
    let alloc = func.allocator();
    let mut builder = FunctionBuilder::new(func, ctx);
    let node = builder.declare_var(I64)?;
    builder.declare_var_needs_stack_map(node)?;
    let entry = builder.create_block()?;
    let body = builder.create_block()?;
    let exit = builder.create_block()?;

    let first = builder.append_block_param(entry, I64)?;
    builder.switch_to_block(entry);
    builder.seal_block(entry)?;
    builder.def_var(node, first)?;
    builder.ins().jump(body, &[])?;

    builder.switch_to_block(body);
    let here = builder.use_var(node)?;
    let visit = import_visit(alloc, &mut builder)?;
    builder.ins().call(visit, &[here])?;
    let next = builder
        .ins()
        .load(I64, MemFlagsData::trusted(), here, NEXT)?;
    builder.def_var(node, next)?;
    builder.ins().brif(next, body, &[], exit, &[])?;
    builder.seal_block(body)?;
    builder.seal_block(exit)?;

    builder.switch_to_block(exit);
    builder.ins().return_(&[here])?;
    builder.finalize(config)
}

// Imports `visit`, which takes a reference and returns nothing.
fn import_visit(alloc: Global, builder: &mut FunctionBuilder<'_>) -> Result<FuncRef, BuildError>
    requires { HasCurrent builder.old }
    ensures imports { OnOk result (Imports builder.old builder.new) }
    ensures exists { IfOk result (λ f. EntryExists builder.new.func.now.tables (AFunctionRef f)) }
{
    let mut signature = Signature::new(alloc, CallConv::SystemV);
    signature.params.push(AbiParam::new(I64))?;
    let signature = builder.import_signature(signature)?;
    builder.import_function(ExtFuncData {
        name: ExternalName::testcase(String::from_str(alloc, "visit")?),
        signature,
        colocated: false,
        patchable: false,
    })
}
