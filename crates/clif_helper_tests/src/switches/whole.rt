//! Upstream's test that the blocks that a switch makes are sealed and filled, at each width.
#![tactic(auto)]

use crate::asserted::{CONFIG, asserts_current};
use crate::switches::asserted::{block, emit, enter, number, seal};
use cranelift_frontend::{
    Function, FunctionBuilder, FunctionBuilderContext, InstBuilder, Type, types,
};
use std::alloc::Global;
use std::process::Abort;

// A switch whose case blocks and default return.
fn asserts_accepted(rt: &impl Abort, alloc: Global, keys: &[u128], ty: Type) {
    let mut func = Function::new(alloc);
    let mut ctx = FunctionBuilderContext::new(alloc);
    let mut builder = FunctionBuilder::new(&mut func, &mut ctx);
    let root = block(rt, &mut builder);
    let otherwise = block(rt, &mut builder);
    let mut ends = Vec::new(alloc);
    for _ in keys {
        ends.push(block(rt, &mut builder)).expect(rt, "room");
    }
    seal(rt, &mut builder, root);
    enter(rt, &mut builder, root);
    let value = number(rt, &mut builder, ty, 1);
    assert!(rt; emit(rt, alloc, &mut builder, keys, &ends, value, otherwise).is_ok());
    ends.push(otherwise).expect(rt, "room");
    for end in ends.iter() {
        seal(rt, &mut builder, *end);
        enter(rt, &mut builder, *end);
        asserts_current(rt, &builder);
        builder.ins().return_(&[]).expect(rt, "an end");
    }
    assert!(rt; builder.finalize(CONFIG).is_ok());
}

#[test]
fn switch_seal_generated_blocks(rt: HostRuntime) {
    for ty in [types::I8, types::I16, types::I32, types::I64, types::I128] {
        asserts_accepted(&rt, rt.alloc(), &[0, 1, 2], ty);
        asserts_accepted(&rt, rt.alloc(), &[0, 1, 2, 10, 11, 12, 20, 30, 40, 50], ty);
    }
}
