//! The texts of upstream's tests of its switch.
#![tactic(auto)]

use crate::switches::asserted::{block, emit, enter, lines, number};
use cranelift_frontend::{
    Function, FunctionBuilder, FunctionBuilderContext, SwitchError, Type, types,
};
use std::alloc::Global;
use std::process::Abort;
use std::test::Fail;

// The function of a switch on 0 whose cases are blocks from block1 on, where so many blocks are made in all and control goes to
// the block with this number else; and what `emit` answers.
fn switched(
    rt: &impl Abort,
    alloc: Global,
    ty: Type,
    keys: &[u128],
    blocks: usize,
    otherwise: usize,
) -> (String, Result<(), SwitchError>) {
    let mut func = Function::new(alloc);
    let mut ctx = FunctionBuilderContext::new(alloc);
    let mut builder = FunctionBuilder::new(&mut func, &mut ctx);
    let mut made = Vec::new(alloc);
    for _ in 0..blocks {
        made.push(block(rt, &mut builder)).expect(rt, "room");
    }
    assert!(rt; keys.len() < made.len() && otherwise < made.len());
    enter(rt, &mut builder, made[0]);
    let value = number(rt, &mut builder, ty, 0);
    let cases = &made[1..keys.len() + 1];
    let answer = emit(rt, alloc, &mut builder, keys, cases, value, made[otherwise]);
    (lines(rt, alloc, builder.func()), answer)
}

// Asserts the text of a switch on an I8.
fn asserts_narrow(rt: &impl Abort, alloc: Global, keys: &[u128], otherwise: usize, text: &str) {
    let blocks = if keys.len() < otherwise {
        otherwise
    } else {
        keys.len()
    };
    assert!(rt; blocks < usize::MAX);
    let (made, answer) = switched(rt, alloc, types::I8, keys, blocks + 1, otherwise);
    assert!(rt; answer.is_ok());
    assert_eq!(rt; made.as_str(), text);
}

#[test]
fn switch_empty(rt: HostRuntime) {
    asserts_narrow(
        &rt,
        rt.alloc(),
        &[],
        42,
        "block0:\n    v0 = iconst.i8 0\n    jump block42\n",
    );
}

#[test]
fn switch_zero(rt: HostRuntime) {
    asserts_narrow(
        &rt,
        rt.alloc(),
        &[0],
        0,
        "block0:\n    v0 = iconst.i8 0\n    brif v0, block0, block1  ; v0 = 0\n",
    );
}

#[test]
fn switch_single(rt: HostRuntime) {
    asserts_narrow(
        &rt,
        rt.alloc(),
        &[1],
        0,
        "block0:\n    v0 = iconst.i8 0\n    v1 = iconst.i8 1\n    v2 = icmp eq v0, v1  ; v0 = 0, v1 = 1\n    brif v2, block1, block0\n",
    );
}

#[test]
fn switch_bool(rt: HostRuntime) {
    asserts_narrow(
        &rt,
        rt.alloc(),
        &[0, 1],
        0,
        "block0:\n    v0 = iconst.i8 0\n    v1 = uextend.i32 v0  ; v0 = 0\n    br_table v1, block0, [block1, block2]\n",
    );
}

#[test]
fn switch_two_gap(rt: HostRuntime) {
    asserts_narrow(
        &rt,
        rt.alloc(),
        &[0, 2],
        0,
        "block0:\n    v0 = iconst.i8 0\n    v1 = iconst.i8 2\n    v2 = icmp eq v0, v1  ; v0 = 0, v1 = 2\n    brif v2, block2, block3\n\nblock3:\n    brif.i8 v0, block0, block1  ; v0 = 0\n",
    );
}

#[test]
fn switch_many(rt: HostRuntime) {
    asserts_narrow(
        &rt,
        rt.alloc(),
        &[0, 1, 5, 7, 10, 11, 12],
        0,
        "block0:\n    v0 = iconst.i8 0\n    v1 = iconst.i8 7\n    v2 = icmp uge v0, v1  ; v0 = 0, v1 = 7\n    brif v2, block9, block8\n\nblock9:\n    v3 = iconst.i8 10\n    v4 = icmp.i8 uge v0, v3  ; v0 = 0, v3 = 10\n    brif v4, block11, block10\n\nblock11:\n    v5 = iconst.i8 -10\n    v6 = iadd.i8 v0, v5  ; v0 = 0, v5 = -10\n    v7 = uextend.i32 v6\n    br_table v7, block0, [block5, block6, block7]\n\nblock10:\n    v8 = iconst.i8 7\n    v9 = icmp.i8 eq v0, v8  ; v0 = 0, v8 = 7\n    brif v9, block4, block0\n\nblock8:\n    v10 = iconst.i8 5\n    v11 = icmp.i8 eq v0, v10  ; v0 = 0, v10 = 5\n    brif v11, block3, block12\n\nblock12:\n    v12 = uextend.i32 v0  ; v0 = 0\n    br_table v12, block0, [block1, block2]\n",
    );
}

#[test]
fn switch_min_index_value(rt: HostRuntime) {
    asserts_narrow(
        &rt,
        rt.alloc(),
        &[128, 1],
        0,
        "block0:\n    v0 = iconst.i8 0\n    v1 = iconst.i8 -128\n    v2 = icmp eq v0, v1  ; v0 = 0, v1 = -128\n    brif v2, block1, block3\n\nblock3:\n    v3 = iconst.i8 1\n    v4 = icmp.i8 eq v0, v3  ; v0 = 0, v3 = 1\n    brif v4, block2, block0\n",
    );
}

#[test]
fn switch_max_index_value(rt: HostRuntime) {
    asserts_narrow(
        &rt,
        rt.alloc(),
        &[127, 1],
        0,
        "block0:\n    v0 = iconst.i8 0\n    v1 = iconst.i8 127\n    v2 = icmp eq v0, v1  ; v0 = 0, v1 = 127\n    brif v2, block1, block3\n\nblock3:\n    v3 = iconst.i8 1\n    v4 = icmp.i8 eq v0, v3  ; v0 = 0, v3 = 1\n    brif v4, block2, block0\n",
    );
}

#[test]
fn switch_optimal_codegen(rt: HostRuntime) {
    asserts_narrow(
        &rt,
        rt.alloc(),
        &[255, 0, 1],
        0,
        "block0:\n    v0 = iconst.i8 0\n    v1 = iconst.i8 -1\n    v2 = icmp eq v0, v1  ; v0 = 0, v1 = -1\n    brif v2, block1, block4\n\nblock4:\n    v3 = uextend.i32 v0  ; v0 = 0\n    br_table v3, block0, [block2, block3]\n",
    );
}

#[test]
fn switch_64bit(rt: HostRuntime) {
    let (made, answer) = switched(&rt, rt.alloc(), types::I64, &[1, 0], 4, 3);
    assert!(rt; answer.is_ok());
    assert_eq!(rt;
        made.as_str(),
        "block0:\n    v0 = iconst.i64 0\n    v1 = iconst.i64 0xffff_ffff\n    v2 = icmp ugt v0, v1  ; v0 = 0, v1 = 0xffff_ffff\n    brif v2, block3, block4\n\nblock4:\n    v3 = ireduce.i32 v0  ; v0 = 0\n    br_table v3, block3, [block2, block1]\n"
    );
}

#[test]
fn switch_128bit(rt: HostRuntime) {
    let (made, answer) = switched(&rt, rt.alloc(), types::I128, &[1, 0], 4, 3);
    assert!(rt; answer.is_ok());
    assert_eq!(rt;
        made.as_str(),
        "block0:\n    v0 = iconst.i64 0\n    v1 = uextend.i128 v0  ; v0 = 0\n    v2 = iconst.i64 0xffff_ffff\n    v3 = sextend.i128 v2  ; v2 = 0xffff_ffff\n    v4 = icmp ugt v1, v3\n    brif v4, block3, block4\n\nblock4:\n    v5 = ireduce.i32 v1\n    br_table v5, block3, [block2, block1]\n"
    );
}

#[test]
fn switch_128bit_max_u64(rt: HostRuntime) {
    let keys = [0xffff_ffff_ffff_ffff, 0];
    let (made, answer) = switched(&rt, rt.alloc(), types::I128, &keys, 4, 3);
    assert!(rt; answer.is_ok());
    assert_eq!(rt;
        made.as_str(),
        "block0:\n    v0 = iconst.i64 0\n    v1 = uextend.i128 v0  ; v0 = 0\n    v2 = iconst.i64 -1\n    v3 = iconst.i64 0\n    v4 = iconcat v2, v3  ; v2 = -1, v3 = 0\n    v5 = icmp eq v1, v4\n    brif v5, block1, block4\n\nblock4:\n    brif.i128 v1, block3, block2\n"
    );
}

/// A key that the type does not have is an error, and nothing is emitted.
#[test]
fn too_wide(rt: HostRuntime) -> Result<(), Fail> {
    let alloc = rt.alloc();
    let (made, answer) = switched(&rt, alloc, types::I8, &[0x4100_0000_00bf_d470], 2, 1);
    assert_eq!(rt; made.as_str(), "block0:\n    v0 = iconst.i8 0\n");
    let Err(refusal) = answer else {
        assert!(rt; false);
        return Ok(());
    };
    assert_eq!(rt;
        format!(in alloc; "{refusal}")?.as_str(),
        "The index type i8 does not fit the maximum switch entry of 4683743612477887600"
    );
    let (made, answer) = switched(&rt, alloc, types::I8, &[256], 2, 1);
    assert_eq!(rt; made.as_str(), "block0:\n    v0 = iconst.i8 0\n");
    assert!(rt;
        answer
            == Err(SwitchError::KeyTooWide {
                ty: types::I8,
                max: 256
            })
    );
    Ok(())
}
