//! Writers that refuse.
#![tactic(auto)]

use crate::instructions::Flags::Trusted;
use crate::instructions::Plain::{Binary, CondTrap, Float, Icmp, Iconst, Load, Store};
use crate::steps::Step::{Alias, Create, Go, Import, LayOut, Param, Put};
use crate::steps::{Case, SAMPLE, made};
use crate::transfers::Arg::{Exn, Known, Ret};
use crate::transfers::Item::{Context, Default, Tag};
use crate::transfers::Transfer::{Call, CallIndirect, Return, TryCall, TryCallIndirect};
use crate::transfers::{Throws, To};
use clif_ir::function::Function;
use clif_opcodes::BinaryOpcode::Iadd;
use clif_opcodes::CondTrapOpcode::Trapz;
use clif_opcodes::FloatConstOpcode::F32const;
use clif_types::IntCC::Equal;
use clif_types::TrapCode::User;
use clif_types::types::{I32, INVALID};
use std::fmt;
use std::fmt::Write;
use std::process::Abort;
use std::test::Fail;

/// A writer that takes so many pieces, keeps them, and then refuses one.
#[derive(Drop)]
struct Refusing {
    left: u32,
    taken: String,
}

impl Write for Refusing {
    fn write_str(&mut self, text: &str) -> fmt::Result {
        if self.left == 0 {
            return Err(fmt::Error);
        }
        self.left -= 1;
        self.taken.push_str(text).map_err(|_| fmt::Error)
    }
}

// Functions, and their texts.
static CASES: [(Case, &str); 2] = [
    (
        Case {
            name: "refused_pieces",
            head: SAMPLE,
            steps: &[
                Create,
                Create,
                LayOut(0),
                LayOut(1),
                Param(0, I32),
                Param(0, I32),
                Put(0, I32, Iconst(70_000)),
                Put(1, I32, Binary(Iadd, 0, 2)),
                Put(1, INVALID, Float(F32const, 0)),
                Put(1, I32, Icmp(Equal, 0, 3)),
                Put(1, I32, Load(Trusted, 0, 4)),
                Put(1, INVALID, Store(Trusted, 4, 0, -4)),
                Put(1, INVALID, CondTrap(Trapz, 5, User(1))),
                Go(1, Return(&[1, 3])),
                Alias(1, 0),
            ],
        },
        "function %sample() system_v {\nblock0(v0: i32):\n    v1 -> v0\n    v2 = iconst.i32 0x0001_1170\n\nblock1:\n    v3 = iadd.i32 v0, v2  ; v2 = 0x0001_1170\n    v4 = f32const 0.0\n    v5 = icmp.i32 eq v0, v3\n    v6 = load.i32 notrap aligned v0+4\n    store notrap aligned v4, v0-4  ; v4 = 0.0\n    trapz v5, user1\n    return v1, v3\n}\n",
    ),
    (
        Case {
            name: "refused_pieces_of_calls",
            head: SAMPLE,
            steps: &[
                Import("g", &[I32], &[I32]),
                Create,
                Create,
                LayOut(0),
                LayOut(1),
                Param(0, I32),
                Put(0, I32, Iconst(7)),
                Go(0, Call(0, &[1])),
                Go(0, CallIndirect(0, &[0, 1])),
                Go(
                    0,
                    TryCall(
                        0,
                        &[1],
                        Throws {
                            sig: 0,
                            normal: To(1, &[Ret(0)]),
                            items: &[
                                Tag(1, To(1, &[Exn(0)])),
                                Context(0),
                                Default(To(1, &[Known(1)])),
                            ],
                        },
                    ),
                ),
                Go(
                    1,
                    TryCallIndirect(
                        &[0, 1],
                        Throws {
                            sig: 0,
                            normal: To(1, &[]),
                            items: &[],
                        },
                    ),
                ),
            ],
        },
        "function %sample() system_v {\n    sig0 = (i32) -> i32 system_v\n    fn0 = %g sig0\n\nblock0(v0: i32):\n    v1 = iconst.i32 7\n    v2 = call fn0(v1)  ; v1 = 7\n    v3 = call_indirect sig0, v0(v1)  ; v1 = 7\n    try_call fn0(v1), sig0, block1(ret0), [ tag1: block1(exn0), context v0, default: block1(v1) ]  ; v1 = 7, v1 = 7\n\nblock1:\n    try_call_indirect v0(v1), sig0, block1, []  ; v1 = 7\n}\n",
    ),
];

// Prints into a writer that takes so many pieces, and answers whether it refused one: then the call says so, and what
// was taken before is the head of the whole text.
fn refuses(rt: &impl Abort, func: &Function, text: &str, left: u32) -> bool {
    let taken = String::new(func.allocator());
    let mut writer = Refusing { left, taken };
    let shown = func.display();
    let ended = write!(writer, "{shown}");
    let whole = writer.taken.as_str() == text;
    assert!(rt; ended.is_ok() == whole);
    assert!(rt; text.starts_with(writer.taken.as_str()));
    !whole
}

// A refusal at any piece of a function's text is answered.
#[test]
fn refused_pieces(rt: HostRuntime) -> Result<(), Fail> {
    for (case, text) in CASES.iter() {
        let func = made(&rt, rt.alloc(), &[], case)?;
        let mut refusals = 0_u32;
        for left in 0..300_u32 {
            if refuses(&rt, &func, text, left) && refusals < 1000 {
                refusals += 1;
            }
        }
        assert!(rt; refusals > 20);
        assert!(rt; refusals < 299);
    }
    Ok(())
}
