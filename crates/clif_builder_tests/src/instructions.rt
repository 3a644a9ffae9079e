//! Tests of `cranelift_frontend`: each method that makes an instruction, by the line that the function's text has for it
//! and by the data of the instruction; and the names that `cranelift_frontend` hands on.
//!
//! `rows` has the table. `methods` calls the method of each opcode, over anything that makes instructions, and so does
//! `formats` that of its format; `ins` and `tables` make one in a builder; `builder` and `cursor` are the tests.
#![tactic(auto)]

mod builder;
mod cursor;
mod fixture;
mod formats;
mod ins;
mod methods;
mod names;
mod rows;
mod tables;
