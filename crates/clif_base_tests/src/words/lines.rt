//! Lines: how they are cut into words, how words are taken, and how a line is refused.
#![tactic(auto)]

use clif_types::types;
use clif_words::cursor::Cursor;
use clif_words::error::{Expected, Fault, LineError};
use clif_words::words::{place_of, words_of};
use std::alloc::Global;
use std::process::Abort;
use std::test::Fail;

fn is_cut(rt: &impl Abort, alloc: Global, line: &str, words: &[&str]) -> Result<(), Fail> {
    let cut = words_of(alloc, line)?;
    assert!(rt; cut.as_slice() == words);
    Ok(())
}

/// Blanks and commas stand between words, marks are words, and a comment ends a line.
#[test]
fn words(rt: HostRuntime) -> Result<(), Fail> {
    is_cut(&rt, rt.alloc(), "", &[])?;
    is_cut(&rt, rt.alloc(), " \t# nothing", &[])?;
    is_cut(
        &rt,
        rt.alloc(),
        "v2 = iadd v0, v1 # a sum",
        &["v2", "=", "iadd", "v0", "v1"],
    )?;
    is_cut(
        &rt,
        rt.alloc(),
        "jump b1(x,y)",
        &["jump", "b1", "(", "x", "y", ")"],
    )?;
    is_cut(&rt, rt.alloc(), "iconst.i32 -1#", &["iconst.i32", "-1"])
}

/// Words are taken one after the other, and what is no type isn't taken as one.
#[test]
fn taking(rt: HostRuntime) -> Result<(), Fail> {
    let words = words_of(rt.alloc(), "append b0 i32x4 i32")?;
    let mut cursor = Cursor::new(words.as_slice());
    assert!(rt; cursor.take(Expected::Call).ok() == Some("append"));
    assert!(rt; !cursor.skips("("));
    assert!(rt; cursor.take_type() == None);
    assert!(rt; cursor.skips("b0"));
    assert!(rt; cursor.take_type() == Some(types::I32X4));
    assert!(rt; !cursor.is_empty());
    assert!(rt; cursor.end().is_err());
    assert!(rt; cursor.take_type() == Some(types::I32));
    assert!(rt; cursor.is_empty());
    assert!(rt; cursor.end().is_ok());
    assert!(rt; cursor.take(Expected::Block).is_err());
    Ok(())
}

fn has_flags(
    rt: &impl Abort,
    alloc: Global,
    line: &str,
    (notrap, aligned): (bool, bool),
    next: &str,
) -> Result<(), Fail> {
    let words = words_of(alloc, line)?;
    let mut cursor = Cursor::new(words.as_slice());
    let flags = cursor.take_flags();
    assert!(rt; flags.notrap() == notrap);
    assert!(rt; flags.aligned() == aligned);
    assert!(rt; flags.alias_region() == None);
    assert!(rt; cursor.skips(next));
    Ok(())
}

/// Flags are taken in any order, each once; no other word is one.
#[test]
fn flags(rt: HostRuntime) -> Result<(), Fail> {
    let alloc = rt.alloc();
    has_flags(&rt, alloc, "v0 4", (false, false), "v0")?;
    has_flags(&rt, alloc, "notrap v0", (true, false), "v0")?;
    has_flags(&rt, alloc, "aligned v0", (false, true), "v0")?;
    has_flags(&rt, alloc, "notrap aligned v0", (true, true), "v0")?;
    has_flags(&rt, alloc, "aligned notrap v0", (true, true), "v0")?;
    has_flags(&rt, alloc, "aligned aligned v0", (false, true), "aligned")?;
    has_flags(&rt, alloc, "notrap region0 v0", (true, false), "region0")
}

/// The error of a line has its number and what was expected there.
#[test]
fn refusals(rt: HostRuntime) -> Result<(), Fail> {
    let error = LineError::wanted(Expected::Block).at(12);
    let text = format!(in rt.alloc(); "{error}")?;
    assert!(rt; text.as_str() == "script error at line 12: expected a block");
    Ok(())
}

/// The error of a word without a meaning has the word.
#[test]
fn unknown_words(rt: HostRuntime) -> Result<(), Fail> {
    let rows = [
        (Fault::UnknownCall("jmp"), "unknown call: jmp"),
        (
            Fault::NotForCursor("call"),
            "no instruction for cursor: call",
        ),
        (Fault::UnknownName("x", Expected::Value), "unknown name: x"),
        (
            Fault::UnknownType("i7", Expected::TypeOrClose),
            "unknown type: i7",
        ),
        (Fault::NoType, "expected a type"),
    ];
    for (fault, text) in rows.iter() {
        let told = format!(in rt.alloc(); "{fault}")?;
        assert!(rt; told.as_str() == *text);
    }
    Ok(())
}

/// What should be where a line is at fault.
#[test]
fn wanted(rt: HostRuntime) -> Result<(), Fail> {
    let rows = [
        (Fault::Expected(Expected::End), "the end of the line"),
        (Fault::UnknownName("x", Expected::Value), "a value"),
        (
            Fault::UnknownType("i7", Expected::TypeOrClose),
            "a type or )",
        ),
        (Fault::NoType, "a point and a type after it"),
        (Fault::UnknownCall("jmp"), "a call"),
        (Fault::NotForCursor("call"), "an instruction for cursor"),
        (Fault::TooManyNames(1), "="),
        (Fault::Repeated("conv"), "another header line"),
    ];
    for (fault, text) in rows.iter() {
        let expected = fault.expected();
        let told = format!(in rt.alloc(); "{expected}")?;
        assert!(rt; told.as_str() == *text);
    }
    Ok(())
}

/// The place of a word: its column counts characters, and where the line has no such word it is the end of the last one.
#[test]
fn places(rt: HostRuntime) -> Result<(), Fail> {
    let rows = [
        ("jump b(x) # y", 0, 1, Some("jump")),
        ("jump b(x) # y", 1, 6, Some("b")),
        ("jump b(x) # y", 2, 7, Some("(")),
        ("jump b(x) # y", 4, 9, Some(")")),
        ("jump b(x) # y", 5, 10, None),
        ("jump b(x) # y", 9, 10, None),
        ("\t, jump", 0, 4, Some("jump")),
        ("é = \u{1F410}, c", 2, 5, Some("\u{1F410}")),
        ("é = \u{1F410}, c", 3, 8, Some("c")),
        ("", 0, 1, None),
        ("  # x", 0, 1, None),
    ];
    for (line, index, column, word) in rows.iter() {
        let place = place_of(line, *index);
        assert!(rt; place.column() == *column);
        assert!(rt; place.word == *word);
    }
    Ok(())
}

/// The word for which a line is refused is the one that was looked at last; where nothing more was expected, the next one.
#[test]
fn refused_places(rt: HostRuntime) -> Result<(), Fail> {
    let words = words_of(rt.alloc(), "jump b0 i32")?;
    let mut cursor = Cursor::new(words.as_slice());
    let wrong = Fault::Expected(Expected::Block);
    let too_many = Fault::Expected(Expected::End);
    assert!(rt; cursor.refused(&wrong) == 0);
    assert!(rt; cursor.take(Expected::Call).is_ok());
    assert!(rt; cursor.refused(&wrong) == 0);
    assert!(rt; cursor.refused(&too_many) == 1);
    assert!(rt; !cursor.skips("("));
    assert!(rt; cursor.refused(&wrong) == 1);
    assert!(rt; cursor.take(Expected::Block).is_ok());
    assert!(rt; cursor.refused(&wrong) == 1);
    assert!(rt; cursor.take_type().is_some());
    assert!(rt; cursor.refused(&wrong) == 2);
    assert!(rt; cursor.take(Expected::Block).is_err());
    assert!(rt; cursor.refused(&wrong) == 3);
    Ok(())
}

/// The texts of what is expected.
#[test]
fn expectations(rt: HostRuntime) -> Result<(), Fail> {
    let rows = [
        (Expected::F16Bits, "the bits of an f16"),
        (Expected::F32Bits, "the bits of an f32"),
        (Expected::F64Bits, "the bits of an f64"),
        (Expected::Bytes, "the bytes of a constant"),
        (Expected::Condition, "a condition"),
        (Expected::TrapCode, "a trap code"),
        (Expected::Offset, "an offset"),
        (Expected::Inst, "an instruction"),
        (Expected::SourceLoc, "a source place of 32 bits"),
        (Expected::ValueLabel, "a label"),
    ];
    for (expected, text) in rows.iter() {
        let told = format!(in rt.alloc(); "{expected}")?;
        assert!(rt; told.as_str() == *text);
    }
    Ok(())
}
