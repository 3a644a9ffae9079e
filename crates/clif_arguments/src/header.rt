//! The header lines: the function's name and signature, and the configuration.
ghost use Rattle.std.specs.Prelude.{◌≡◌, ◌++◌, ◌∷◌, [], ℕ, List, None, Some, IfOk, IfSome, OnOk, codes};
ghost use Rattle.clif_types.specs.Texts.{call_conv_text};
ghost use Rattle.clif_words.specs.Cursor.{words_left};
ghost use Rattle.clif_arguments.specs.Header.{AreNumbers, AreReturned, AreTypes, IsAnswerLine, IsFunction, IsFunctionName, IsMovesLine, IsRegionLine, IsSignature, IsThrowLine, IsUserName, name_in, signature_in};
ghost use Rattle.clif_words.specs.Spelling.{IsMagnitude, IsNumber, pointer_text};

use crate::refusals::unknown_type;
use clif_calls::{Moves, OutsideAnswer};
use clif_region_kinds::RegionKind;
use clif_types::{
    AbiParam, AliasRegion, CallConv, PointerWidth, Signature, TargetFrontendConfig,
    UserExternalName, UserFuncName,
};
use clif_words::cursor::Cursor;
use clif_words::error::{Expected, Fault, LineError};
use clif_words::number::{magnitude, number, short_decimal};
use clif_words::types::{call_conv_named, pointer_width_named};
use std::alloc::Global;
use std::mem;

/// What the header lines so far say.
pub struct Header {
    function: Option<(UserFuncName, Signature)>,
    pointer_width: Option<PointerWidth>,
    call_conv: Option<CallConv>,
    answers: Vec<OutsideAnswer>,
    moves: Option<Moves>,
    region: Option<RegionKind>,
}

// By hand: a derived one is proved anew at each way out of a function that holds such a value.
impl Drop for Header {
    fn drop(self) {
        let Header {
            function: _,
            pointer_width: _,
            call_conv: _,
            answers: _,
            moves: _,
            region: _,
        } = self;
    }
}

/// Whether a line that begins with this word is a header line.
pub fn is_header(word: &str) -> bool {
    matches!(
        word,
        "function" | "pointer" | "conv" | "region" | "answer" | "throw" | "moves"
    )
}

impl Header {
    ghost use Rattle.clif_arguments.specs.Header.{IsHeader, call_conv_in, header_said, no_header, pointer_width_in};

    pub fn new(alloc: Global) -> Header
        ensures { header_said result ≡ no_header }
    {
        Header {
            function: None,
            pointer_width: None,
            call_conv: None,
            answers: Vec::new(alloc),
            moves: None,
            region: None,
        }
    }

    /// Reads a header line, of which `head` is the first word and `words` are the others.
    pub fn read<'a>(
        &mut self,
        alloc: Global,
        head: &'a str,
        words: &mut Cursor<'_, 'a>,
    ) -> Result<(), LineError<'a>>
        ensures { OnOk result (IsHeader (head.now ∷ words_left words.old) (header_said self.old)
            (header_said self.new)) }
    {
        match head {
            "function" => keep(&mut self.function, function_of(alloc, words)?, head),
            "pointer" => keep(&mut self.pointer_width, pointer_width_of(words)?, head),
            "conv" => keep(&mut self.call_conv, call_conv_of(words)?, head),
            "answer" => Ok(self.answers.push(answer_of(alloc, words)?)?),
            "throw" => Ok(self.answers.push(throw_of(alloc, words)?)?),
            "moves" => keep(&mut self.moves, moves_of(words)?, head),
            "region" => keep(&mut self.region, region_of(words)?, head),
            _ => Err(LineError::Fault(Fault::UnknownCall(head))),
        }
    }

    /// The configuration; pointers have 64 bits and the convention is `system_v` where no line says else.
    pub fn config(&self) -> TargetFrontendConfig
        ensures width { result.pointer_width ≡ pointer_width_in (header_said self.now).pointer_width }
        ensures conv { result.default_call_conv ≡ call_conv_in (header_said self.now).call_conv }
    {
        TargetFrontendConfig {
            default_call_conv: self.call_conv.unwrap_or(CallConv::SystemV),
            pointer_width: self.pointer_width.unwrap_or(PointerWidth::U64),
            page_size_align_log2: 12,
        }
    }

    /// How a collector moves in a run; `None`, where no line says it: it moves nothing.
    pub fn moves(&self) -> Option<Moves>
        ensures { result ≡ (header_said self.now).moves }
    {
        self.moves
    }

    /// How a callback answers that is asked for alias regions; `None`, where no line says it: there is no callback.
    pub fn region(&self) -> Option<RegionKind>
        ensures { result ≡ (header_said self.now).region }
    {
        self.region
    }

    /// How outside calls end in a run, of those functions of which a line says it, in the order of the lines. It is taken out.
    pub fn take_answers(&mut self, alloc: Global) -> Vec<OutsideAnswer>
        ensures answers { result.items ≡ (header_said self.old).answers }
        ensures rest { header_said self.new ≡ record (header_said self.old) { answers = [] } }
    {
        mem::replace(&mut self.answers, Vec::new(alloc))
    }

    /// The name and the signature; `u0:0`, with nothing taken or returned and the convention `fast`, where no
    /// line says else.
    pub fn function(self, alloc: Global) -> (UserFuncName, Signature)
        ensures name { result.0 ≡ name_in (header_said self).function }
        ensures signature { result.1 ≡ signature_in (header_said self).function }
    {
        let Header {
            function,
            pointer_width: _,
            call_conv: _,
            answers: _,
            moves: _,
            region: _,
        } = self;
        match function {
            Some(function) => function,
            None => (
                UserFuncName::user(0, 0),
                Signature::new(alloc, CallConv::Fast),
            ),
        }
    }
}

// Keeps what a header line says, of which `head` is the first word, unless one of its kind stands above.
fn keep<'a, T: Drop>(kept: &mut Option<T>, said: T, head: &'a str) -> Result<(), LineError<'a>>
    ensures { OnOk result ((kept.old ≡ None) × (kept.new ≡ Some said)) }
{
    if kept.is_some() {
        return Err(LineError::Fault(Fault::Repeated(head)));
    }
    *kept = Some(said);
    Ok(())
}

// The name of a function, and what a call of it returns.
fn answer_of<'a>(alloc: Global, words: &mut Cursor<'_, 'a>) -> Result<OutsideAnswer, LineError<'a>>
    ensures { IfOk result (IsAnswerLine (words_left words.old)) }
{
    let word = words.take(Expected::FunctionName)?;
    let callee = function_name(alloc, word, Expected::FunctionName)?;
    let values = numbers_to_end(alloc, words)?;
    Ok(OutsideAnswer {
        callee,
        item: None,
        values,
    })
}

// The name of a function, the item of a table to which a call of it goes, and what is thrown.
fn throw_of<'a>(alloc: Global, words: &mut Cursor<'_, 'a>) -> Result<OutsideAnswer, LineError<'a>>
    ensures { IfOk result (IsThrowLine (words_left words.old)) }
{
    let word = words.take(Expected::FunctionName)?;
    let callee = function_name(alloc, word, Expected::FunctionName)?;
    let item = item_of(words.take(Expected::ItemNumber)?)?;
    let first = number_of(words.take(Expected::Number)?)?;
    let second = number_of(words.take(Expected::Number)?)?;
    words.end()?;
    let values = vec![in alloc; first, second]?;
    Ok(OutsideAnswer {
        callee,
        item: Some(item),
        values,
    })
}

// The number of an item.
fn item_of(word: &str) -> Result<u32, LineError<'_>>
    ensures { IfOk result (IsMagnitude word.now) }
{
    let number = magnitude(word).ok_or(LineError::wanted(Expected::ItemNumber))?;
    u32::try_from(number).map_err(|_| LineError::wanted(Expected::ItemNumber))
}

// A number of 64 bits.
fn number_of(word: &str) -> Result<i64, LineError<'_>>
    ensures { IfOk result (IsNumber word.now) }
{
    number(word).ok_or(LineError::wanted(Expected::Number))
}

// How a collector moves.
fn moves_of<'a>(words: &mut Cursor<'_, 'a>) -> Result<Moves, LineError<'a>>
    ensures { IfOk result (IsMovesLine (words_left words.old)) }
{
    let moves = match words.take(Expected::Moves)? {
        "add" => Moves::Add(number_of(words.take(Expected::Number)?)?),
        "one" => Moves::One,
        "events" => Moves::Events,
        _ => return Err(LineError::wanted(Expected::Moves)),
    };
    words.end()?;
    Ok(moves)
}

// What a callback answers that is asked for alias regions.
fn region_of<'a>(words: &mut Cursor<'_, 'a>) -> Result<RegionKind, LineError<'a>>
    ensures { IfOk result (IsRegionLine (words_left words.old)) }
{
    let kind = match words.take(Expected::RegionKind)? {
        "refuse" => RegionKind::Refuse,
        "intern" => RegionKind::Intern(user_id_of(words.take(Expected::UserId)?)?),
        "slot" => RegionKind::Slot,
        "slot_none" => RegionKind::SlotNone,
        "const" => RegionKind::Const(region_number_of(words.take(Expected::Region)?)?),
        "alternate" => RegionKind::Alternate(user_id_of(words.take(Expected::UserId)?)?),
        _ => return Err(LineError::wanted(Expected::RegionKind)),
    };
    words.end()?;
    Ok(kind)
}

// The user id of a region.
fn user_id_of(word: &str) -> Result<u32, LineError<'_>>
    ensures { IfOk result (IsMagnitude word.now) }
{
    let number = magnitude(word).ok_or(LineError::wanted(Expected::UserId))?;
    u32::try_from(number).map_err(|_| LineError::wanted(Expected::UserId))
}

// The number of a region.
fn region_number_of(word: &str) -> Result<AliasRegion, LineError<'_>>
    ensures { IfOk result (IsMagnitude word.now) }
{
    match magnitude(word) {
        Some(number) if number < u64::from(u32::MAX) => Ok(AliasRegion::from_u32(number as u32)),
        _ => Err(LineError::wanted(Expected::Region)),
    }
}

// Numbers that end a line.
fn numbers_to_end<'a>(alloc: Global, words: &mut Cursor<'_, 'a>) -> Result<Vec<i64>, LineError<'a>>
    ensures { IfOk result (λ values. AreNumbers (words_left words.old) values.items) }
{
    let mut values = Vec::new(alloc);
    while !words.is_empty() {
        let word = words.take(Expected::Number)?;
        values.push(number_of(word)?)?;
    }
    Ok(values)
}

fn pointer_width_of<'a>(words: &mut Cursor<'_, 'a>) -> Result<PointerWidth, LineError<'a>>
    ensures { IfOk result (λ width. words_left words.old ≡ pointer_text width ∷ []) }
{
    let word = words.take(Expected::PointerWidth)?;
    let width = pointer_width_named(word).ok_or(LineError::wanted(Expected::PointerWidth))?;
    words.end()?;
    Ok(width)
}

fn call_conv_of<'a>(words: &mut Cursor<'_, 'a>) -> Result<CallConv, LineError<'a>>
    ensures { IfOk result (λ conv. words_left words.old ≡ call_conv_text conv ∷ []) }
{
    last_call_conv(words, Expected::CallConv)
}

// The convention that ends a line.
fn last_call_conv<'a>(
    words: &mut Cursor<'_, 'a>,
    expected: Expected,
) -> Result<CallConv, LineError<'a>>
    ensures conv { IfOk result (λ conv. words_left words.old ≡ call_conv_text conv ∷ []) }
    ensures end { OnOk result (words_left words.new ≡ []) }
{
    let word = words.take(expected)?;
    let Some(conv) = call_conv_named(word) else {
        return Err(no_call_conv(word, words.is_empty(), expected));
    };
    words.end()?;
    Ok(conv)
}

// The refusal of a word that is no convention. Where a type may stand too, and the word isn't the last one, it should
// have been a type.
fn no_call_conv(word: &str, is_last: bool, expected: Expected) -> LineError<'_> {
    if expected == Expected::TypeOrCallConv && !is_last {
        unknown_type(word, expected)
    } else {
        LineError::wanted(expected)
    }
}

// The name of a function, or of what `expected` says: `%` and a text, or `u0:0`.
pub fn function_name<'a>(
    alloc: Global,
    word: &'a str,
    expected: Expected,
) -> Result<UserFuncName, LineError<'a>>
    ensures { IfOk result (IsFunctionName word.now) }
{
    if let Some(text) = word.strip_prefix('%') {
        if text.is_empty() {
            return Err(LineError::wanted(expected));
        }
        return Ok(UserFuncName::testcase(String::from_str(alloc, text)?));
    }
    match user_name(word) {
        Some(name) => Ok(UserFuncName::User(name)),
        None => Err(LineError::wanted(expected)),
    }
}

fn user_name(word: &str) -> Option<UserExternalName>
    ensures { IfSome result (IsUserName word.now) }
{
    let (namespace, index) = word.strip_prefix('u')?.split_once(':')?;
    Some(UserExternalName {
        namespace: short_decimal(namespace)?,
        index: short_decimal(index)?,
    })
}

// The types that come next, each as a parameter.
fn take_types<'a>(alloc: Global, words: &mut Cursor<'_, 'a>) -> Result<Vec<AbiParam>, LineError<'a>>
    ensures { IfOk result (λ params. (taken : List (List ℕ)) × (words_left words.old ≡
        taken ++ words_left words.new) × AreTypes taken params.items) }
{
    let mut params = Vec::new(alloc);
    while let Some(ty) = words.take_type() {
        params.push(AbiParam::new(ty))?;
    }
    Ok(params)
}

// The refusal of the next word, which is no type, or of the end of the line. A convention is told as a type that is missing.
fn no_type_next<'a>(words: &mut Cursor<'_, 'a>, expected: Expected) -> LineError<'a> {
    match words.take(expected) {
        Ok(word) if call_conv_named(word).is_none() => unknown_type(word, expected),
        Ok(_) => LineError::wanted(expected),
        Err(error) => error,
    }
}

// The parameters in parentheses.
fn take_params<'a>(
    alloc: Global,
    words: &mut Cursor<'_, 'a>,
) -> Result<Vec<AbiParam>, LineError<'a>>
    ensures { IfOk result (λ params. (taken : List (List ℕ)) × (words_left words.old ≡
        codes "(" ∷ (taken ++ (codes ")" ∷ words_left words.new))) × AreTypes taken params.items) }
{
    if !words.skips("(") {
        return Err(LineError::wanted(Expected::Open));
    }
    let params = take_types(alloc, words)?;
    if words.skips(")") {
        Ok(params)
    } else {
        Err(no_type_next(words, Expected::TypeOrClose))
    }
}

// What is returned: types behind an arrow, or nothing without one.
fn take_returns<'a>(
    alloc: Global,
    words: &mut Cursor<'_, 'a>,
) -> Result<Vec<AbiParam>, LineError<'a>>
    ensures { IfOk result (λ params. (taken : List (List ℕ)) × (words_left words.old ≡
        taken ++ words_left words.new) × AreReturned taken params.items) }
{
    if !words.skips("->") {
        return Ok(Vec::new(alloc));
    }
    let returns = take_types(alloc, words)?;
    if returns.is_empty() {
        Err(no_type_next(words, Expected::Type))
    } else {
        Ok(returns)
    }
}

// `(types) -> types CONV`, or the same without the arrow, which ends a line.
pub fn last_signature<'a>(
    alloc: Global,
    words: &mut Cursor<'_, 'a>,
) -> Result<Signature, LineError<'a>>
    ensures signature { IfOk result (IsSignature (words_left words.old)) }
    ensures end { OnOk result (words_left words.new ≡ []) }
{
    let params = take_params(alloc, words)?;
    let returns = take_returns(alloc, words)?;
    let expected = if returns.is_empty() {
        Expected::ArrowOrCallConv
    } else {
        Expected::TypeOrCallConv
    };
    let call_conv = last_call_conv(words, expected)?;
    Ok(Signature {
        params,
        returns,
        call_conv,
    })
}

// `%name`, and a signature.
fn function_of<'a>(
    alloc: Global,
    words: &mut Cursor<'_, 'a>,
) -> Result<(UserFuncName, Signature), LineError<'a>>
    ensures { IfOk result (IsFunction (words_left words.old)) }
{
    let word = words.take(Expected::FunctionName)?;
    let name = function_name(alloc, word, Expected::FunctionName)?;
    let signature = last_signature(alloc, words)?;
    Ok((name, signature))
}
