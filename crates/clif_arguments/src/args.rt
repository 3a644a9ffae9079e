//! What follows the name of a call.
ghost use Rattle.std.specs.Prelude.{◌≡◌, ◌<◌, ◌-◌, ◌^◌, ◌++◌, ◌∷◌, [], ℕ, List, IfSome, codes};
ghost use Rattle.clif_words.specs.Spelling.{IsDecimal};
ghost use Rattle.clif_arguments.specs.Arguments.{IsPart};

use crate::header::{function_name, last_signature};
use crate::refusals::{unknown_name, unknown_type};
use crate::scope::Scope;
use clif_calls::{Edge, Name, Passed, SwitchEntry, TableEdge, TableItem};
use clif_records::Variable;
use clif_types::{
    EntityRef, ExternalName, IntCC, MemFlagsData, Signature, TrapCode, Type, UserFuncName,
    ValueLabel,
};
use clif_words::bytes::bytes;
use clif_words::cursor::Cursor;
use clif_words::error::{Expected, Fault, LineError};
use clif_words::number::{decimal, magnitude, number, offset, wide_magnitude};
use clif_words::types::{condition_named, lib_call_named, trap_code_named, type_named};
use std::alloc::Global;
use std::num::NonZeroU8;

/// The words that are left, and what names in them stand for.
///
/// # Errors
///
/// Each call that takes words says what was expected, where the line has something else there, or nothing; or that memory
/// was refused.
#[derive(Drop)]
pub struct Args<'w, 'a> {
    words: Cursor<'w, 'a>,
    scope: &'w Scope<'a>,
}

// How many there can be of a kind that is named by number.
const MOST_VARIABLES: usize = 0xffff_ffff;

impl<'w, 'a> Args<'w, 'a> {
    ghost use Rattle.std.specs.Prelude.{IfOk, OnOk};
    ghost use Rattle.clif_types.specs.Texts.{int_cc_text};
    ghost use Rattle.clif_words.specs.Cursor.{TakesFlags, refused_place, texts, words_left};
    ghost use Rattle.std.specs.Int.NonZero.{non_zero_u8_get};
    ghost use Rattle.clif_words.specs.Spelling.{IsBytes, IsMagnitude, IsNumber, IsTrapCode, IsTypeWord, flag_word, overlap_word};
    ghost use Rattle.clif_arguments.specs.Arguments.{AreAnswers, AreClosed, AreItems, AreLast, AreLastPassed, ArePassed, AreSwitchCases, IsEdge, IsExternalName, IsInst, IsItem, IsLastEdge, IsLastOffset, IsPassed, IsSwitchCase, IsTableEdge, IsVariable};
    ghost use Rattle.clif_arguments.specs.Header.{IsSignature};
    ghost use Rattle.clif_arguments.specs.Taking.{TakesAnswer, TakesAnswers, TakesWord, TakesWords, names_in};

    /// All words of a line after its answers' names, none of them taken.
    pub fn new(words: &'w [&'a str], scope: &'w Scope<'a>) -> Args<'w, 'a>
        ensures words { words_left result.words ≡ texts words.now }
        ensures scope { result.scope ≡ scope.entry }
    {
        Args {
            words: Cursor::new(words),
            scope,
        }
    }

    /// The name of a call.
    pub fn head(&mut self) -> Result<&'a str, LineError<'a>>
        ensures scope { self.new.scope ≡ self.old.scope }
        ensures ok { IfOk result (λ head. words_left self.old.words ≡
            head.now ∷ words_left self.new.words) }
    {
        self.words.take(Expected::Call)
    }

    // What a name stands for.
    fn answer(&mut self, expected: Expected) -> Result<Name, LineError<'a>>
        ensures scope { self.new.scope ≡ self.old.scope }
        ensures ok { IfOk result (TakesAnswer self.old self.new) }
    {
        let word = self.words.take(expected)?;
        match self.scope.answer(word) {
            Some(name) => Ok(name),
            None => Err(unknown_name(word, expected)),
        }
    }

    /// A block.
    pub fn block(&mut self) -> Result<Name, LineError<'a>>
        ensures scope { self.new.scope ≡ self.old.scope }
        ensures ok { IfOk result (TakesAnswer self.old self.new) }
    {
        self.answer(Expected::Block)
    }

    /// A value.
    pub fn value(&mut self) -> Result<Name, LineError<'a>>
        ensures scope { self.new.scope ≡ self.old.scope }
        ensures ok { IfOk result (TakesAnswer self.old self.new) }
    {
        self.answer(Expected::Value)
    }

    /// An instruction: a name that it was given, with or without the `@` in front of it, or `$P.K`.
    pub fn inst(&mut self) -> Result<Name, LineError<'a>>
        ensures scope { self.new.scope ≡ self.old.scope }
        ensures ok { IfOk result (TakesWord self.old self.new (IsInst (names_in self.old))) }
    {
        let word = self.words.take(Expected::Inst)?;
        let named = match word.strip_prefix('@') {
            Some(rest) => rest,
            None => word,
        };
        match self.scope.answer(named) {
            Some(name) => Ok(name),
            None => Err(unknown_name(named, Expected::Inst)),
        }
    }

    /// A variable: the one that a name or `$P.K` stands for, or `varN`, which is variable N unless that name
    /// was given.
    pub fn variable(&mut self) -> Result<Variable, LineError<'a>>
        ensures scope { self.new.scope ≡ self.old.scope }
        ensures ok { IfOk result (TakesWord self.old self.new (IsVariable (names_in self.old))) }
    {
        let word = self.words.take(Expected::Variable)?;
        let number = match self.scope.answer(word) {
            Some(name) => self.scope.variable(name),
            None => match number_behind("var", word) {
                Some(number) => number,
                None => return Err(unknown_name(word, Expected::Variable)),
            },
        };
        if number < MOST_VARIABLES {
            Ok(Variable::new(number))
        } else {
            Err(LineError::wanted(Expected::Variable))
        }
    }

    /// A stack slot.
    pub fn slot(&mut self) -> Result<Name, LineError<'a>>
        ensures scope { self.new.scope ≡ self.old.scope }
        ensures ok { IfOk result (TakesAnswer self.old self.new) }
    {
        self.answer(Expected::StackSlot)
    }

    /// A jump table.
    pub fn jump_table(&mut self) -> Result<Name, LineError<'a>>
        ensures scope { self.new.scope ≡ self.old.scope }
        ensures ok { IfOk result (TakesAnswer self.old self.new) }
    {
        self.answer(Expected::JumpTable)
    }

    /// An exception table.
    pub fn exception_table(&mut self) -> Result<Name, LineError<'a>>
        ensures scope { self.new.scope ≡ self.old.scope }
        ensures ok { IfOk result (TakesAnswer self.old self.new) }
    {
        self.answer(Expected::ExceptionTable)
    }

    /// A signature.
    pub fn signature(&mut self) -> Result<Name, LineError<'a>>
        ensures scope { self.new.scope ≡ self.old.scope }
        ensures ok { IfOk result (TakesAnswer self.old self.new) }
    {
        self.answer(Expected::Signature)
    }

    /// A function.
    pub fn function(&mut self) -> Result<Name, LineError<'a>>
        ensures scope { self.new.scope ≡ self.old.scope }
        ensures ok { IfOk result (TakesAnswer self.old self.new) }
    {
        self.answer(Expected::Function)
    }

    /// An edge that `block_call` answered.
    pub fn edge_name(&mut self) -> Result<Name, LineError<'a>>
        ensures scope { self.new.scope ≡ self.old.scope }
        ensures ok { IfOk result (TakesAnswer self.old self.new) }
    {
        self.answer(Expected::Edge)
    }

    /// Edges that `block_call` answered, up to the end of the line.
    pub fn last_edge_names(&mut self, alloc: Global) -> Result<Vec<Name>, LineError<'a>>
        ensures scope { self.new.scope ≡ self.old.scope }
        ensures ok { IfOk result (λ names. (words_left self.new.words ≡ []) ×
            AreAnswers (names_in self.old) (words_left self.old.words) names.items) }
    {
        self.answers_to_end(alloc, Expected::Edge)
    }

    /// A type.
    pub fn ty(&mut self) -> Result<Type, LineError<'a>>
        ensures scope { self.new.scope ≡ self.old.scope }
        ensures ok { IfOk result (TakesWord self.old self.new IsTypeWord) }
    {
        let word = self.words.take(Expected::Type)?;
        type_named(word).ok_or(unknown_type(word, Expected::Type))
    }

    /// A number.
    pub fn number(&mut self) -> Result<i64, LineError<'a>>
        ensures scope { self.new.scope ≡ self.old.scope }
        ensures ok { IfOk result (TakesWord self.old self.new IsNumber) }
    {
        let word = self.words.take(Expected::Number)?;
        number(word).ok_or(LineError::wanted(Expected::Number))
    }

    /// Two values.
    pub fn two_values(&mut self) -> Result<(Name, Name), LineError<'a>>
        ensures scope { self.new.scope ≡ self.old.scope }
        ensures ok { IfOk result (λ two. TakesAnswers self.old self.new (two.0 ∷ two.1 ∷ [])) }
    {
        let first = self.value()?;
        let second = self.value()?;
        Ok((first, second))
    }

    /// Three values.
    pub fn three_values(&mut self) -> Result<(Name, Name, Name), LineError<'a>>
        ensures scope { self.new.scope ≡ self.old.scope }
        ensures ok { IfOk result (λ three. TakesAnswers self.old self.new
            (three.0 ∷ three.1 ∷ three.2 ∷ [])) }
    {
        let first = self.value()?;
        let (second, third) = self.two_values()?;
        Ok((first, second, third))
    }

    /// A number without a sign, which the line should have as `expected`.
    pub fn magnitude(&mut self, expected: Expected) -> Result<u64, LineError<'a>>
        ensures scope { self.new.scope ≡ self.old.scope }
        ensures ok { IfOk result (TakesWord self.old self.new IsMagnitude) }
    {
        let word = self.words.take(expected)?;
        magnitude(word).ok_or(LineError::wanted(expected))
    }

    /// The bytes of a constant.
    pub fn bytes(&mut self, alloc: Global) -> Result<Vec<u8>, LineError<'a>>
        ensures scope { self.new.scope ≡ self.old.scope }
        ensures ok { IfOk result (λ bytes. TakesWord self.old self.new IsBytes bytes.items) }
    {
        let word = self.words.take(Expected::Bytes)?;
        bytes(alloc, word)
    }

    /// A number of 32 bits without a sign, which the line should have as `expected`.
    pub fn short_magnitude(&mut self, expected: Expected) -> Result<u32, LineError<'a>>
        ensures scope { self.new.scope ≡ self.old.scope }
        ensures ok { IfOk result (TakesWord self.old self.new IsMagnitude) }
    {
        match u32::try_from(self.magnitude(expected)?) {
            Ok(number) => Ok(number),
            Err(_) => Err(LineError::wanted(expected)),
        }
    }

    /// A label of a value.
    pub fn label(&mut self) -> Result<ValueLabel, LineError<'a>>
        ensures scope { self.new.scope ≡ self.old.scope }
        ensures ok { IfOk result (TakesWord self.old self.new IsMagnitude) }
    {
        match self.short_magnitude(Expected::ValueLabel)? {
            u32::MAX => Err(LineError::wanted(Expected::ValueLabel)),
            number => Ok(ValueLabel::from_u32(number)),
        }
    }

    /// The size of a stack slot.
    pub fn slot_size(&mut self) -> Result<u32, LineError<'a>>
        ensures scope { self.new.scope ≡ self.old.scope }
        ensures ok { IfOk result (TakesWord self.old self.new IsMagnitude) }
    {
        self.short_magnitude(Expected::SlotSize)
    }

    /// A number of 8 bits without a sign, which the line should have as `expected`.
    pub fn byte(&mut self, expected: Expected) -> Result<u8, LineError<'a>>
        ensures scope { self.new.scope ≡ self.old.scope }
        ensures ok { IfOk result (TakesWord self.old self.new IsMagnitude) }
    {
        match u8::try_from(self.magnitude(expected)?) {
            Ok(number) => Ok(number),
            Err(_) => Err(LineError::wanted(expected)),
        }
    }

    /// The shift that makes the alignment of a stack slot.
    pub fn align_shift(&mut self) -> Result<u8, LineError<'a>>
        ensures scope { self.new.scope ≡ self.old.scope }
        ensures ok { IfOk result (TakesWord self.old self.new IsMagnitude) }
    {
        self.byte(Expected::AlignShift)
    }

    /// An alignment, which isn't 0.
    pub fn non_zero_alignment(&mut self) -> Result<NonZeroU8, LineError<'a>>
        ensures scope { self.new.scope ≡ self.old.scope }
        ensures ok { IfOk result (TakesWord self.old self.new
            (λ word alignment. IsMagnitude word (non_zero_u8_get alignment))) }
    {
        let alignment = self.byte(Expected::NonZeroAlignment)?;
        NonZeroU8::new(alignment).ok_or(LineError::wanted(Expected::NonZeroAlignment))
    }

    /// Whether bytes are said not to overlap.
    pub fn non_overlapping(&mut self) -> Result<bool, LineError<'a>>
        ensures scope { self.new.scope ≡ self.old.scope }
        ensures ok { IfOk result (TakesWord self.old self.new (λ word apart. word ≡
            overlap_word apart)) }
    {
        match self.words.take(Expected::Overlap)? {
            "overlap" => Ok(false),
            "nonoverlap" => Ok(true),
            _ => Err(LineError::wanted(Expected::Overlap)),
        }
    }

    /// The number of a dynamic type.
    pub fn dynamic_type(&mut self) -> Result<u32, LineError<'a>>
        ensures scope { self.new.scope ≡ self.old.scope }
        ensures ok { IfOk result (TakesWord self.old self.new IsMagnitude) }
    {
        self.short_magnitude(Expected::DynamicType)
    }

    /// Whether the next word is this one, which is taken then.
    pub fn has(&mut self, word: &str) -> bool
        ensures scope { self.new.scope ≡ self.old.scope }
        ensures taken { words_left self.old.words ≡
            flag_word result word.now ++ words_left self.new.words }
    {
        self.words.skips(word)
    }

    /// The name of a function, or of what `expected` says.
    pub fn external_name(
        &mut self,
        alloc: Global,
        expected: Expected,
    ) -> Result<ExternalName, LineError<'a>>
        ensures scope { self.new.scope ≡ self.old.scope }
        ensures ok { IfOk result (TakesWords self.old self.new IsExternalName) }
    {
        if self.words.skips("libcall") {
            let word = self.words.take(Expected::LibCall)?;
            return match lib_call_named(word) {
                Some(call) => Ok(ExternalName::LibCall(call)),
                None => Err(LineError::wanted(Expected::LibCall)),
            };
        }
        let word = self.words.take(expected)?;
        match function_name(alloc, word, expected)? {
            UserFuncName::User(name) => Ok(ExternalName::User(name)),
            UserFuncName::Testcase(name) => Ok(ExternalName::TestCase(name)),
        }
    }

    /// A signature that ends the line, with its types.
    pub fn last_signature(&mut self, alloc: Global) -> Result<Signature, LineError<'a>>
        ensures scope { self.new.scope ≡ self.old.scope }
        ensures ok { IfOk result (TakesWords self.old self.new IsSignature) }
    {
        last_signature(alloc, &mut self.words)
    }

    /// A condition.
    pub fn condition(&mut self) -> Result<IntCC, LineError<'a>>
        ensures scope { self.new.scope ≡ self.old.scope }
        ensures ok { IfOk result (TakesWord self.old self.new (λ word cond. word ≡
            int_cc_text cond)) }
    {
        let word = self.words.take(Expected::Condition)?;
        condition_named(word).ok_or(LineError::wanted(Expected::Condition))
    }

    /// A reason for a trap.
    pub fn trap_code(&mut self) -> Result<TrapCode, LineError<'a>>
        ensures scope { self.new.scope ≡ self.old.scope }
        ensures ok { IfOk result (TakesWord self.old self.new IsTrapCode) }
    {
        let word = self.words.take(Expected::TrapCode)?;
        trap_code_named(word).ok_or(LineError::wanted(Expected::TrapCode))
    }

    /// The flags of a load or a store.
    pub fn flags(&mut self) -> MemFlagsData
        ensures scope { self.new.scope ≡ self.old.scope }
        ensures flags { TakesFlags self.old.words self.new.words result }
    {
        self.words.take_flags()
    }

    /// An offset that ends the line; it may be left out where it is 0.
    pub fn last_offset(&mut self) -> Result<i32, LineError<'a>>
        ensures scope { self.new.scope ≡ self.old.scope }
        ensures ok { IfOk result (TakesWords self.old self.new IsLastOffset) }
    {
        if self.words.is_empty() {
            return Ok(0);
        }
        let word = self.words.take(Expected::Offset)?;
        match offset(word) {
            Some(number) => Ok(number),
            None => Err(LineError::wanted(Expected::Offset)),
        }
    }

    // Values up to `)`.
    #[tactic(auto, using(crate::proofs::Taking::taking_rules))]
    fn values_to_close(&mut self, alloc: Global) -> Result<Vec<Name>, LineError<'a>>
        ensures scope { self.new.scope ≡ self.old.scope }
        ensures ok { IfOk result (λ values. (words : List (List ℕ)) × (words_left self.old.words ≡
            words ++ codes ")" ∷ words_left self.new.words) × AreAnswers (names_in self.old) words
            values.items) }
    {
        let mut values = Vec::new(alloc);
        while !self.words.skips(")") {
            values.push(self.answer(Expected::ValueOrClose)?)?;
        }
        Ok(values)
    }

    // Answers up to the end of the line.
    #[tactic(auto, using(crate::proofs::Taking::taking_rules))]
    fn answers_to_end(
        &mut self,
        alloc: Global,
        expected: Expected,
    ) -> Result<Vec<Name>, LineError<'a>>
        ensures scope { self.new.scope ≡ self.old.scope }
        ensures ok { IfOk result (λ values. (words_left self.new.words ≡ []) ×
            AreAnswers (names_in self.old) (words_left self.old.words) values.items) }
    {
        let mut values = Vec::new(alloc);
        while !self.words.is_empty() {
            values.push(self.answer(expected)?)?;
        }
        Ok(values)
    }

    /// Values that end the line, in parentheses or not.
    pub fn last_values(&mut self, alloc: Global) -> Result<Vec<Name>, LineError<'a>>
        ensures scope { self.new.scope ≡ self.old.scope }
        ensures ok { IfOk result (λ values. TakesWords self.old self.new
            (AreLast (names_in self.old)) values.items) }
    {
        if self.words.skips("(") {
            self.values_to_close(alloc)
        } else {
            self.answers_to_end(alloc, Expected::Value)
        }
    }

    /// An edge: a block, and the values that it passes in parentheses.
    pub fn edge(&mut self, alloc: Global) -> Result<Edge, LineError<'a>>
        ensures scope { self.new.scope ≡ self.old.scope }
        ensures ok { IfOk result (TakesWords self.old self.new (IsEdge (names_in self.old))) }
    {
        let block = self.block()?;
        let args = if self.words.skips("(") {
            self.values_to_close(alloc)?
        } else {
            Vec::new(alloc)
        };
        Ok(Edge { block, args })
    }

    /// An edge that ends the line: the parentheses may be left out.
    pub fn last_edge(&mut self, alloc: Global) -> Result<Edge, LineError<'a>>
        ensures scope { self.new.scope ≡ self.old.scope }
        ensures ok { IfOk result (TakesWords self.old self.new (IsLastEdge (names_in self.old))) }
    {
        let block = self.block()?;
        let args = self.last_values(alloc)?;
        Ok(Edge { block, args })
    }

    // What an edge of a table passes: a value, or `ret0` or `exn1`, unless that name was given.
    fn passed(&mut self, expected: Expected) -> Result<Passed, LineError<'a>>
        ensures scope { self.new.scope ≡ self.old.scope }
        ensures ok { IfOk result (TakesWord self.old self.new (IsPassed (names_in self.old))) }
    {
        let word = self.words.take(expected)?;
        match self.scope.answer(word) {
            Some(name) => Ok(Passed::Value(name)),
            None => match part_of_call(word) {
                Some(part) => Ok(part),
                None => Err(unknown_name(word, expected)),
            },
        }
    }

    // The same up to `)`.
    #[tactic(auto, using(crate::proofs::TakingTables::table_rules))]
    fn passed_to_close(&mut self, alloc: Global) -> Result<Vec<Passed>, LineError<'a>>
        ensures scope { self.new.scope ≡ self.old.scope }
        ensures ok { IfOk result (λ args. (words : List (List ℕ)) × (words_left self.old.words ≡
            words ++ codes ")" ∷ words_left self.new.words) × ArePassed (names_in self.old) words
            args.items) }
    {
        let mut args = Vec::new(alloc);
        while !self.words.skips(")") {
            args.push(self.passed(Expected::ValueOrClose)?)?;
        }
        Ok(args)
    }

    // The same up to the end of the line.
    #[tactic(auto, using(crate::proofs::TakingTables::table_rules))]
    fn passed_to_end(&mut self, alloc: Global) -> Result<Vec<Passed>, LineError<'a>>
        ensures scope { self.new.scope ≡ self.old.scope }
        ensures ok { IfOk result (λ args. (words_left self.new.words ≡ []) ×
            ArePassed (names_in self.old) (words_left self.old.words) args.items) }
    {
        let mut args = Vec::new(alloc);
        while !self.words.is_empty() {
            args.push(self.passed(Expected::Value)?)?;
        }
        Ok(args)
    }

    // The same, ending the line, in parentheses or not.
    fn last_passed(&mut self, alloc: Global) -> Result<Vec<Passed>, LineError<'a>>
        ensures scope { self.new.scope ≡ self.old.scope }
        ensures ok { IfOk result (λ args. TakesWords self.old self.new
            (AreLastPassed (names_in self.old)) args.items) }
    {
        if self.words.skips("(") {
            self.passed_to_close(alloc)
        } else {
            self.passed_to_end(alloc)
        }
    }

    /// An edge of a table, which ends the line: the parentheses may be left out.
    pub fn table_edge(&mut self, alloc: Global) -> Result<TableEdge, LineError<'a>>
        ensures scope { self.new.scope ≡ self.old.scope }
        ensures ok { IfOk result (TakesWords self.old self.new (IsTableEdge (names_in self.old))) }
    {
        let block = self.block()?;
        let args = self.last_passed(alloc)?;
        Ok(TableEdge { block, args })
    }

    // An item of an exception table.
    fn item(&mut self) -> Result<TableItem, LineError<'a>>
        ensures scope { self.new.scope ≡ self.old.scope }
        ensures ok { IfOk result (λ item. (kind what : List ℕ) × (words_left self.old.words ≡
            kind ∷ what ∷ words_left self.new.words) × IsItem (names_in self.old) kind what item) }
    {
        let word = self.words.take(Expected::TableItem)?;
        if word == "default" {
            return Ok(TableItem::Default(self.edge_name()?));
        }
        if word == "context" {
            return Ok(TableItem::Context(self.value()?));
        }
        match small_behind("tag", word) {
            Some(tag) => Ok(TableItem::Tag(tag, self.edge_name()?)),
            None => Err(LineError::wanted(Expected::TableItem)),
        }
    }

    /// The items of an exception table, up to the end of the line.
    #[tactic(auto, using(crate::proofs::TakingTables::table_rules))]
    pub fn last_items(&mut self, alloc: Global) -> Result<Vec<TableItem>, LineError<'a>>
        ensures scope { self.new.scope ≡ self.old.scope }
        ensures ok { IfOk result (λ items. (words_left self.new.words ≡ []) ×
            AreItems (names_in self.old) (words_left self.old.words) items.items) }
    {
        let mut items = Vec::new(alloc);
        while !self.words.is_empty() {
            items.push(self.item()?)?;
        }
        Ok(items)
    }

    // A case of a switch.
    fn switch_case(&mut self) -> Result<SwitchEntry, LineError<'a>>
        ensures scope { self.new.scope ≡ self.old.scope }
        ensures ok { IfOk result (TakesWord self.old self.new (IsSwitchCase (names_in self.old))) }
    {
        let word = self.words.take(Expected::SwitchCase)?;
        let Some((key, block)) = word.split_once(':') else {
            return Err(LineError::wanted(Expected::SwitchCase));
        };
        let Some(key) = wide_magnitude(key) else {
            return Err(LineError::wanted(Expected::SwitchKey));
        };
        match self.scope.answer(block) {
            Some(block) => Ok(SwitchEntry { key, block }),
            None => Err(unknown_name(block, Expected::Block)),
        }
    }

    /// The cases of a switch, up to the end of the line.
    #[tactic(auto, using(crate::proofs::TakingTables::table_rules))]
    pub fn last_switch_cases(&mut self, alloc: Global) -> Result<Vec<SwitchEntry>, LineError<'a>>
        ensures scope { self.new.scope ≡ self.old.scope }
        ensures ok { IfOk result (λ entries. (words_left self.new.words ≡ []) ×
            AreSwitchCases (names_in self.old) (words_left self.old.words) entries.items) }
    {
        let mut entries = Vec::new(alloc);
        while !self.words.is_empty() {
            entries.push(self.switch_case()?)?;
        }
        Ok(entries)
    }

    /// Values in parentheses.
    pub fn closed_values(&mut self, alloc: Global) -> Result<Vec<Name>, LineError<'a>>
        ensures scope { self.new.scope ≡ self.old.scope }
        ensures ok { IfOk result (λ values. TakesWords self.old self.new
            (AreClosed (names_in self.old)) values.items) }
    {
        if self.words.skips("(") {
            self.values_to_close(alloc)
        } else {
            Err(LineError::wanted(Expected::Open))
        }
    }

    /// The place, from 0 on, of the word for which the line was refused.
    pub fn refused(&self, fault: &Fault<'_>) -> usize
        ensures { result ≡ refused_place self.now.words fault.now }
    {
        self.words.refused(fault)
    }

    /// Nothing is left.
    pub fn end(&self) -> Result<(), LineError<'a>>
        ensures { OnOk result (words_left self.now.words ≡ []) }
    {
        self.words.end()
    }
}

// The number behind the prefix, as in `varN`.
fn number_behind(prefix: &str, word: &str) -> Option<usize>
    ensures { IfSome result (λ number. (digits : List ℕ) × (word.now ≡ prefix.now ++ digits) ×
        IsDecimal digits number) }
{
    decimal(word.strip_prefix(prefix)?)
}

// The same, of 32 bits.
fn small_behind(prefix: &str, word: &str) -> Option<u32>
    ensures { IfSome result (λ number. (digits : List ℕ) × (word.now ≡ prefix.now ++ digits) ×
        IsDecimal digits number) }
{
    u32::try_from(number_behind(prefix, word)?).ok()
}

// The part of a call that a word stands for, as `ret0` and `exn1` do.
fn part_of_call(word: &str) -> Option<Passed>
    ensures { IfSome result (IsPart word.now) }
{
    if let Some(place) = small_behind("ret", word) {
        return Some(Passed::Returned(place));
    }
    match small_behind("exn", word) {
        Some(place) => Some(Passed::Thrown(place)),
        None => None,
    }
}
