//! Expressions, whose values are computed in the current block.
//!
//! ```text
//! expression = sum [("==" | "!=" | "<" | "<=" | ">" | ">=") sum]
//! sum        = product {("+" | "-") product}
//! product    = factor {("*" | "/" | "%") factor}
//! factor     = ["-"] (number | variable | call | "(" expression ")")
//! call       = function "(" [expression {"," expression}] ")"
//! ```
use crate::error::{Fault, ToyError};
use crate::function::{Compiler, Value};
use crate::tokens::{is_name, is_number};
use clif_calls::{Name, PlainInstruction};
use clif_types::IntCC;
use clif_types::types::I64;

/// The operators that are read as one chain, from left to right.
#[derive(Clone, Copy)]
enum Level {
    Sum,
    Product,
}

/// What an operator computes.
#[derive(Clone, Copy)]
enum Operator {
    Add,
    Subtract,
    Multiply,
    Divide,
    Remainder,
}

// The operator that a word is, if it is one of this level.
fn operator_named(level: Level, word: &str) -> Option<Operator> {
    match (level, word) {
        (Level::Sum, "+") => Some(Operator::Add),
        (Level::Sum, "-") => Some(Operator::Subtract),
        (Level::Product, "*") => Some(Operator::Multiply),
        (Level::Product, "/") => Some(Operator::Divide),
        (Level::Product, "%") => Some(Operator::Remainder),
        _ => None,
    }
}

// The instruction that computes it.
fn instruction(operator: Operator, x: Name, y: Name) -> PlainInstruction {
    match operator {
        Operator::Add => PlainInstruction::Iadd { x, y },
        Operator::Subtract => PlainInstruction::Isub { x, y },
        Operator::Multiply => PlainInstruction::Imul { x, y },
        Operator::Divide => PlainInstruction::Sdiv { x, y },
        Operator::Remainder => PlainInstruction::Srem { x, y },
    }
}

// The comparison that a word is.
fn relation(word: &str) -> Option<IntCC> {
    match word {
        "==" => Some(IntCC::Equal),
        "!=" => Some(IntCC::NotEqual),
        "<" => Some(IntCC::SignedLessThan),
        "<=" => Some(IntCC::SignedLessThanOrEqual),
        ">" => Some(IntCC::SignedGreaterThan),
        ">=" => Some(IntCC::SignedGreaterThanOrEqual),
        _ => None,
    }
}

impl<'t, 'a> Compiler<'t, 'a> {
    /// An expression; brackets may be nested so deeply. A comparison gives 1 where it holds, and else 0.
    #[cycle(expression)]
    pub(crate) fn expression(&mut self, depth: u32) -> Result<Value, ToyError<'a>> {
        let x = self.chain(depth, Level::Sum)?;
        let Some(cond) = relation(self.parser.peek()) else {
            return Ok(x);
        };
        self.parser.take();
        let y = self.chain(depth, Level::Sum)?.name;
        let x = x.name;
        let x = self.plain(PlainInstruction::Icmp { cond, x, y });
        Ok(Value::computed(self.plain(PlainInstruction::Uextend { ty: I64, x })))
    }

    // Operands of one level with its operators between them.
    #[cycle(expression)]
    fn chain(&mut self, depth: u32, level: Level) -> Result<Value, ToyError<'a>> {
        let mut value = self.operand(depth, level)?;
        for _ in 0..self.parser.left() {
            let Some(found) = operator_named(level, self.parser.peek()) else {
                return Ok(value);
            };
            self.parser.take();
            let other = self.operand(depth, level)?.name;
            value = Value::computed(self.plain(instruction(found, value.name, other)));
        }
        Ok(value)
    }

    #[cycle(expression)]
    fn operand(&mut self, depth: u32, level: Level) -> Result<Value, ToyError<'a>> {
        match level {
            Level::Sum => self.chain(depth, Level::Product),
            Level::Product => self.factor(depth),
        }
    }

    #[cycle(expression)]
    fn factor(&mut self, depth: u32) -> Result<Value, ToyError<'a>> {
        if !self.parser.skips("-") {
            return self.primary(depth);
        }
        let x = self.primary(depth)?.name;
        Ok(Value::computed(self.plain(PlainInstruction::Ineg { x })))
    }

    #[cycle(expression)]
    fn primary(&mut self, depth: u32) -> Result<Value, ToyError<'a>> {
        let word = self.parser.peek();
        if is_number(word) {
            return self.number(word);
        }
        if is_name(word) {
            return self.named(depth);
        }
        if !self.parser.skips("(") {
            return Err(self.parser.wanted("an expression"));
        }
        let Some(inner) = depth.checked_sub(1) else {
            return Err(self.parser.fault(Fault::TooDeep));
        };
        let value = self.expression(inner)?;
        self.parser.expect(")")?;
        Ok(value)
    }

    // A number, which is the next word.
    fn number(&mut self, word: &'a str) -> Result<Value, ToyError<'a>> {
        let Ok(imm) = word.parse() else {
            return Err(self.parser.fault(Fault::Number));
        };
        self.parser.take();
        Ok(Value::computed(self.plain(PlainInstruction::Iconst { ty: I64, imm })))
    }

    // The value of a variable, or of a call, whose name is the next word.
    #[cycle(expression)]
    fn named(&mut self, depth: u32) -> Result<Value, ToyError<'a>> {
        let place = self.parser.place();
        let name = self.parser.take();
        if !self.parser.skips("(") {
            return match self.find(name) {
                Some(local) => Ok(Value {
                    name: self.use_variable(local.variable),
                    kind: Some(local.kind),
                }),
                None => Err(ToyError::at(place, Fault::Undeclared(name))),
            };
        }
        let Some(wanted) = self.parameters_of(name) else {
            return Err(ToyError::at(place, Fault::Unknown(name)));
        };
        let Some(inner) = depth.checked_sub(1) else {
            return Err(self.parser.fault(Fault::TooDeep));
        };
        let args = self.arguments(inner)?;
        let given = args.len();
        if given != wanted {
            let fault = Fault::Arguments {
                name,
                wanted,
                given,
            };
            return Err(ToyError::at(place, fault));
        }
        Ok(Value::computed(self.call_function(name, args)?))
    }

    // The arguments of a call, up to the bracket behind them.
    #[cycle(expression)]
    fn arguments(&mut self, depth: u32) -> Result<Vec<Name>, ToyError<'a>> {
        let mut args = Vec::new(self.alloc);
        if self.parser.skips(")") {
            return Ok(args);
        }
        for _ in 0..self.parser.left() {
            let value = self.expression(depth)?.name;
            args.push(value)?;
            if self.parser.skips(")") {
                return Ok(args);
            }
            self.parser.expect(",")?;
        }
        Err(self.parser.wanted("an expression"))
    }
}
