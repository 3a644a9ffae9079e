//! Statements.
//!
//! ```text
//! block     = "{" {statement} "}"
//! statement = ["let" ["ref"]] variable "=" expression ";"
//!           | "while" expression block
//!           | "if" expression block ["else" (block | "if" ..)]
//!           | "return" expression ";"
//! ```
use crate::error::{Fault, ToyError};
use crate::function::{Compiler, Kind, Value};
use crate::tokens::Place;
use clif_calls::Name;

impl<'t, 'a> Compiler<'t, 'a> {
    /// A block; blocks may be nested so deeply. The variables that it declares end with it.
    #[cycle(statement)]
    pub(crate) fn block(&mut self, depth: u32) -> Result<(), ToyError<'a>> {
        let Some(inner) = depth.checked_sub(1) else {
            return Err(self.parser.fault(Fault::TooDeep));
        };
        self.parser.expect("{")?;
        let outer = self.scope();
        for _ in 0..self.parser.left() {
            if self.parser.skips("}") {
                self.leave_scope(outer);
                return Ok(());
            }
            self.statement(inner)?;
        }
        Err(self.parser.wanted("}"))
    }

    #[cycle(statement)]
    fn statement(&mut self, depth: u32) -> Result<(), ToyError<'a>> {
        if !self.is_open {
            return Err(self.parser.fault(Fault::Unreachable));
        }
        if self.parser.skips("while") {
            return self.while_statement(depth);
        }
        if self.parser.skips("if") {
            return self.if_statement(depth);
        }
        if self.parser.skips("return") {
            let value = self.expression(depth)?.name;
            self.parser.expect(";")?;
            return self.return_value(value);
        }
        self.assignment(depth)
    }

    // `let x = ..;`, `let ref x = ..;` or `x = ..;`. The value is computed before the variable is declared.
    fn assignment(&mut self, depth: u32) -> Result<(), ToyError<'a>> {
        let declares = self.parser.skips("let");
        let kind = if declares && self.parser.skips("ref") {
            Kind::Reference
        } else {
            Kind::Number
        };
        let place = self.parser.place();
        let name = self.parser.name()?;
        self.parser.expect("=")?;
        let value = self.expression(depth)?;
        self.parser.expect(";")?;
        if declares {
            let value = assigned(place, name, kind, value)?;
            return self.declare(name, kind, value);
        }
        let Some(local) = self.find(name) else {
            return Err(ToyError::at(place, Fault::Undeclared(name)));
        };
        let value = assigned(place, name, local.kind, value)?;
        self.assign(local.variable, value);
        Ok(())
    }

    // A loop. Its header is sealed once the jump back to it is made.
    #[cycle(statement)]
    fn while_statement(&mut self, depth: u32) -> Result<(), ToyError<'a>> {
        let header = self.create_block();
        let body = self.create_block();
        let exit = self.create_block();
        self.jump(header);
        self.switch_to(header);
        let condition = self.expression(depth)?.name;
        self.branch(condition, body, exit);
        self.enter(body);
        self.block(depth)?;
        self.jump(header);
        self.seal(header);
        self.enter(exit);
        Ok(())
    }

    // Two arms, which meet again unless both return.
    #[cycle(statement)]
    fn if_statement(&mut self, depth: u32) -> Result<(), ToyError<'a>> {
        let condition = self.expression(depth)?.name;
        let arm = self.create_block();
        let other = self.create_block();
        let after = self.create_block();
        self.branch(condition, arm, other);
        self.enter(arm);
        self.block(depth)?;
        let arm_ends = self.jump(after);
        self.enter(other);
        if self.parser.skips("else") {
            self.else_arm(depth)?;
        }
        let other_ends = self.jump(after);
        if arm_ends || other_ends {
            self.enter(after);
        }
        Ok(())
    }

    #[cycle(statement)]
    fn else_arm(&mut self, depth: u32) -> Result<(), ToyError<'a>> {
        if !self.parser.skips("if") {
            return self.block(depth);
        }
        match depth.checked_sub(1) {
            Some(inner) => self.if_statement(inner),
            None => Err(self.parser.fault(Fault::TooDeep)),
        }
    }
}

// What the variable of this name at this place gets by this value: what another variable holds has to be of its kind.
fn assigned<'a>(
    place: Place,
    name: &'a str,
    kind: Kind,
    value: Value,
) -> Result<Name, ToyError<'a>> {
    match (kind, value.kind) {
        (Kind::Number, Some(Kind::Reference)) => Err(ToyError::at(place, Fault::NoNumber(name))),
        (Kind::Reference, Some(Kind::Number)) => Err(ToyError::at(place, Fault::NoReference(name))),
        _ => Ok(value.name),
    }
}
