//! The calls that build one function, as the parser makes them.
use crate::error::{Fault, ToyError};
use crate::parser::Parser;
use crate::program::{Header, Parameter, signature_of};
use clif_calls::{
    Call, Edge, EntryCall, ImportedFunction, Lender, Name, OutsideCall, PlainInstruction,
    StraightInstruction,
};
use clif_records::Variable;
use clif_types::ExternalName;
use clif_types::types::I64;
use std::alloc::Global;

/// What a variable of the language holds.
#[derive(Clone, Copy, PartialEq, Eq)]
pub(crate) enum Kind {
    /// A number.
    Number,
    /// A reference, which a collector may change at each call.
    Reference,
}

/// A variable of the language, and the builder's that holds it.
#[derive(Clone, Copy)]
pub(crate) struct Local<'a> {
    name: &'a str,
    pub(crate) variable: Variable,
    pub(crate) kind: Kind,
}

/// What an expression computes.
#[derive(Clone, Copy)]
pub(crate) struct Value {
    /// The call that answers it.
    pub(crate) name: Name,
    /// What it is where it is what a variable holds. Anything else may be assigned to each variable.
    pub(crate) kind: Option<Kind>,
}

impl Value {
    /// What an instruction computes.
    pub(crate) fn computed(name: Name) -> Value {
        Value { name, kind: None }
    }
}

// A function that was imported.
#[derive(Clone, Copy)]
struct Imported<'a> {
    name: &'a str,
    function: Name,
}

/// A function while it is read: the words, the calls so far, and what is in scope.
#[derive(Drop)]
pub(crate) struct Compiler<'t, 'a> {
    pub(crate) alloc: Global,
    pub(crate) parser: Parser<'t, 'a>,
    // the functions of the program
    headers: &'t [Header<'a>],
    pub(crate) calls: Vec<Call>,
    // the innermost last
    locals: Vec<Local<'a>>,
    // how many variables were declared
    variables: usize,
    // the functions that were called so far, each with a signature of its own
    imported: Vec<Imported<'a>>,
    /// Whether there is a current block that has no terminator yet, so that what comes next can be reached.
    pub(crate) is_open: bool,
    /// Whether memory was refused to a call of the list, so that the calls aren't those of the function. It is asked once,
    /// at the function's end: no call of the list has to be followed by a test.
    pub(crate) is_out_of_memory: bool,
}

impl<'t, 'a> Compiler<'t, 'a> {
    /// Before the first call.
    pub(crate) fn new(
        alloc: Global,
        parser: Parser<'t, 'a>,
        headers: &'t [Header<'a>],
    ) -> Compiler<'t, 'a> {
        Compiler {
            alloc,
            parser,
            headers,
            calls: Vec::new(alloc),
            locals: Vec::new(alloc),
            variables: 0,
            imported: Vec::new(alloc),
            is_open: false,
            is_out_of_memory: false,
        }
    }

    // Makes a call; the name is that of its first answer.
    fn call(&mut self, call: Call) -> Name {
        let place = self.calls.len();
        if self.calls.push(call).is_err() {
            self.is_out_of_memory = true;
        }
        Name { place, answer: 0 }
    }

    /// Makes an instruction; the name is that of its result.
    pub(crate) fn plain(&mut self, instruction: PlainInstruction) -> Name {
        let place = self.call(Call::plain(instruction)).place;
        Name { place, answer: 1 }
    }

    pub(crate) fn create_block(&mut self) -> Name {
        self.call(Call::CreateBlock)
    }

    pub(crate) fn seal(&mut self, block: Name) {
        self.call(Call::SealBlock { block });
    }

    /// Goes on in this block, to which more branches may come.
    pub(crate) fn switch_to(&mut self, block: Name) {
        self.call(Call::SwitchToBlock { block });
        self.is_open = true;
    }

    /// Goes on in this block, to which all branches were made.
    pub(crate) fn enter(&mut self, block: Name) {
        self.seal(block);
        self.switch_to(block);
    }

    /// Adds the function's parameters to its entry block, and a variable for each.
    pub(crate) fn enter_function(
        &mut self,
        parameters: &[Parameter<'a>],
    ) -> Result<(), ToyError<'a>> {
        let entry = self.create_block();
        let call = Call::AppendBlockParamsForFunctionParams { block: entry };
        let place = self.call(call).place;
        self.enter(entry);
        for (answer, parameter) in parameters.iter().enumerate() {
            let value = Name { place, answer };
            self.declare(parameter.name, parameter.kind, value)?;
        }
        Ok(())
    }

    fn edge_to(&self, block: Name) -> Edge {
        let args = Vec::new(self.alloc);
        Edge { block, args }
    }

    /// Ends the block with a jump to another one, if it has no end yet; answers whether it had none.
    pub(crate) fn jump(&mut self, block: Name) -> bool {
        if !self.is_open {
            return false;
        }
        let destination = self.edge_to(block);
        self.call(Call::Jump { destination });
        self.is_open = false;
        true
    }

    /// Ends the block: where the condition isn't 0, the first block comes next, and else the second.
    pub(crate) fn branch(&mut self, condition: Name, arm: Name, other: Name) {
        let block_then = self.edge_to(arm);
        let block_else = self.edge_to(other);
        self.call(Call::Brif {
            condition,
            block_then,
            block_else,
        });
        self.is_open = false;
    }

    /// Ends the block with a return.
    pub(crate) fn return_value(&mut self, value: Name) -> Result<(), ToyError<'a>> {
        let mut values = Vec::new(self.alloc);
        values.push(value)?;
        self.call(Call::Return { values });
        self.is_open = false;
        Ok(())
    }

    /// A new variable of this name, which holds the value. It hides one that has the name already. Stack maps name what a
    /// variable of references holds, so that a collector finds it at each call.
    pub(crate) fn declare(
        &mut self,
        name: &'a str,
        kind: Kind,
        value: Name,
    ) -> Result<(), ToyError<'a>> {
        if self.variables >= 0xffff_fffe {
            return Err(self.parser.fault(Fault::Full));
        }
        let variable = Variable::new(self.variables);
        self.variables += 1;
        self.call(Call::DeclareVar { ty: I64 });
        if kind == Kind::Reference {
            self.call(Call::DeclareVarNeedsStackMap { variable });
        }
        let local = Local {
            name,
            variable,
            kind,
        };
        if self.locals.push(local).is_err() {
            return Err(ToyError::Memory);
        }
        self.assign(variable, value);
        Ok(())
    }

    pub(crate) fn assign(&mut self, variable: Variable, value: Name) {
        self.call(Call::DefVar { variable, value });
    }

    /// The value that a variable has here.
    pub(crate) fn use_variable(&mut self, variable: Variable) -> Name {
        self.call(Call::UseVar { variable })
    }

    /// The variable of this name that was declared last, of those in scope.
    pub(crate) fn find(&self, name: &str) -> Option<Local<'a>> {
        self.locals
            .iter()
            .rev()
            .find(|local| local.name == name)
            .copied()
    }

    /// How many parameters the function of this name has, if the program has it.
    pub(crate) fn parameters_of(&self, name: &str) -> Option<usize> {
        let header = self.headers.iter().find(|header| header.name == name)?;
        Some(header.parameters.len())
    }

    /// Calls a function of the program, which is imported at its first call; the name is that of its result.
    pub(crate) fn call_function(
        &mut self,
        name: &'a str,
        args: Vec<Name>,
    ) -> Result<Name, ToyError<'a>> {
        let known = self.imported.iter().find(|known| known.name == name);
        let function = match known {
            Some(known) => known.function,
            None => self.import(name, args.len())?,
        };
        let outside = StraightInstruction::Outside(OutsideCall::Call { function, args });
        let call = Call::Straight(Lender::Ins, outside);
        let place = self.call(call).place;
        Ok(Name { place, answer: 1 })
    }

    // Imports a function with so many parameters, with its signature.
    fn import(&mut self, name: &'a str, parameters: usize) -> Result<Name, ToyError<'a>> {
        let shape = signature_of(self.alloc, parameters)?;
        let signature = self.call(Call::Entry(EntryCall::ImportSignature(shape)));
        let mut text = String::new(self.alloc);
        text.push_str(name)?;
        let function = ImportedFunction {
            name: ExternalName::testcase(text),
            signature,
            colocated: false,
            patchable: false,
        };
        let function = self.call(Call::Entry(EntryCall::ImportFunction(function)));
        self.imported.push(Imported { name, function })?;
        Ok(function)
    }

    /// How many variables are in scope.
    pub(crate) fn scope(&self) -> usize {
        self.locals.len()
    }

    /// Leaves a scope: so many variables stay.
    pub(crate) fn leave_scope(&mut self, outer: usize) {
        self.locals.truncate(outer);
    }
}
