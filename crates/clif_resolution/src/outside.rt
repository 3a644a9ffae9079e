//! The instructions of outside calls, found with what their names lead to.
ghost use Rattle.std.specs.Prelude.{◌&&◌};
ghost use Rattle.clif_calls.specs.Outside.{operands_of};
ghost use Rattle.clif_resolution.specs.Answers.{Finds, AnswersExist, all_values};
ghost use Rattle.clif_resolution.specs.Callings.{IsOutsideShape, can_call, has_called};

use crate::answers::{Answer, CallError};
use crate::condition::Condition;
use crate::conditions::{current_fault, has_current};
use crate::entries::{function_named, signature_named};
use crate::names::values_named;
use clif_builder::FunctionBuilder;
use clif_calls::OutsideCall;
use clif_ir::{Function, InstructionData};

/// The instruction of an outside call, where it may be made.
///
/// # Errors
///
/// `Misuse`, where a name leads to no such answer or a condition doesn't hold; or memory is refused.
pub fn outside_call_found(
    builder: &FunctionBuilder<'_>,
    answers: &[Answer],
    called: &OutsideCall,
) -> Result<InstructionData, CallError>
    requires { AnswersExist builder.now.func.now answers.now }
    ensures { Finds (IsOutsideShape builder.now.func.now answers.now called.now)
        (can_call builder.now answers.now called.now) result }
{
    if !has_current(builder) {
        return Err(CallError::Misuse(current_fault(builder)));
    }
    let shape = shaped(builder.func(), answers, called)?;
    if !builder.func().has_entries(&shape) {
        return Err(CallError::Misuse(Condition::NoEntry));
    }
    Ok(shape)
}

// The same, with what its names lead to.
fn shaped(
    func: &Function,
    answers: &[Answer],
    called: &OutsideCall,
) -> Result<InstructionData, CallError>
    requires { AnswersExist func.now answers.now }
    ensures { Finds (IsOutsideShape func.now answers.now called.now)
        (has_called answers.now called.now
        && all_values func.now answers.now (operands_of called.now)) result }
{
    let names = called.operands(func.allocator())?;
    let args = values_named(func, answers, names.as_slice())?;
    match called {
        OutsideCall::Call { function, .. } => {
            let Some(func_ref) = function_named(answers, *function) else {
                return Err(CallError::Misuse(Condition::NoFunction(*function)));
            };
            Ok(InstructionData::Call { func_ref, args })
        }
        OutsideCall::CallIndirect { signature, .. } => {
            let Some(sig_ref) = signature_named(answers, *signature) else {
                return Err(CallError::Misuse(Condition::NoSignature(*signature)));
            };
            Ok(InstructionData::CallIndirect { sig_ref, args })
        }
    }
}
