//! The builder's calls on labels of values, by which a debugger finds the variables of the source.
ghost use Rattle.std.specs.Prelude.{◌<◌, length};
ghost use Rattle.clif_builder.specs.Labels.{CollectsLabels, SetsLabel};

use crate::builder::FunctionBuilder;
use clif_ir::ValueLabelStart;
use clif_types::{BuildError, Value, ValueLabel};

impl<'a, R> FunctionBuilder<'a, R> {
    /// Has the function keep the labels that values are given from now on ([`FunctionBuilder::set_val_label`]). Without
    /// this call none is kept. It takes no memory and can't fail.
    pub fn collect_debug_info(&mut self)
        ensures { CollectsLabels self.old self.new }
    {
        self.func.law_consistent();
        self.func.collect_debug_info();
    }

    /// Gives a value one more label: the number by which a debugger knows the source's variable that has this value.
    /// The label begins at the source place that instructions get now ([`FunctionBuilder::set_srcloc`]), and
    /// [`Function::value_labels`] reads the labels of a value in the order in which they were given.
    ///
    /// Nothing is kept unless [`FunctionBuilder::collect_debug_info`] was called before. What the function means
    /// doesn't change.
    ///
    /// # Errors
    ///
    /// `Memory`, where memory is refused, and `Failed` after an error of an earlier call. The function is as it was
    /// then, and the builder has failed.
    ///
    /// [`Function::value_labels`]: clif_ir::Function::value_labels
    pub fn set_val_label(&mut self, value: Value, label: ValueLabel) -> Result<(), BuildError>
        requires exists { value < length self.old.func.now.values }
        ensures { SetsLabel value label self.old self.new result }
    {
        if self.failed {
            return Err(BuildError::Failed);
        }
        self.func.law_consistent();
        let start = ValueLabelStart {
            from: self.srcloc,
            label,
        };
        let set = self.func.set_val_label(value, start);
        self.failed = set.is_err();
        set
    }
}
