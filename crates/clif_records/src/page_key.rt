//! The key of a page of records.
ghost use Rattle.std.specs.Prelude.{nat_eq};
ghost use Rattle.std.specs.Cmp.{and_equiv, nat_eq_equiv, on_equiv, partial_equiv_from_equiv};
ghost use Rattle.std.specs.Ordering.{eq_of_both, on};
ghost use Rattle.clif_records.specs.Keys.{fed_alike, key_fed};

use crate::variable::Variable;
use std::hash::{Hash, Hasher};
use std::marker::Model;

/// The variable of a page and the number of its eight blocks. Both are hashed as one number.
#[derive(Clone, Copy, Debug)]
pub(crate) struct PageKey {
    pub(crate) variable: Variable,
    pub(crate) number: u32,
}

impl Model for PageKey {
    ghost use Rattle.std.specs.Prelude.{ℕ};

    ghost Value = { ℕ × ℕ };

    ghost view = { λ k. (k.variable, k.number) };

    ghost inverse = { λ p. record { variable = p.0; number = p.1 } };
}

impl PartialEq for PageKey {
    ghost eq = { eq_of_both (on (λ k. k.0) nat_eq) (on (λ k. k.1) nat_eq) };

    ghost laws = { partial_equiv_from_equiv
        (and_equiv (on_equiv (λ k. k.0) nat_eq_equiv) (on_equiv (λ k. k.1) nat_eq_equiv)) };

    fn eq(&self, other: &PageKey) -> bool {
        self.variable == other.variable && self.number == other.number
    }
}

impl Eq for PageKey {
    ghost laws = { and_equiv (on_equiv (λ k. k.0) nat_eq_equiv) (on_equiv (λ k. k.1) nat_eq_equiv) };
}

impl Hash for PageKey {
    ghost hash_input = { key_fed };

    ghost respects_eq = { fed_alike };

    #[inline(always)]
    fn hash<H: Hasher>(&self, state: &mut H) {
        let variable = self.variable.as_u32() as u64;
        state.write_u64(variable * 0x1_0000_0000 + self.number as u64);
    }
}
