//! The effects of single signs on an expression that is being read. Each of these functions can be called in any state,
//! also where the sign can't follow. None of them counts a token.

ghost use Rattle.std.specs.Prelude.{◌≡◌, ◌-◌, ◌^◌, ◌<◌, ◌∷◌, ◌++◌, [], map, IfOk, OnOk, IsTrue, IsFalse, length};
ghost use Rattle.model.specs.Terms.{Variable};
ghost use Rattle.poly_terms.specs.Views.{term_of};
ghost use Rattle.expr_text.specs.TermGrammarStates as terms;
ghost use Rattle.expr_reader.specs.StateSteps.{Closes, behind_plus, behind_minus, behind_times};
ghost use Rattle.expr_reader.specs.Views.{summed_of, level_of, operand_of, grammar_state_of, term_in};

use crate::Memory;
use crate::expression::{Expression, Factored, Operand, Summed};
use crate::making::{empty_level, factor_of, negated, product_with, sum_with};
use model::{COEFFICIENT_LIMIT, DEGREE_LIMIT};
use poly_terms::Expr;
use std::alloc::Global;
use std::mem;

impl Expression {
    /// Takes a variable by its number, as an operand.
    pub fn take_variable(&mut self, number: u32)
        ensures operand { operand_of self.new.operand ≡ terms.BaseRead (Variable number) }
        ensures level { self.new.level ≡ self.old.level }
        ensures outer { self.new.outer ≡ self.old.outer }
        ensures tokens { self.new.tokens ≡ self.old.tokens }
    {
        self.operand = Operand::BaseRead(Expr::Var(number));
    }

    /// Takes a `-`: if an operand must follow, it negates the operand; else it follows the sum that ends here.
    ///
    /// # Errors
    ///
    /// `Memory` if an allocation fails.
    pub fn take_minus(&mut self, alloc: Global) -> Result<(), Memory>
        requires { self.old.level.minuses < 2 ^ 32 - 1 }
        ensures tokens { OnOk result (self.new.tokens ≡ self.old.tokens) }
        ensures level { OnOk result (level_of self.new.level
            ≡ behind_minus (level_of self.old.level) (operand_of self.old.operand)) }
        ensures operand { OnOk result (operand_of self.new.operand ≡ terms.Wanted) }
        ensures outer { self.new.outer ≡ self.old.outer }
    {
        match &self.operand {
            Operand::Wanted => {
                self.negate();
                Ok(())
            }
            Operand::BaseRead(_) => self.subtract(alloc),
            Operand::CaretRead(_) => self.subtract(alloc),
            Operand::ExponentRead(_, _) => self.subtract(alloc),
        }
    }

    // Adds a `-` before the operand.
    fn negate(&mut self)
        requires { self.old.level.minuses < 2 ^ 32 - 1 }
        ensures tokens { self.new.tokens ≡ self.old.tokens }
        ensures level { level_of self.new.level ≡ behind_minus (level_of self.old.level) terms.Wanted }
        ensures outer { self.new.outer ≡ self.old.outer }
        ensures operand { self.new.operand ≡ self.old.operand }
    {
        self.level.minuses += 1;
    }

    // Takes a `-` after a sum.
    fn subtract(&mut self, alloc: Global) -> Result<(), Memory>
        ensures tokens { OnOk result (self.new.tokens ≡ self.old.tokens) }
        ensures level { OnOk result (level_of self.new.level
            ≡ record { sum = terms.MinusAfter (term_in self.old); product = terms.NoProduct; minuses = 0 }) }
        ensures operand { OnOk result (operand_of self.new.operand ≡ terms.Wanted) }
        ensures outer { self.new.outer ≡ self.old.outer }
    {
        let sum = self.sum_made(alloc)?;
        self.level.sum = Summed::MinusAfter(sum);
        Ok(())
    }

    /// Takes a `+` after the sum that ends here; an operand must follow.
    ///
    /// # Errors
    ///
    /// `Memory` if an allocation fails.
    pub fn take_plus(&mut self, alloc: Global) -> Result<(), Memory>
        ensures tokens { OnOk result (self.new.tokens ≡ self.old.tokens) }
        ensures level { OnOk result (level_of self.new.level
            ≡ behind_plus (level_of self.old.level) (operand_of self.old.operand)) }
        ensures operand { OnOk result (operand_of self.new.operand ≡ terms.Wanted) }
        ensures outer { self.new.outer ≡ self.old.outer }
    {
        let sum = self.sum_made(alloc)?;
        self.level.sum = Summed::PlusAfter(sum);
        Ok(())
    }

    /// Takes a `*` after the product that ends here; an operand must follow.
    ///
    /// # Errors
    ///
    /// `Memory` if an allocation fails.
    pub fn take_times(&mut self, alloc: Global) -> Result<(), Memory>
        ensures tokens { OnOk result (self.new.tokens ≡ self.old.tokens) }
        ensures level { OnOk result (level_of self.new.level
            ≡ behind_times (level_of self.old.level) (operand_of self.old.operand)) }
        ensures operand { OnOk result (operand_of self.new.operand ≡ terms.Wanted) }
        ensures outer { self.new.outer ≡ self.old.outer }
    {
        let product = self.product_made(alloc)?;
        self.level.product = Factored::TimesAfter(product);
        Ok(())
    }

    /// Takes a number: an exponent if it follows `^`, else a literal. A number over the limit on degrees, or on
    /// coefficients, is replaced by the limit plus one.
    pub fn take_value(&mut self, value: u128)
        ensures operand { operand_of self.new.operand ≡ terms.with_number (operand_of self.old.operand) value }
        ensures level { self.new.level ≡ self.old.level }
        ensures outer { self.new.outer ≡ self.old.outer }
        ensures tokens { self.new.tokens ≡ self.old.tokens }
    {
        self.operand = match mem::replace(&mut self.operand, Operand::Wanted) {
            Operand::CaretRead(base) => {
                Operand::ExponentRead(base, value.min(u128::from(DEGREE_LIMIT) + 1) as u32)
            }
            _ => Operand::BaseRead(Expr::Num(value.min(u128::from(COEFFICIENT_LIMIT) + 1) as i128)),
        };
    }

    /// Takes a `^` after a base. Elsewhere nothing changes.
    pub fn take_caret(&mut self)
        ensures tokens { self.new.tokens ≡ self.old.tokens }
        ensures operand { operand_of self.new.operand ≡ terms.with_caret (operand_of self.old.operand) }
        ensures level { self.new.level ≡ self.old.level }
        ensures outer { self.new.outer ≡ self.old.outer }
    {
        self.operand = match mem::replace(&mut self.operand, Operand::Wanted) {
            Operand::BaseRead(base) => Operand::CaretRead(base),
            other => other,
        };
    }

    /// Takes an opening bracket before the operand.
    ///
    /// # Errors
    ///
    /// `Memory` if an allocation fails.
    pub fn open_bracket(&mut self) -> Result<(), Memory>
        ensures tokens { OnOk result (self.new.tokens ≡ self.old.tokens) }
        ensures outer { OnOk result (map level_of self.new.outer.items
            ≡ map level_of self.old.outer.items ++ level_of self.old.level ∷ []) }
        ensures level { OnOk result (level_of self.new.level ≡ terms.empty_level) }
        ensures operand { self.new.operand ≡ self.old.operand }
    {
        let level = mem::replace(&mut self.level, empty_level());
        self.outer.push(level)?;
        Ok(())
    }

    /// Takes a closing bracket if one is open. Elsewhere nothing changes.
    ///
    /// # Errors
    ///
    /// `Memory` if an allocation fails.
    pub fn close_bracket(&mut self, alloc: Global) -> Result<(), Memory>
        ensures closes { IsFalse (terms.is_empty (grammar_state_of self.old).outer)
            → OnOk result (Closes (grammar_state_of self.old) (grammar_state_of self.new)) }
        ensures stays { IsTrue (terms.is_empty (grammar_state_of self.old).outer) → grammar_state_of self.new ≡ grammar_state_of self.old }
        ensures tokens { OnOk result (self.new.tokens ≡ self.old.tokens) }
    {
        if self.outer.is_empty() {
            Ok(())
        } else {
            self.close(alloc)
        }
    }

    fn close(&mut self, alloc: Global) -> Result<(), Memory>
        requires { 0 < length self.old.outer.items }
        ensures tokens { OnOk result (self.new.tokens ≡ self.old.tokens) }
        ensures outer { OnOk result (map level_of self.old.outer.items
            ≡ map level_of self.new.outer.items ++ level_of self.new.level ∷ []) }
        ensures operand { OnOk result (operand_of self.new.operand ≡ terms.BaseRead (term_in self.old)) }
    {
        let sum = self.sum_made(alloc)?;
        self.leave();
        self.operand = Operand::BaseRead(sum);
        Ok(())
    }

    // Returns to the level around the innermost bracket.
    fn leave(&mut self)
        requires { 0 < length self.old.outer.items }
        ensures tokens { self.new.tokens ≡ self.old.tokens }
        ensures operand { self.new.operand ≡ self.old.operand }
        ensures outer { map level_of self.old.outer.items
            ≡ map level_of self.new.outer.items ++ level_of self.new.level ∷ [] }
    {
        if let Some(level) = self.outer.pop() {
            self.level = level;
        }
    }

    // Returns the product that is complete with its last factor; an operand must follow.
    fn product_made(&mut self, alloc: Global) -> Result<Expr, Memory>
        ensures tokens { OnOk result (self.new.tokens ≡ self.old.tokens) }
        ensures made { IfOk result (λ made.
            term_of made ≡ terms.product_made (level_of self.old.level) (operand_of self.old.operand)) }
        ensures level { OnOk result (level_of self.new.level
            ≡ record { sum = summed_of self.old.level.sum; product = terms.NoProduct; minuses = 0 }) }
        ensures sum { OnOk result (self.new.level.sum ≡ self.old.level.sum) }
        ensures operand { OnOk result (operand_of self.new.operand ≡ terms.Wanted) }
        ensures outer { self.new.outer ≡ self.old.outer }
    {
        let factor = factor_of(alloc, mem::replace(&mut self.operand, Operand::Wanted))?;
        let factor = negated(alloc, self.level.minuses, factor)?;
        self.level.minuses = 0;
        let product = mem::replace(&mut self.level.product, Factored::NoProduct);
        product_with(alloc, product, factor)
    }

    /// Returns the sum that is complete with its last factor; an operand must follow, with no part before it.
    ///
    /// # Errors
    ///
    /// `Memory` if an allocation fails.
    pub(crate) fn sum_made(&mut self, alloc: Global) -> Result<Expr, Memory>
        ensures tokens { OnOk result (self.new.tokens ≡ self.old.tokens) }
        ensures made { IfOk result (λ made. term_of made ≡ term_in self.old) }
        ensures level { OnOk result (level_of self.new.level ≡ terms.empty_level) }
        ensures operand { OnOk result (operand_of self.new.operand ≡ terms.Wanted) }
        ensures outer { self.new.outer ≡ self.old.outer }
    {
        let product = self.product_made(alloc)?;
        let sum = mem::replace(&mut self.level.sum, Summed::NoSum);
        sum_with(alloc, sum, product)
    }
}
