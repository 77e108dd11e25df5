//! The columns of functions and gains.

use crate::draft::Draft;
use crate::error::{SearchError, as_number, negation, product};
use crate::implication::Implication;
use crate::monomials::monomials;
use crate::polynomials::combined;
use crate::question::{GainOffer, PlaceOffer};
use crate::sparse::SparseForm;
use crate::start_costs::add_start_costs;
use crate::system::{System, is_marked};
use poly_terms::{Monomial, Poly};
use std::alloc::Global;

/// A coefficient of a monomial: a column, or 0, less another where there is one.
#[derive(Debug, Drop)]
pub(crate) struct Coefficient {
    pub(crate) vars: Vec<u32>,
    pub(crate) plus: Option<u32>,
    pub(crate) minus: Option<u32>,
}

/// A polynomial whose coefficients are columns.
#[derive(Debug, Drop)]
pub(crate) struct Template {
    pub(crate) coefficients: Vec<Coefficient>,
}

/// The function of a symbol.
#[derive(Debug, Drop)]
pub(crate) struct SymbolTemplate {
    pub(crate) symbol: u32,
    pub(crate) template: Template,
}

/// The functions of the marked symbols, of a degree; that of the start symbol costs what it comes to at lists of start
/// values.
pub(crate) fn templates_of(
    alloc: Global,
    system: &System,
    listed: (&[bool], u32),
    lists: &[Vec<i128>],
    draft: &mut Draft,
) -> Result<Vec<SymbolTemplate>, SearchError> {
    let (marks, degree) = listed;
    let mut functions = Vec::new(alloc);
    for (index, places) in system.places.iter().enumerate() {
        let symbol = as_number(index)?;
        if is_marked(marks, symbol) {
            let template = if symbol == system.start {
                let template = start_template(alloc, draft, *places, degree)?;
                add_start_costs(alloc, draft, &template, degree, lists)?;
                template
            } else {
                free_template(alloc, draft, *places, degree)?
            };
            functions.push(SymbolTemplate { symbol, template })?;
        }
    }
    Ok(functions)
}

/// The function of a symbol among some by ascending symbols.
pub(crate) fn function_of(functions: &[SymbolTemplate], symbol: u32) -> Option<&Template> {
    let index = functions
        .binary_search_by_key(&symbol, |function| function.symbol)
        .ok()?;
    functions.get(index).map(|function| &function.template)
}

/// The function of a symbol with so many places, its coefficients as free columns.
pub(crate) fn free_template(
    alloc: Global,
    draft: &mut Draft,
    places: u32,
    degree: u32,
) -> Result<Template, SearchError> {
    let mut coefficients = Vec::new(alloc);
    for vars in monomials(alloc, places, degree)? {
        coefficients.push(Coefficient {
            vars,
            plus: Some(draft.column(0, true)?),
            minus: None,
        })?;
    }
    Ok(Template { coefficients })
}

/// The function of the start symbol, the size of each coefficient having a cost: 1 for the constant, and 1,000 for each
/// factor of its monomial.
pub(crate) fn start_template(
    alloc: Global,
    draft: &mut Draft,
    places: u32,
    degree: u32,
) -> Result<Template, SearchError> {
    let mut coefficients = Vec::new(alloc);
    for vars in monomials(alloc, places, degree)? {
        let cost = weight(vars.len());
        coefficients.push(Coefficient {
            vars,
            plus: Some(draft.column(cost, false)?),
            minus: Some(draft.column(cost, false)?),
        })?;
    }
    Ok(Template { coefficients })
}

/// The weight of a monomial of a degree: bounds are judged at values of about 1,000.
pub(crate) fn weight(degree: usize) -> i128 {
    match degree {
        0 => 1,
        1 => 1_000,
        _ => 1_000_000,
    }
}

/// A gain as it is offered. Beside multiples of places its constant may be negative.
pub(crate) fn gain_template(
    alloc: Global,
    draft: &mut Draft,
    offer: &GainOffer,
) -> Result<Template, SearchError> {
    let mut coefficients = Vec::new(alloc);
    if let Some(cost) = offer.constant {
        let plus = draft.column(cost, false)?;
        let minus = if offer.places.is_empty() {
            None
        } else {
            Some(draft.column(0, false)?)
        };
        coefficients.push(Coefficient {
            vars: Vec::new(alloc),
            plus: Some(plus),
            minus,
        })?;
    }
    for place in &offer.places {
        coefficients.push(place_coefficient(alloc, draft, *place)?)?;
    }
    Ok(Template { coefficients })
}

// The coefficient of a place that is offered with one sign.
fn place_coefficient(
    alloc: Global,
    draft: &mut Draft,
    place: PlaceOffer,
) -> Result<Coefficient, SearchError> {
    let column = draft.column(place.cost, false)?;
    let vars = vec![in alloc; place.place]?;
    Ok(if place.sign > 0 {
        Coefficient {
            vars,
            plus: Some(column),
            minus: None,
        }
    } else {
        Coefficient {
            vars,
            plus: None,
            minus: Some(column),
        }
    })
}

impl Template {
    /// Adds a multiple of the polynomial to the goal of an implication.
    pub(crate) fn add_to(
        &self,
        implication: &mut Implication,
        number: i128,
    ) -> Result<(), SearchError> {
        for coefficient in &self.coefficients {
            if let Some(plus) = coefficient.plus {
                implication.add(plus, number, &coefficient.vars)?;
            }
            if let Some(minus) = coefficient.minus {
                implication.add(minus, negation(number)?, &coefficient.vars)?;
            }
        }
        Ok(())
    }

    /// Subtracts the polynomial at new values from the goal of an implication.
    pub(crate) fn take_after(
        &self,
        implication: &mut Implication,
        new_values: &[SparseForm],
    ) -> Result<(), SearchError> {
        for coefficient in &self.coefficients {
            if let Some(plus) = coefficient.plus {
                add_after(implication, plus, -1, &coefficient.vars, new_values)?;
            }
            if let Some(minus) = coefficient.minus {
                add_after(implication, minus, 1, &coefficient.vars, new_values)?;
            }
        }
        Ok(())
    }

    /// The polynomial with the values of a solution as coefficients.
    pub(crate) fn poly(&self, alloc: Global, numerators: &[i128]) -> Result<Poly, SearchError> {
        let mut terms = Vec::new(alloc);
        for coefficient in &self.coefficients {
            let plus = value_of(numerators, coefficient.plus);
            let minus = value_of(numerators, coefficient.minus);
            let coef = plus.checked_sub(minus).ok_or(SearchError::Range)?;
            if coef != 0 {
                terms.push(Monomial {
                    coef,
                    vars: coefficient.vars.as_slice().to_vec(alloc)?,
                })?;
            }
        }
        combined(alloc, terms)
    }
}

// The value of a column, 0 where there is none.
fn value_of(numerators: &[i128], column: Option<u32>) -> i128 {
    match column {
        Some(column) => numerators.get(column as usize).copied().unwrap_or(0),
        None => 0,
    }
}

// Adds a column times a number and a monomial at new values.
fn add_after(
    implication: &mut Implication,
    column: u32,
    number: i128,
    vars: &[u32],
    new_values: &[SparseForm],
) -> Result<(), SearchError> {
    match vars {
        [] => implication.add(column, number, &[]),
        [place] => match new_values.get(*place as usize) {
            Some(form) => implication.add_form(column, number, form),
            None => Err(SearchError::Range),
        },
        [place, other] => {
            let forms = (
                new_values.get(*place as usize),
                new_values.get(*other as usize),
            );
            match forms {
                (Some(form), Some(by)) => implication.add_product(column, number, form, by),
                _ => Err(SearchError::Range),
            }
        }
        _ => Err(SearchError::Range),
    }
}

/// Adds a multiple of a polynomial to the goal of an implication.
pub(crate) fn add_poly(
    implication: &mut Implication,
    number: i128,
    poly: &Poly,
) -> Result<(), SearchError> {
    for term in &poly.terms {
        implication.add_number(product(number, term.coef)?, &term.vars)?;
    }
    Ok(())
}
