//! What a lemma or a claim consists of, as far as it was read.

ghost use Rattle.std.specs.Prelude.{◌≡◌, [], Some, OnOk};
ghost use Rattle.poly_terms.specs.Views.{poly_of};
ghost use Rattle.signed_bounds.specs.Views.{signed_of};
ghost use Rattle.potential_types.specs.Views.{node_of, summands_of};
ghost use Rattle.claim_types.specs.Views.{claim_of, support_of};
ghost use Rattle.potential_text.specs.Items as line_items;
ghost use Rattle.potential_text.specs.Views.{items_of};

use crate::action::{ClaimKind, LemmaKind};
use crate::numbers::Numbers;
use claim_types::{Claim, Support};
use model::Memory;
use poly_terms::Poly;
use potential_types::{
    Charge, Combination, CountedRule, FallNode, Move, Payment, PeakNode, PhaseMove, PhasesNode,
    PotentialTable, RowNode, SignedNode, SizedNode, Summand, SymbolFunction,
};
use signed_bounds::Signed;
use std::alloc::Global;
use std::mem::replace;

/// The parts of a line.
#[derive(Drop)]
pub struct Items {
    /// The functions that were read last, and those before them.
    pub functions: Vec<SymbolFunction>,
    pub firsts: Vec<SymbolFunction>,
    /// Of the move or the payment that is being read whether it keeps the function, its gain or its amount, and the fact
    /// that it cites.
    pub keeps: bool,
    pub gain: Poly,
    pub cited: Option<u32>,
    pub moves: Vec<Move>,
    pub payments: Vec<Payment>,
    pub charges: Vec<Charge>,
    pub phase_moves: Vec<PhaseMove>,
    pub counted: Vec<CountedRule>,
    /// The polynomial and the certificate of the lemma.
    pub form: Poly,
    pub floor: Vec<Summand>,
    /// A list of facts, and whether a claim cites one for each charge.
    pub facts: Vec<u32>,
    pub by_each: bool,
}

// The polynomial 0.
fn no_form(alloc: Global) -> Poly
    ensures { poly_of result ≡ [] }
{
    Poly {
        terms: Vec::new(alloc),
    }
}

impl Items {
    /// Nothing was read.
    pub fn new(alloc: Global) -> Items
        ensures { items_of result ≡ line_items.no_items }
    {
        Items {
            functions: Vec::new(alloc),
            firsts: Vec::new(alloc),
            keeps: false,
            gain: no_form(alloc),
            cited: None,
            moves: Vec::new(alloc),
            payments: Vec::new(alloc),
            charges: Vec::new(alloc),
            phase_moves: Vec::new(alloc),
            counted: Vec::new(alloc),
            form: no_form(alloc),
            floor: Vec::new(alloc),
            facts: Vec::new(alloc),
            by_each: false,
        }
    }

    /// A fact of a list was read.
    ///
    /// # Errors
    ///
    /// `Memory` where an allocation fails.
    pub fn push_fact(&mut self, number: u32) -> Result<(), Memory>
        ensures { OnOk result (items_of self.new ≡ line_items.with_fact number (items_of self.old)) }
    {
        self.facts.push(number)?;
        Ok(())
    }

    /// The function of a symbol was read.
    ///
    /// # Errors
    ///
    /// `Memory` where an allocation fails.
    pub fn push_function(&mut self, symbol: u32, form: Poly) -> Result<(), Memory>
        ensures { OnOk result (items_of self.new ≡ line_items.with_function symbol (poly_of form) (items_of self.old)) }
    {
        self.functions.push(SymbolFunction { symbol, form })?;
        Ok(())
    }

    /// The first functions of two phases were read.
    pub fn end_functions(&mut self, alloc: Global)
        ensures { items_of self.new ≡ line_items.functions_ended (items_of self.old) }
    {
        self.firsts = replace(&mut self.functions, Vec::new(alloc));
    }

    /// Whether a move keeps the function.
    pub fn set_keeps(&mut self, keeps: bool)
        ensures { items_of self.new ≡ line_items.with_keeps keeps (items_of self.old) }
    {
        self.keeps = keeps;
    }

    /// The gain of a move, or the amount of a payment.
    pub fn set_gain(&mut self, gain: Poly)
        ensures { items_of self.new ≡ line_items.with_gain (poly_of gain) (items_of self.old) }
    {
        self.gain = gain;
    }

    /// The fact that a move cites.
    pub fn set_cited(&mut self, fact: u32)
        ensures { items_of self.new ≡ line_items.with_cited (Some fact) (items_of self.old) }
    {
        self.cited = Some(fact);
    }

    /// The polynomial of the lemma.
    pub fn set_form(&mut self, form: Poly)
        ensures { items_of self.new ≡ line_items.with_form (poly_of form) (items_of self.old) }
    {
        self.form = form;
    }

    /// The certificate of the lemma.
    pub fn set_floor(&mut self, floor: Vec<Summand>)
        ensures { items_of self.new ≡ line_items.with_floor (summands_of floor.items) (items_of self.old) }
    {
        self.floor = floor;
    }

    /// Whether a claim cites one fact for each charge.
    pub fn set_by_each(&mut self, by_each: bool)
        ensures { items_of self.new ≡ line_items.with_by_each by_each (items_of self.old) }
    {
        self.by_each = by_each;
    }

    // The gain that was read.
    fn end_gain(&mut self, alloc: Global) -> Poly
        ensures gain { poly_of result ≡ (items_of self.old).gain }
        ensures left { items_of self.new ≡ line_items.with_gain [] (items_of self.old) }
    {
        replace(&mut self.gain, no_form(alloc))
    }

    /// A move of a rule ends, with its certificate.
    ///
    /// # Errors
    ///
    /// `Memory` where an allocation fails.
    pub fn push_move(
        &mut self,
        alloc: Global,
        rule: u32,
        certificate: Vec<Summand>,
    ) -> Result<(), Memory>
        ensures { OnOk result (items_of self.new
            ≡ line_items.with_move rule (summands_of certificate.items) (items_of self.old)) }
    {
        let gain = self.end_gain(alloc);
        let keeps = self.keeps;
        let cited = self.cited;
        self.cited = None;
        self.moves.push(Move {
            rule,
            keeps,
            gain,
            cited,
            certificate,
        })?;
        Ok(())
    }

    /// A payment of a rule ends, with the certificates that it is borne and that it isn't negative.
    ///
    /// # Errors
    ///
    /// `Memory` where an allocation fails.
    pub fn push_payment(
        &mut self,
        alloc: Global,
        rule: u32,
        floor: Vec<Summand>,
        positive: Vec<Summand>,
    ) -> Result<(), Memory>
        ensures { OnOk result (items_of self.new ≡ line_items.with_payment rule (summands_of floor.items)
            (summands_of positive.items) (items_of self.old)) }
    {
        let amount = self.end_gain(alloc);
        self.payments.push(Payment {
            rule,
            amount,
            floor,
            positive,
        })?;
        Ok(())
    }

    /// A charge was read.
    ///
    /// # Errors
    ///
    /// `Memory` where an allocation fails.
    pub fn push_charge(&mut self, rule: u32, form: Poly) -> Result<(), Memory>
        ensures { OnOk result (items_of self.new ≡ line_items.with_charge rule (poly_of form) (items_of self.old)) }
    {
        self.charges.push(Charge { rule, form })?;
        Ok(())
    }

    /// A move of two phases was read.
    ///
    /// # Errors
    ///
    /// `Memory` where an allocation fails.
    pub fn push_phase_move(
        &mut self,
        rule: u32,
        first: Vec<Summand>,
        second: Vec<Summand>,
    ) -> Result<(), Memory>
        ensures { OnOk result (items_of self.new ≡ line_items.with_phase_move rule (summands_of first.items)
            (summands_of second.items) (items_of self.old)) }
    {
        self.phase_moves.push(PhaseMove {
            rule,
            first,
            second,
        })?;
        Ok(())
    }

    /// A counted rule was read.
    ///
    /// # Errors
    ///
    /// `Memory` where an allocation fails.
    pub fn push_counted(&mut self, rule: u32, floor: Vec<Summand>) -> Result<(), Memory>
        ensures { OnOk result (items_of self.new
            ≡ line_items.with_counted rule (summands_of floor.items) (items_of self.old)) }
    {
        self.counted.push(CountedRule { rule, floor })?;
        Ok(())
    }
}

/// The node of a lemma of this kind, of what was read.
pub fn made_node(kind: LemmaKind, numbers: Numbers, items: Items) -> SignedNode
    ensures { node_of result ≡ line_items.made_node kind numbers (items_of items) }
{
    match kind {
        LemmaKind::Fall => SignedNode::Fall(FallNode {
            potential: PotentialTable {
                functions: items.functions,
                den: numbers.den,
                moves: items.moves,
            },
            payments: items.payments,
        }),
        LemmaKind::Peak => SignedNode::Peak(PeakNode {
            potential: PotentialTable {
                functions: items.functions,
                den: numbers.den,
                moves: items.moves,
            },
            rule: numbers.rule,
            form: items.form,
            floor: items.floor,
        }),
        LemmaKind::Row => SignedNode::Row(RowNode {
            rule: numbers.rule,
            form: items.form,
            number: numbers.amount,
            certificate: items.floor,
        }),
        LemmaKind::Times => SignedNode::Combined(Combination::Times {
            rule: numbers.rule,
            form: items.form,
            time: numbers.first,
            peak: numbers.second,
        }),
        LemmaKind::Least => SignedNode::Combined(Combination::Least(numbers.first, numbers.second)),
        LemmaKind::Add => SignedNode::Combined(Combination::Add(numbers.first, numbers.second)),
        LemmaKind::Among => SignedNode::Combined(Combination::Among(items.charges, numbers.first)),
        LemmaKind::Sized => SignedNode::Sized(SizedNode {
            rule: numbers.rule,
            form: items.form,
            cited: items.facts,
        }),
        LemmaKind::Phases => SignedNode::InPhases(PhasesNode {
            firsts: items.firsts,
            seconds: items.functions,
            den: numbers.den,
            moves: items.phase_moves,
            counted: items.counted,
        }),
    }
}

// What a claim on a sum cites.
fn made_support(by_each: bool, fact: u32, facts: Vec<u32>, bound: Signed) -> Support
    ensures { support_of result ≡ line_items.made_support by_each fact facts.items (signed_of bound) }
{
    if by_each {
        Support::ByEach(facts, bound)
    } else {
        Support::ByOne(fact)
    }
}

/// The claim of this kind, of what was read.
pub fn made_claim(kind: ClaimKind, numbers: Numbers, items: Items, bound: Signed) -> Claim
    ensures { claim_of result ≡ line_items.made_claim kind numbers (items_of items) (signed_of bound) }
{
    match kind {
        ClaimKind::Time => Claim::OnTime(
            numbers.rule,
            made_support(items.by_each, numbers.first, items.facts, bound),
        ),
        ClaimKind::Cost => Claim::OnCost(
            numbers.rule,
            made_support(items.by_each, numbers.first, items.facts, bound),
        ),
        ClaimKind::Total => Claim::OnTotal(made_support(
            items.by_each,
            numbers.first,
            items.facts,
            bound,
        )),
        ClaimKind::Above => Claim::OnAbove(numbers.rule, numbers.place, items.facts, bound),
        ClaimKind::Below => Claim::OnBelow(numbers.rule, numbers.place, items.facts, bound),
    }
}
