//! The state of reading a proof file, and the effects of actions on it.

ghost use Rattle.std.specs.Prelude.{◌≡◌, OnOk};
ghost use Rattle.cert_types.specs.AnswerViews.{gap_of};
ghost use Rattle.cert_text.specs.ParsedSoFar.{draft_of, own_of};
ghost use Rattle.cert_text.specs.Remembered.{acted, announced, begun, done as done_at, ends_node as ends_node_at};
ghost use Rattle.cert_text.specs.Remembered.{gap_read, node_ended, arranged};
ghost use Rattle.cert_text.specs.declared.action.Action.TheVariants as action;

use crate::action::{ACTIONS, Action};
use crate::draft::Draft;
use crate::node_reading::node_from;
use crate::phase::Next;
use bound_expr::Bound;
use cert_lexer::Packed;
use cert_types::{Gap, Proof};
use std::alloc::{AllocError, Global};
use std::mem::replace;

/// A node whose premises are being read, with those of its premises that were read before the current one.
#[derive(Drop)]
pub struct OpenNode {
    pub draft: Draft,
    pub used: Vec<Proof>,
}

/// A proof file as far as it was read.
#[derive(Drop)]
pub struct ParsedSoFar {
    pub alloc: Global,
    /// The meaning of the next piece.
    pub coming: Next,
    /// Whether the version in the first line is 2, whether a node on costs was read, and whether a gap is open.
    pub priced: bool,
    pub paid: bool,
    pub in_gap: bool,
    /// The lemmas and the gaps read so far, in order.
    pub lemmas: Vec<Proof>,
    pub gaps: Vec<Gap>,
    /// The number of open nodes, the node that was read last, the premises read so far of the innermost open node, and
    /// the nodes around it, the innermost last.
    pub levels: u64,
    pub node: Proof,
    pub used: Vec<Proof>,
    pub outer: Vec<OpenNode>,
    /// The parts of the last node or gap.
    pub draft: Draft,
    /// The last number, its sign, and the last symbol.
    pub number: u128,
    pub negative: bool,
    pub symbol: u32,
    /// The pieces of an open bound, and the last bound.
    pub pieces: Packed,
    pub bound: Bound,
}

// Whether a node was read with this action.
fn ends_node(action: Action) -> bool
    ensures { result ≡ ends_node_at action }
{
    matches!(
        action,
        Action::CiteRead
            | Action::StartRead
            | Action::EmptyRead
            | Action::UnreachedRead
            | Action::NeverRead
            | Action::RankRead
            | Action::SpreadRead
            | Action::CycleRead
            | Action::WeakenRead
            | Action::CostRead
    )
}

// The meaning of the next piece after an action.
fn announce(action: Action, coming: Next) -> Next
    ensures { result ≡ announced action coming }
{
    match action {
        Action::NodeBegins => Next::Node,
        Action::LemmaComes => Next::Lemma,
        Action::RuleComes => Next::Rule,
        Action::PlaceComes => Next::Place,
        Action::NumberComes | Action::IntegerComes => Next::Number,
        Action::NameComes => Next::Symbol,
        _ => coming,
    }
}

// The gap that its parts make.
fn gap_from(draft: Draft) -> Gap
    ensures { gap_of result ≡ gap_read (draft_of draft) }
{
    Gap {
        rule: draft.rule,
        set: draft.set,
        shut: draft.shut,
        moves: draft.gap_moves,
        floor: draft.floor,
        kept: draft.points,
    }
}

impl ParsedSoFar {
    /// The state in which nothing was read.
    pub fn new(alloc: Global) -> ParsedSoFar
        ensures { own_of result ≡ begun }
    {
        ParsedSoFar {
            alloc,
            coming: Next::Nothing,
            priced: false,
            paid: false,
            in_gap: false,
            lemmas: Vec::new(alloc),
            gaps: Vec::new(alloc),
            levels: 0,
            node: Proof::Start,
            used: Vec::new(alloc),
            outer: Vec::new(alloc),
            draft: Draft::new(alloc),
            number: 0,
            negative: false,
            symbol: 0,
            pieces: Packed::new(alloc),
            bound: Bound::Const(0),
        }
    }

    /// Does the action of a mark.
    ///
    /// # Errors
    ///
    /// `AllocError` where an allocation fails.
    pub fn done(&mut self, mark: u32) -> Result<(), AllocError>
        ensures { OnOk result (own_of self.new ≡ done_at mark (own_of self.old)) }
    {
        let actions: &[Action] = &ACTIONS;
        match actions.get(mark as usize) {
            Some(action) => self.act(*action),
            None => Ok(()),
        }
    }

    // Does an action.
    fn act(&mut self, action: Action) -> Result<(), AllocError>
        ensures { OnOk result (own_of self.new ≡ acted action (own_of self.old)) }
    {
        let (number, negative, symbol) = (self.number, self.negative, self.symbol);
        let coming = announce(action, self.coming);
        self.end_node(action)?;
        self.arrange(action)?;
        self.draft
            .act(self.alloc, action, number, negative, symbol)?;
        self.coming = coming;
        Ok(())
    }

    // Takes the parts of the node, if the action ends one.
    fn end_node(&mut self, action: Action) -> Result<(), AllocError>
        ensures { OnOk result (own_of self.new ≡ node_ended action (own_of self.old)) }
    {
        if !ends_node(action) {
            return Ok(());
        }
        let draft = replace(&mut self.draft, Draft::new(self.alloc));
        let child = replace(&mut self.node, Proof::Start);
        let bound = replace(&mut self.bound, Bound::Const(0));
        self.node = node_from(self.alloc, action, self.number, draft, child, bound)?;
        self.levels = self.levels.saturating_sub(1);
        Ok(())
    }

    // Changes lines, levels and premises by an action.
    fn arrange(&mut self, action: Action) -> Result<(), AllocError>
        ensures { OnOk result (own_of self.new ≡ arranged action (own_of self.old)) }
    {
        match action {
            Action::SecondVersion => self.priced = true,
            Action::LemmaRead => {
                let lemma = replace(&mut self.node, Proof::Start);
                self.lemmas.push(lemma)?;
            }
            Action::GapRead => self.read_gap()?,
            Action::NodeBegins => {
                self.levels = self.levels.saturating_add(1);
                self.draft = Draft::new(self.alloc);
            }
            Action::CostRead => self.paid = true,
            Action::UsesBegin => self.open_uses()?,
            Action::UsedRead => {
                let node = replace(&mut self.node, Proof::Start);
                self.used.push(node)?;
            }
            Action::UsesRead => self.close_uses(),
            Action::IntegerComes => self.negative = false,
            Action::GapBegins => {
                self.in_gap = true;
                self.draft = Draft::new(self.alloc);
            }
            _ => {}
        }
        Ok(())
    }

    // Adds the gap that was read.
    fn read_gap(&mut self) -> Result<(), AllocError>
        ensures { OnOk result (own_of self.new ≡ arranged action.GapRead (own_of self.old)) }
    {
        let draft = replace(&mut self.draft, Draft::new(self.alloc));
        self.gaps.push(gap_from(draft))?;
        self.in_gap = false;
        Ok(())
    }

    // Begins the premises of a node.
    fn open_uses(&mut self) -> Result<(), AllocError>
        ensures { OnOk result (own_of self.new ≡ arranged action.UsesBegin (own_of self.old)) }
    {
        let draft = replace(&mut self.draft, Draft::new(self.alloc));
        let used = replace(&mut self.used, Vec::new(self.alloc));
        self.outer.push(OpenNode { draft, used })?;
        Ok(())
    }

    // Ends the premises of a node.
    fn close_uses(&mut self)
        ensures { own_of self.new ≡ arranged action.UsesRead (own_of self.old) }
    {
        if let Some(OpenNode { draft, used }) = self.outer.pop() {
            let uses = replace(&mut self.used, used);
            self.draft = draft.resting_on(uses);
        }
    }
}
