//! A graph whose nodes are known by their terms.

ghost use Rattle.std.specs.Prelude.{◌≡◌, ◌≤◌, [], ◌∷◌, map, string_bytes, IfOk, IsSome, MatchResult};
ghost use Rattle.axe_io.specs.Shapes.{leaf_widths};
ghost use Rattle.bv_rules_rows.specs.Terms.{IsNamed, IsPicked, term, plan_text as plan_text_of, text_at as text_at_of, id_text as id_text_of, step_texts, child_texts, terms_from};
ghost use Rattle.dag.specs.Graph.{Adds, fits_width, leaves_of};
ghost use Rattle.dag.specs.declared.node.Node.{Node};
ghost use Rattle.dag.specs.declared.node.Node.TheVariants.{Const};

use crate::fault::Fault;
use crate::words::{constant, leaf, term_of};
use axe_io::{Kind, OutPlace, Param, Shape};
use bv_rules::{Plan, PlanId, PlanNode, pick, view_of};
use dag::{Dag, Node, NodeId};
use std::alloc::{AllocError, Global};

/// How many nodes a graph may hold.
const LIMIT: u32 = 1000;

/// A graph, and the term of each of its nodes.
#[derive(Drop)]
pub(crate) struct Terms {
    alloc: Global,
    dag: Dag,
    texts: Vec<String>,
    ghost each: { map string_bytes texts.items ≡ terms_from [] dag.nodes },
}

impl Terms {
    /// The graph of the constants 0 and 1 of width 1.
    pub(crate) fn begin(alloc: Global) -> Result<Terms, Fault> {
        let shape = shape(alloc)?;
        let dag = Dag::begin(alloc, LIMIT, &shape)?;
        let texts = first_texts(alloc)?;
        Ok(Terms { alloc, dag, texts })
    }

    /// The leaf or the constant that a word names.
    pub(crate) fn word(&self, word: &str) -> Result<Node, Fault>
        ensures { MatchResult result (IsNamed (leaves_of self.now.dag) word.now) (λ _. (n : Node) → IsNamed (leaves_of self.now.dag) word.now n → ⊥) }
    {
        match leaf(self.dag.shape(), word) {
            Some(node) => Ok(node),
            None => constant(word).ok_or(Fault::Word),
        }
    }

    /// Adds a node as it is, unless it is there.
    pub(crate) fn put(&mut self, node: Node) -> Result<NodeId, Fault>
        ensures { IfOk result (λ id. Adds self.old.dag self.new.dag node id.0) }
    {
        if !self.dag.fits(node) {
            return Err(Fault::Width);
        }
        let text = self.node_text(node)?;
        self.texts.reserve(1)?;
        let before = self.dag.len();
        let id = self.dag.add(node)?;
        if self.dag.len() > before {
            self.texts.push_reserved(text);
        }
        Ok(id)
    }

    /// The term that the rules make of a node in one step, or `none`.
    pub(crate) fn picked(&self, node: Node) -> Result<String, Fault>
        ensures fits { IfOk result (λ _. IsSome (fits_width self.now.dag node)) }
        ensures picked { IfOk result (λ text. IsPicked self.now.dag (map string_bytes self.now.texts.items) node (string_bytes text)) }
    {
        if !self.dag.fits(node) {
            return Err(Fault::Width);
        }
        match pick(&self.dag, view_of(&self.dag, node)) {
            Some(plan) => Ok(self.plan_text(&plan)?),
            None => Ok(String::from_str(self.alloc, "none")?),
        }
    }

    /// The term of a node over the graph.
    fn node_text(&self, node: Node) -> Result<String, AllocError>
        ensures { IfOk result (λ text. string_bytes text ≡ term node (child_texts (map string_bytes self.now.texts.items) node)) }
    {
        let children = node.children();
        let [a, b, c] = children.ids;
        let texts = [self.text_at(a), self.text_at(b), self.text_at(c)];
        term_of(self.alloc, node, &texts[..(children.count as usize).min(3)])
    }

    /// The term of a plan.
    fn plan_text(&self, plan: &Plan) -> Result<String, AllocError>
        requires { plan.now.count ≤ 16 }
        ensures { IfOk result (λ text. string_bytes text ≡ plan_text_of (map string_bytes self.now.texts.items) plan.now) }
    {
        let mut made = Vec::new(self.alloc);
        for step in &plan.nodes[..plan.count as usize] {
            let text = self.step_text(&made, *step)?;
            made.push(text)?;
        }
        String::from_str(self.alloc, self.id_text(&made, plan.result))
    }

    /// The term of a plan's node after nodes that have these terms.
    fn step_text(&self, made: &[String], step: PlanNode) -> Result<String, AllocError>
        ensures { IfOk result (λ text. string_bytes text ≡ term step.node (step_texts (map string_bytes self.now.texts.items) (map string_bytes made.now) step)) }
    {
        let [a, b, c] = step.children;
        let texts = [
            self.id_text(made, a),
            self.id_text(made, b),
            self.id_text(made, c),
        ];
        let count = step.node.children().count;
        term_of(self.alloc, step.node, &texts[..(count as usize).min(3)])
    }

    /// The term that an id of a plan stands for.
    fn id_text<'a>(&'a self, made: &'a [String], id: PlanId) -> &'a str
        ensures { result.now ≡ id_text_of (map string_bytes self.now.texts.items) (map string_bytes made.now) id }
    {
        match id {
            PlanId::Old(id) => self.text_at(id),
            PlanId::New(place) => text_in(made, place),
        }
    }

    fn text_at(&self, id: NodeId) -> &str
        ensures { result.now ≡ text_at_of (map string_bytes self.now.texts.items) id.0 }
    {
        text_in(&self.texts, id.0)
    }
}

/// The terms of the nodes that each graph begins with.
fn first_texts(alloc: Global) -> Result<Vec<String>, AllocError>
    ensures { IfOk result (λ texts. map string_bytes texts.items ≡ term (Const 1 0) [] ∷ term (Const 1 1) [] ∷ []) }
{
    let zero = term_of(alloc, Node::Const { width: 1, value: 0 }, &[])?;
    let one = term_of(alloc, Node::Const { width: 1, value: 1 }, &[])?;
    let mut texts = Vec::new(alloc);
    texts.push(zero)?;
    texts.push(one)?;
    Ok(texts)
}

/// The text at a place, or `?` from the last on.
fn text_in(texts: &[String], place: u32) -> &str
    ensures { result.now ≡ text_at_of (map string_bytes texts.now) place }
{
    match texts.get(place as usize) {
        Some(text) => text.as_str(),
        None => "?",
    }
}

/// The shape whose leaves the words name.
fn shape(alloc: Global) -> Result<Shape, AllocError>
    ensures { IfOk result (λ s. leaf_widths s.params ≡ 8 ∷ 8 ∷ 8 ∷ 16 ∷ 16 ∷ 16 ∷ 32 ∷ 32 ∷ 32 ∷ 64 ∷ 64 ∷ 64 ∷ []) }
{
    let scalar = |kind: Kind| Param { kind, len: None };
    let params = [
        scalar(Kind::Byte),
        scalar(Kind::Byte),
        scalar(Kind::Byte),
        scalar(Kind::Short),
        scalar(Kind::Short),
        scalar(Kind::Short),
        scalar(Kind::Int),
        scalar(Kind::Int),
        scalar(Kind::Int),
        scalar(Kind::Long),
        scalar(Kind::Long),
        scalar(Kind::Long),
    ];
    let params = Vec::from_slice(alloc, &params)?;
    Ok(Shape::of(params, OutPlace::Returned, Kind::Int, false))
}
