//! The kinds of node.

ghost use Rattle.std.specs.Prelude.{◌≡◌, ◌↔◌, IsTrue};
ghost use Rattle.dag.specs.Node.{child_at, leaf, one, two, three, no_node};

/// The place of a node in its graph, counted from 0.
#[derive(Clone, Copy, Debug, PartialEq, Eq, Hash)]
pub struct NodeId(pub u32);

/// A node: what its value is, from an input or from the values of nodes before it.
///
/// A child's width is from 1 to 64, and where nothing else is said the node has the width of its children, which is
/// one. `specs/Node.antt` has each kind's width and value.
#[derive(Clone, Copy, Debug, PartialEq, Eq, Hash)]
pub enum Node {
    /// The number at `index` of an input, where the shape has a leaf of this width.
    Leaf { width: u32, index: u32 },
    /// A constant, below `2 ^ width`.
    Const { width: u32, value: u64 },
    /// Each bit turned.
    Not(NodeId),
    /// The bits that are 1 in both.
    And(NodeId, NodeId),
    /// The bits that are 1 in one or both.
    Or(NodeId, NodeId),
    /// The bits that are 1 in just one.
    Xor(NodeId, NodeId),
    /// Minus the child, modulo `2 ^ width`.
    Neg(NodeId),
    /// The sum modulo `2 ^ width`.
    Plus(NodeId, NodeId),
    /// The product modulo `2 ^ width`.
    Times(NodeId, NodeId),
    /// 1 where both are equal, and 0 elsewhere; its width is 1.
    Eq(NodeId, NodeId),
    /// 1 where the first is below the second, and 0 elsewhere; its width is 1.
    Ult(NodeId, NodeId),
    /// 1 where the first is below the second as signed numbers, and 0 elsewhere; its width is 1.
    Slt(NodeId, NodeId),
    /// The second child where the first, of width 1, is 1, and the third elsewhere.
    Ite(NodeId, NodeId, NodeId),
    /// Bits `low` to `high` of `a`, both included; its width is `high - low + 1`.
    Slice { high: u32, low: u32, a: NodeId },
    /// The first child above the second; its width is the sum of both, at most 64.
    Cat(NodeId, NodeId),
    /// The word of `width` bits with the signed value of `a`, which is no wider.
    Sext { width: u32, a: NodeId },
    /// The first child moved up by the second, an amount of any width; 0 from the first's width on.
    Shl(NodeId, NodeId),
    /// The first child moved down by the second, an amount of any width; 0 from the first's width on.
    Shr(NodeId, NodeId),
    /// The quotient of both as plain numbers, rounded down; 0 where the second is 0.
    Udiv(NodeId, NodeId),
    /// The remainder of the first by the second as plain numbers; the first where the second is 0.
    Urem(NodeId, NodeId),
}

/// The children of a node in their order.
#[derive(Clone, Copy, Debug)]
pub struct Children {
    /// How many there are, at most three.
    pub count: u32,
    /// Their places, and `NodeId(0)` past the count.
    pub ids: [NodeId; 3],
}

/// How the width of a node comes from the widths of its children.
#[derive(Clone, Copy, Debug)]
pub enum Form {
    /// A leaf of the shape.
    Input { width: u32, index: u32 },
    /// A constant.
    Constant { width: u32, value: u64 },
    /// The width of the one child.
    Unary,
    /// The width of both children.
    Binary,
    /// 1, over two children of one width.
    Test,
    /// The width of the second and third child; the first has width 1.
    Choice,
    /// The width of these bits of the one child.
    Cut { high: u32, low: u32 },
    /// The sum of the widths of both children.
    Joined,
    /// This width, where it is at least that of the one child.
    Widened { width: u32 },
    /// The width of the first child, whatever that of the second.
    Shifted,
}

/// What a node consists of beside its meaning.
#[derive(Clone, Copy, Debug)]
pub struct Outline {
    /// The number of its kind, counted from 0 in the order of `Node`.
    pub number: u32,
    /// How its width comes from those of its children.
    pub form: Form,
    /// Its children.
    pub children: Children,
}

const NONE: NodeId = NodeId(0);

impl Node {
    ghost use Rattle.std.specs.Prelude.{length, ◌≤◌};
    ghost use Rattle.dag.specs.Node.{outline as outline_of, children as children_of, kind_number as kind_number_of, with_children as with_children_of, bare as bare_of};

    /// The number of the kind, the form and the children.
    pub fn outline(self) -> Outline
        ensures { result ≡ outline_of self }
    {
        match self {
            Node::Leaf { width, index } => kind(0, Form::Input { width, index }, leaf()),
            Node::Const { width, value } => kind(1, Form::Constant { width, value }, leaf()),
            Node::Not(a) => kind(2, Form::Unary, one(a)),
            Node::And(a, b) => kind(3, Form::Binary, two(a, b)),
            Node::Or(a, b) => kind(4, Form::Binary, two(a, b)),
            Node::Xor(a, b) => kind(5, Form::Binary, two(a, b)),
            Node::Neg(a) => kind(6, Form::Unary, one(a)),
            Node::Plus(a, b) => kind(7, Form::Binary, two(a, b)),
            Node::Times(a, b) => kind(8, Form::Binary, two(a, b)),
            Node::Eq(a, b) => kind(9, Form::Test, two(a, b)),
            Node::Ult(a, b) => kind(10, Form::Test, two(a, b)),
            Node::Slt(a, b) => kind(11, Form::Test, two(a, b)),
            Node::Ite(a, b, c) => kind(12, Form::Choice, three(a, b, c)),
            Node::Slice { high, low, a } => kind(13, Form::Cut { high, low }, one(a)),
            Node::Cat(a, b) => kind(14, Form::Joined, two(a, b)),
            Node::Sext { width, a } => kind(15, Form::Widened { width }, one(a)),
            Node::Shl(a, b) => kind(16, Form::Shifted, two(a, b)),
            Node::Shr(a, b) => kind(17, Form::Shifted, two(a, b)),
            Node::Udiv(a, b) => kind(18, Form::Binary, two(a, b)),
            Node::Urem(a, b) => kind(19, Form::Binary, two(a, b)),
        }
    }

    /// The children in their order.
    pub fn children(self) -> Children
        ensures { result ≡ children_of self }
    {
        self.outline().children
    }

    /// The number of the kind, counted from 0 in the order of `Node`.
    pub fn kind_number(self) -> u32
        ensures { result ≡ kind_number_of self }
    {
        self.outline().number
    }

    /// The node of the same kind whose children are the first of `ids`.
    pub fn with_children(self, ids: &[NodeId]) -> Node
        requires { (children_of self).count ≤ length ids.now }
        ensures { result ≡ with_children_of self ids.now }
    {
        let a = child_at(ids, 0);
        let b = child_at(ids, 1);
        let c = child_at(ids, 2);
        match self {
            Node::Leaf { .. } | Node::Const { .. } => self,
            Node::Not(_) => Node::Not(a),
            Node::And(..) => Node::And(a, b),
            Node::Or(..) => Node::Or(a, b),
            Node::Xor(..) => Node::Xor(a, b),
            Node::Neg(_) => Node::Neg(a),
            Node::Plus(..) => Node::Plus(a, b),
            Node::Times(..) => Node::Times(a, b),
            Node::Eq(..) => Node::Eq(a, b),
            Node::Ult(..) => Node::Ult(a, b),
            Node::Slt(..) => Node::Slt(a, b),
            Node::Ite(..) => Node::Ite(a, b, c),
            Node::Slice { high, low, .. } => Node::Slice { high, low, a },
            Node::Cat(..) => Node::Cat(a, b),
            Node::Sext { width, .. } => Node::Sext { width, a },
            Node::Shl(..) => Node::Shl(a, b),
            Node::Shr(..) => Node::Shr(a, b),
            Node::Udiv(..) => Node::Udiv(a, b),
            Node::Urem(..) => Node::Urem(a, b),
        }
    }

    /// The node without regard to its children, all of which are node 0: two nodes of one bare node have one value
    /// where their children have equal words.
    pub fn bare(self) -> Node
        ensures { result ≡ bare_of self }
    {
        self.with_children(&[NONE; 3])
    }

    /// Whether two nodes are one without regard to their children.
    pub fn is_like(self, other: Node) -> bool
        ensures { IsTrue result ↔ (bare_of self ≡ bare_of other) }
    {
        are_same(self.bare(), other.bare())
    }
}

fn are_same(node: Node, other: Node) -> bool
    ensures { IsTrue result ↔ (node ≡ other) }
{
    node == other
}

fn kind(number: u32, form: Form, children: Children) -> Outline
    ensures { result ≡ record { number = number; form = form; children = children } }
{
    Outline {
        number,
        form,
        children,
    }
}

fn leaf() -> Children
    ensures { result ≡ leaf }
{
    Children {
        count: 0,
        ids: [NONE; 3],
    }
}

fn one(a: NodeId) -> Children
    ensures { result ≡ one a }
{
    Children {
        count: 1,
        ids: [a, NONE, NONE],
    }
}

fn two(a: NodeId, b: NodeId) -> Children
    ensures { result ≡ two a b }
{
    Children {
        count: 2,
        ids: [a, b, NONE],
    }
}

fn three(a: NodeId, b: NodeId, c: NodeId) -> Children
    ensures { result ≡ three a b c }
{
    Children {
        count: 3,
        ids: [a, b, c],
    }
}

fn child_at(ids: &[NodeId], position: usize) -> NodeId
    ensures { result ≡ child_at ids.now position }
{
    ids.get(position).copied().unwrap_or(NONE)
}
