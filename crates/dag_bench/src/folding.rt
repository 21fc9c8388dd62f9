//! How many variables are made where some inputs are constants, counted by hand.

ghost use Rattle.std.specs.Prelude.{◌∷◌, []};
ghost use Rattle.dag.specs.declared.node.Node.TheVariants.{Leaf, Const};
ghost use Rattle.bit_blaster.specs.Circuit.{IsCircuit};

use bit_blaster::blast;
use dag::{Node, NodeId};
use std::alloc::Global;
use std::test::Fail;

/// How many variables a node has beside those of 8 input bits and of constants, over these bits and the number 9.
fn made(alloc: Global, node: Node) -> Result<u32, Fail>
    requires { IsCircuit (Leaf 8 0 ∷ Const 8 9 ∷ node ∷ []) }
{
    let x = Node::Leaf { width: 8, index: 0 };
    let nine = Node::Const { width: 8, value: 9 };
    let nodes = [x, nine, node];
    match blast(alloc, &nodes) {
        Ok(blasted) => Ok(blasted.formula.variables().saturating_sub(9)),
        Err(_) => Ok(u32::MAX),
    }
}

#[test]
fn constants_are_folded(rt: HostRuntime) -> Result<(), Fail> {
    let x = NodeId(0);
    let nine = NodeId(1);
    assert_eq!(rt; made(rt.alloc(), Node::And(x, nine))?, 0);
    assert_eq!(rt; made(rt.alloc(), Node::Shl(x, nine))?, 0);
    assert_eq!(rt; made(rt.alloc(), Node::Plus(x, nine))?, 14);
    assert_eq!(rt; made(rt.alloc(), Node::Times(x, nine))?, 10);
    assert_eq!(rt; made(rt.alloc(), Node::Eq(x, nine))?, 7);
    Ok(())
}
