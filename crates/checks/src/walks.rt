use crate::samples::*;
use answer::faults::Layer;
use expression::nodes::*;
use expression::stops::*;
use expression::walks::{HELD, walk};
use expression::widths::Widths;
use std::test::Fail;

// What the walk in bare widths says, for all the nodes and one variable of 32 bits.
fn walked(reads: bool, nodes: &[Node]) -> Result<u8, Stopped<Defect>> {
    let widths = Widths {
        declared: &[32],
        reads,
    };
    let mut stack = [0; HELD];
    walk(&widths, nodes, whole(nodes), &mut stack)
}

// Where memory may not be read, a read is unresolved before its operand is asked for.
#[test]
fn no_memory(rt: HostRuntime) -> Result<(), Fail> {
    let read = [Node::Read(low_first(1))];
    let stopped = walked(false, &read).err().ok_or("a read passed")?;
    assert_eq!(rt; stopped.node, Some(1));
    let cause = stopped.cause;
    assert!(rt; matches!(cause, Cause::Fault(Layer::Memory, Defect::Unresolved)));
    Ok(())
}

#[test]
fn with_memory(rt: HostRuntime) {
    let read = [Node::Variable(1), Node::Read(low_first(2))];
    assert_eq!(rt; walked(true, &read).ok(), Some(16));
}
