//! The nodes of frames in the arena.
ghost use Rattle.std.specs.Prelude.{◌≡◌, ℕ};
ghost use Rattle.slab.specs.Slab.{slab_len};
ghost use Rattle.hep_layout.specs.Words.{with_ended};
ghost use Rattle.hep_proc.specs.Nodes.{CanCount, HasChildren, nodes_of, with_fewer, with_more};

use hep_arena::Block;
use slab::Slab;
use std::alloc::AllocError;

/// A frame in the arena: its activation and the unit of that, its cells, the key of its parent's node, the number of
/// its children in the arena, and whether its activation has ended.
#[derive(Drop)]
pub(crate) struct Node {
    pub(crate) activation: u64,
    pub(crate) unit: u32,
    pub(crate) block: Block,
    pub(crate) parent: Option<usize>,
    pub(crate) children: u64,
    pub(crate) finished: bool,
}

impl Clone for Node {
    ghost use Rattle.std.specs.Prelude.{◌≡◌};

    ghost is_clone = { λ node clone. clone ≡ node };

    fn clone(&self) -> Result<Node, AllocError> {
        Ok(Node {
            activation: self.activation,
            unit: self.unit,
            block: self.block.clone()?,
            parent: self.parent,
            children: self.children,
            finished: self.finished,
        })
    }
}

// Notes that the activation under a key has ended.
#[inline(always)]
pub(crate) fn end(nodes: &mut Slab<Node>, key: usize)
    ensures ended { (k : ℕ) → nodes_of nodes.new k ≡ with_ended (nodes_of nodes.old) key k }
{
    if let Some(node) = nodes.get_mut(key) {
        node.finished = true;
    }
}

// Counts one child less of the frame under a key.
#[inline(always)]
pub(crate) fn lose_child(nodes: &mut Slab<Node>, key: usize)
    requires { HasChildren (nodes_of nodes.old) key }
    ensures fewer { (k : ℕ) → nodes_of nodes.new k ≡ with_fewer (nodes_of nodes.old) key k }
    ensures len { slab_len nodes.new ≡ slab_len nodes.old }
{
    if let Some(node) = nodes.get_mut(key) {
        node.children -= 1;
    }
}

// Counts one child more of the frame under a key.
#[inline(always)]
pub(crate) fn gain_child(nodes: &mut Slab<Node>, key: usize)
    requires { CanCount (nodes_of nodes.old) key }
    ensures more { (k : ℕ) → nodes_of nodes.new k ≡ with_more (nodes_of nodes.old) key k }
{
    if let Some(node) = nodes.get_mut(key) {
        node.children += 1;
    }
}
