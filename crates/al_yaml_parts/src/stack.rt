//! The stack of open collections.

ghost use Rattle.al_base.specs.Limits.{deepest_collection};
ghost use Rattle.al_yaml_parts.specs.Stacks.{OpenCollections, depth_in};
ghost use Rattle.std.specs.Prelude.{◌≡◌, ◌+◌, ◌<◌, ◌≤◌, ◌∷◌, [], IfOk, IfSome, MatchOption, OnErr};
ghost use Rattle.std.specs.Prelude.{length};

use crate::frames::{BlockFrame, FlowFrame};
use std::alloc::{AllocError, Global};
use std::marker::Model;

/// The open collections, at most 64: block collections, and flow collections inside them. The
/// innermost is popped first.
#[derive(Drop)]
pub struct Stack {
    blocks: Vec<BlockFrame>,
    flows: Vec<FlowFrame>,
}

impl Model for Stack {
    ghost use Rattle.std.specs.Prelude.{List, length, refl, reverse, ◌+◌, ◌≤◌};
    ghost use Rattle.al_yaml_parts.specs.declared.frames.BlockFrame.{BlockFrame};
    ghost use Rattle.al_yaml_parts.specs.declared.frames.FlowFrame.{FlowFrame};
    ghost use Rattle.al_base.specs.Limits.{deepest_collection};
    ghost use Rattle.al_yaml_parts.specs.Stacks.{OpenCollections};
    ghost use Rattle.std.specs.Coded.{codes, code_by};
    ghost use Rattle.al_yaml_parts.specs.contracts.frames.BlockFrame as block;
    ghost use Rattle.al_yaml_parts.specs.contracts.frames.FlowFrame as flow;

    ghost Value = { OpenCollections };

    ghost coded = { code_by (List FlowFrame × List BlockFrame)
        (Prim.hlevel (codes, block.the_row.coded, flow.the_row.coded))
        (λ o. (o.flows, o.blocks)) (λ p. record { flows = p.0; blocks = p.1 }) (λ _. refl) };

    ghost view = { λ s. record { flows = reverse s.flows.items; blocks = reverse s.blocks.items } };

    ghost invariant = { λ s. length s.flows.items + length s.blocks.items ≤ deepest_collection };
}

impl Stack {
    /// No open collection. Doesn't allocate.
    pub fn new(alloc: Global) -> Self
        ensures { result ≡ record { flows = []; blocks = [] } }
    {
        Stack {
            blocks: Vec::new(alloc),
            flows: Vec::new(alloc),
        }
    }

    /// The number of open collections.
    pub fn len(&self) -> usize
        ensures value { result ≡ length self.now.flows + length self.now.blocks }
        ensures most { result ≤ deepest_collection }
    {
        self.flows.len() + self.blocks.len()
    }

    /// The depth of a node inside the open collections, if these are block collections; the root's
    /// is 1.
    pub fn depth(&self) -> u32
        requires { self.now.flows ≡ [] }
        ensures value { result ≡ depth_in self.now }
        ensures most { result ≤ deepest_collection + 1 }
    {
        self.len() as u32 + 1
    }

    /// Opens one more block collection. Fails with `AllocError` when out of memory; the stack is
    /// then unchanged.
    pub fn push_block(&mut self, frame: BlockFrame) -> Result<(), AllocError>
        requires room { length self.old.blocks < deepest_collection }
        requires outside { self.old.flows ≡ [] }
        ensures flows { self.new.flows ≡ self.old.flows }
        ensures blocks { IfOk result (λ _. self.new.blocks ≡ frame ∷ self.old.blocks) }
        ensures failed { OnErr result (self.new.blocks ≡ self.old.blocks) }
    {
        self.blocks.push(frame)?;
        Ok(())
    }

    /// Pops the innermost block collection.
    pub fn pop_block(&mut self) -> Option<BlockFrame>
        ensures flows { self.new.flows ≡ self.old.flows }
        ensures blocks { MatchOption result ((self.old.blocks ≡ []) × (self.new.blocks ≡ []))
            (λ frame. self.old.blocks ≡ frame ∷ self.new.blocks) }
        ensures room { IfSome result (λ _. length self.new.blocks < deepest_collection) }
    {
        self.blocks.pop()
    }

    /// Opens one more flow collection. Fails with `AllocError` when out of memory; the stack is
    /// then unchanged.
    pub fn push_flow(&mut self, frame: FlowFrame) -> Result<(), AllocError>
        requires { length self.old.flows + length self.old.blocks < deepest_collection }
        ensures flows { IfOk result (λ _. self.new.flows ≡ frame ∷ self.old.flows) }
        ensures failed { OnErr result (self.new.flows ≡ self.old.flows) }
        ensures blocks { self.new.blocks ≡ self.old.blocks }
    {
        self.flows.push(frame)?;
        Ok(())
    }

    /// Pops the innermost flow collection.
    pub fn pop_flow(&mut self) -> Option<FlowFrame>
        ensures flows { MatchOption result ((self.old.flows ≡ []) × (self.new.flows ≡ []))
            (λ frame. self.old.flows ≡ frame ∷ self.new.flows) }
        ensures blocks { self.new.blocks ≡ self.old.blocks }
    {
        self.flows.pop()
    }
}
