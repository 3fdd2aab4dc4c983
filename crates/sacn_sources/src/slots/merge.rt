//! The merge of several sources.
ghost use Rattle.std.specs.Prelude.{◌≡◌, ◌+◌, ◌<◌, ◌≤◌, ℕ, map, EachIndex, slice_index};
ghost use Rattle.sacn_sources.specs.Merge.{merge, top_priority, highest_at, IsMergedLevel};
ghost use Rattle.sacn_sources.specs.Layers.{shown_of};

use crate::slots::block::{BLOCK, BLOCKS, Block, LANES, Lanes};
use crate::slots::levels::Levels;
use sacn_packets::SLOTS;
use std::simd::prelude::*;

/// What one source shows: a member of the set that is merged.
#[derive(Clone, Copy)]
pub struct Layer<'a> {
    /// The priority that the source gave, from 0 to 200 on the wire; the greater is followed. The merge takes every
    /// octet. (E1.31, 6.2.3.)
    pub priority: u8,
    /// The levels that the source gave.
    pub levels: &'a Levels,
}

/// Writes the merge of the layers, of which there may be any number, over all 512 slots.
///
/// The layers of the greatest priority are followed (E1.31, 6.2.3), and a slot has the highest level that
/// one of them has there, 0 past the levels that it gave, at the greatest priority too (profile). With no layer all
/// slots are at 0 (profile). Their order doesn't count, nor what stood in `slots` before.
///
/// Each layer that is followed is read once and the slots are written once. Another layer costs its comparisons of
/// priorities alone. A plain program under these same clauses stands in the module `plain`.
pub fn merge_into(layers: &[Layer<'_>], slots: &mut [u8; SLOTS])
    ensures merged { slots.new ≡ merge (map shown_of layers.now) }
    ensures highest { EachIndex slots.new
        (λ slot. IsMergedLevel (map shown_of layers.now) slot (slice_index slots.new slot)) }
{
    let top = top_priority(layers);
    for block in 0..BLOCKS {
        highest_block(layers, top, BLOCK * block).put(slots, BLOCK * block);
    }
}

// For each slot of the block from `at` on the highest level in the layers of a priority. Its plain twin, for one slot,
// is `plain::highest`.
fn highest_block(layers: &[Layer<'_>], priority: u8, at: usize) -> Block
    requires { at + BLOCK ≤ SLOTS }
    ensures low { (i : ℕ) → i < LANES →
        slice_index result.low i ≡ highest_at priority (map shown_of layers.now) (at + i) }
    ensures high { (i : ℕ) → i < LANES →
        slice_index result.high i ≡ highest_at priority (map shown_of layers.now) (at + LANES + i) }
{
    let mut block = Block {
        low: Lanes::splat(0),
        high: Lanes::splat(0),
    };
    for layer in layers {
        if layer.priority == priority {
            block = layer.levels.raised(block, at);
        }
    }
    block
}

// The greatest priority of the layers, 0 where there is none.
pub(crate) fn top_priority(layers: &[Layer<'_>]) -> u8
    ensures { result ≡ top_priority (map shown_of layers.now) }
{
    layers
        .iter()
        .fold(0, |top: u8, layer| top.max(layer.priority))
}
