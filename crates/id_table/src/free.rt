//! The nodes that are free: those of ids that were taken out, and those that had none yet.
ghost use Rattle.std.specs.Prelude.{◌≡◌, ◌<◌, ◌^◌, vec_len, vec_capacity};
ghost use Rattle.id_table.specs.Inner.Frees.{AreFree, IsFreed, HasFree};

use crate::node::{Node, blank_node};

/// Takes a free node: the last one that was freed, or else one more at the end of the row.
pub(crate) fn take_free(free: &mut Vec<u32>, nodes: &mut Vec<Node>) -> u32
    requires free { AreFree free.old.items nodes.old.items }
    requires room { HasFree (vec_len free.old) (vec_len nodes.old) (vec_capacity nodes.old) }
    requires small { vec_capacity nodes.old < 2 ^ 32 }
    ensures freed { IsFreed result free.old.items free.new.items nodes.old.items nodes.new.items }
    ensures free_room { vec_capacity free.new ≡ vec_capacity free.old }
    ensures nodes_room { vec_capacity nodes.new ≡ vec_capacity nodes.old }
{
    if let Some(at) = free.pop() {
        at
    } else {
        nodes.push_reserved(blank_node());
        (nodes.len() - 1) as u32
    }
}
