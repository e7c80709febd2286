//! The nodes: each has an id with its slot, and two links to the nodes below it.
ghost use Rattle.std.specs.Prelude.{◌≡◌, ◌≢◌, ◌<◌, true, false, length, vec_len, vec_capacity};
ghost use Rattle.id_table.specs.Ids.{key};
ghost use Rattle.id_table.specs.Inner.Nodes.{key_of, is_same, node_at, blank, nowhere, IsSet, IsMoved};

use crate::rooms::are_same_rooms;
use gx_base::{ShortId, Slot};

/// A link that leads to no node. The others are places in the row of nodes.
pub(crate) const NOWHERE: u32 = u32::MAX;

/// The slot of a firm's id.
#[derive(Clone, Copy)]
pub(crate) struct Entry {
    pub id: ShortId,
    pub slot: Slot,
    pub firm: u8,
    /// Whether the table has the id. The node of one that it has not is free.
    pub is_live: bool,
}

/// A node. The ids below it stand on the side that their bit at the depth of the node says.
#[derive(Clone, Copy)]
pub(crate) struct Node {
    pub entry: Entry,
    pub low: u32,
    pub high: u32,
}

/// A free node.
pub(crate) fn blank_node() -> Node
    ensures { result ≡ blank }
{
    Node {
        entry: Entry {
            id: ShortId::default(),
            slot: Slot(0),
            firm: 0,
            is_live: false,
        },
        low: NOWHERE,
        high: NOWHERE,
    }
}

#[inline]
fn is_named(entry: &Entry, firm: u8, id: &ShortId) -> bool
    ensures { result ≡ is_same (key firm id.now) (key_of entry.now) }
{
    entry.firm == firm && are_same_rooms(entry.id.room(), id.room())
}

/// Whether the search for an id ends at a link: it leads to the node of the id, or to none.
#[inline]
pub(crate) fn is_end(nodes: &[Node], link: u32, firm: u8, id: &ShortId) -> bool
    ensures named { result ≡ true → link < length nodes.now → key_of (node_at nodes.now link).entry ≡ key firm id.now }
    ensures within { result ≡ false → link < length nodes.now }
    ensures other { result ≡ false → key_of (node_at nodes.now link).entry ≢ key firm id.now }
{
    match nodes.get(link as usize) {
        None => true,
        Some(node) => is_named(&node.entry, firm, id),
    }
}

/// Whether nothing is below a node.
pub(crate) fn is_leaf(node: &Node) -> bool
    ensures low { result ≡ true → node.now.low ≡ nowhere }
    ensures high { result ≡ true → node.now.high ≡ nowhere }
    ensures below { result ≡ false → node.now.low ≡ nowhere → node.now.high ≢ nowhere }
{
    node.low == NOWHERE && node.high == NOWHERE
}

/// Gives a node an entry.
pub(crate) fn set_entry(nodes: &mut Vec<Node>, at: u32, entry: Entry)
    requires { at < vec_len nodes.old }
    ensures set { IsSet at entry nodes.old.items nodes.new.items }
    ensures room { vec_capacity nodes.new ≡ vec_capacity nodes.old }
{
    nodes[at as usize].entry = entry;
}

/// Moves the entry of a node to another, and frees the node. If both are one, its id goes and nothing is copied.
pub(crate) fn move_entry(nodes: &mut Vec<Node>, from: u32, to: u32)
    requires from { from < vec_len nodes.old }
    requires to { to < vec_len nodes.old }
    ensures moved { IsMoved from to nodes.old.items nodes.new.items }
    ensures room { vec_capacity nodes.new ≡ vec_capacity nodes.old }
{
    if from != to {
        nodes[to as usize].entry = nodes[from as usize].entry;
    }
    nodes[from as usize].entry.is_live = false;
}
