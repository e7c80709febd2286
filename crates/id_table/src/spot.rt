//! Places of links, and the steps of a way from a bucket down.
ghost use Rattle.std.specs.Prelude.{◌<◌, length};
ghost use Rattle.id_table.specs.Inner.Places.{IsBelow};

use crate::node::Node;

/// Where a link stands: in a bucket, or on a side of a node.
#[derive(Clone, Copy)]
pub(crate) enum Place {
    Bucket(usize),
    Low(usize),
    High(usize),
}

/// A link on a way, with its place and the number of nodes above it.
#[derive(Clone, Copy)]
pub(crate) struct Spot {
    pub place: Place,
    pub link: u32,
    pub depth: usize,
}

/// The spot on a side of the node that the link of this one leads to.
#[inline]
pub(crate) fn next_spot(nodes: &[Node], spot: Spot, high: bool) -> Spot
    requires within { spot.link < length nodes.now }
    requires depth { spot.depth < length nodes.now }
    ensures { IsBelow nodes.now spot high result }
{
    let at = spot.link as usize;
    let depth = spot.depth + 1;
    if high {
        Spot {
            place: Place::High(at),
            link: nodes[at].high,
            depth,
        }
    } else {
        Spot {
            place: Place::Low(at),
            link: nodes[at].low,
            depth,
        }
    }
}
