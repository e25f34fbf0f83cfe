//! Trees whose parts are the numbers of bins.
ghost use Rattle.std.specs.Prelude.{◌≡◌, ◌+◌, ◌<◌, ◌≤◌, ◌^◌, ℕ};

use crate::samples::assert_same;
use completers::{Arrival, Node, Partial, Parts, Relation, Ticket, Tree};
use std::alloc::{AllocError, Global};
use std::process::Abort;
use std::thread::Threads;

/// A part is how many bins the range has, which the tests compare.
pub(crate) struct Bins;

impl Relation for Bins {
    type Part = usize;

    ghost relates = { λ _ _ _ _. Unit {0} };
}

pub(crate) type BinTree = Tree<Bins, Global>;

/// A ticket, with its tree.
#[derive(Drop)]
pub(crate) struct Leaf<'a> {
    tree: &'a BinTree,
    ticket: Ticket<usize>,
    ghost of_tree: { ticket.tree ≡ tree.now.identity },
}

pub(crate) fn leaf_of(tree: &BinTree, ticket: Ticket<usize>) -> Leaf<'_>
    requires { ticket.tree ≡ tree.now.identity }
{
    Leaf { tree, ticket }
}

/// What the last arrival at a node has.
#[derive(Drop)]
pub(crate) struct Last<'a> {
    parts: Parts<usize>,
    above: Option<Leaf<'a>>,
}

// Arrives with how many bins the range has. None: it was told Early.
pub(crate) fn arrive(leaf: Leaf<'_>) -> Option<Last<'_>> {
    let Leaf { tree, ticket } = leaf;
    let (lo, hi) = (ticket.lo(), ticket.hi());
    let part = hi - lo;
    match tree.arrive(ticket, Partial { lo, hi, part }) {
        Arrival::Early(_) => None,
        Arrival::Last(parts, above) => match above {
            None => Some(Last { parts, above: None }),
            Some(ticket) => {
                let above = Some(Leaf { tree, ticket });
                Some(Last { parts, above })
            }
        },
    }
}

/// What the last arrival at a node was told: the range of each part with the part, and the range of
/// the ticket above. Zeros follow the last part, and are the range above the root.
type Told = ([(usize, usize, usize); 9], (usize, usize));

fn told_of(last: &mut Last<'_>) -> Told {
    let mut parts = [(0, 0, 0); 9];
    for place in parts.iter_mut() {
        if let Some(x) = last.parts.take() {
            *place = (x.lo, x.hi, x.part);
        }
    }
    match &last.above {
        None => (parts, (0, 0)),
        Some(leaf) => (parts, (leaf.ticket.lo(), leaf.ticket.hi())),
    }
}

// Arrives, and goes on to the tickets above while it is last, and writes down what it is told.
fn climb(leaf: Leaf<'_>, told: &mut Vec<Told>) -> Result<(), AllocError> {
    let mut leaf = leaf;
    // No node of a tree is deeper.
    for _ in 0..8usize {
        let Some(mut last) = arrive(leaf) else {
            break;
        };
        told.push(told_of(&mut last))?;
        let Some(above) = last.above else {
            break;
        };
        leaf = above;
    }
    Ok(())
}

// Takes the leaves at these places, one after the other, and lets them climb. Returns what they are told,
// and how many arrived before anything was told.
fn climb_by_turns(
    alloc: Global,
    mut leaves: Vec<Leaf<'_>>,
    places: &[usize],
) -> Result<(Vec<Told>, u64), AllocError> {
    let mut told = Vec::new(alloc);
    let mut early = 0u64;
    for place in places {
        if *place < leaves.len() {
            climb(leaves.remove(*place), &mut told)?;
            early = early.wrapping_add(u64::from(told.is_empty()));
        }
    }
    Ok((told, early))
}

/// How the root of a tree forks, and how its leaves arrive. One function alone owns each tree.
pub(crate) trait Growth {
    /// What it returns.
    type Seen: Drop;

    fn grow<Rt: Threads + Abort + Sync>(
        &self,
        rt: &Rt,
        alloc: Global,
        tree: &BinTree,
        root: Node<usize>,
        level: u32,
    ) -> Result<Self::Seen, AllocError>
        requires tree { root.tree ≡ tree.now.identity }
        requires level { root.level ≡ level }
        requires slots { root.forks + root.level < tree.now.slots };
}

// Makes a tree of so many nodes, with so many slots each, over so many bins, and returns what the growth
// does.
pub(crate) fn grown<Rt: Threads + Abort + Sync, G: Growth>(
    rt: &Rt,
    alloc: Global,
    nodes: usize,
    slots: usize,
    bins: usize,
    growth: &G,
) -> Result<G::Seen, AllocError>
    requires nodes { (level : ℕ) × (level ≤ 7) × (nodes ≡ 2 ^ level) }
    requires slots { (0 < slots) × (slots ≤ 8) }
    requires bins { 0 < bins }
{
    let (tree, supply) = Tree::new(alloc, &Bins, nodes, slots, bins)?;
    let level = supply.level();
    assert!(rt; (level as usize) < slots);
    let root = tree.open(supply, None, 0, bins);
    growth.grow(rt, alloc, &tree, root, level)
}

/// The leaves of a tree over five bins: 0-1, 1-2, 2-3 and 3-5. The root forks at 2 and at 1, and the
/// node of 2-5 at 3. The leaves arrive in one of 24 orders. Returns what they are told.
#[derive(Drop)]
struct Five {
    order: usize,
}

impl Growth for Five {
    type Seen = (Vec<Told>, u64);

    fn grow<Rt: Threads + Abort + Sync>(
        &self,
        rt: &Rt,
        alloc: Global,
        tree: &BinTree,
        mut root: Node<usize>,
        level: u32,
    ) -> Result<(Vec<Told>, u64), AllocError> {
        assert!(rt; level == 2 && root.lo() == 0 && root.hi() == 5);
        let (above, nodes) = root.fork(tree, 2);
        let (second, _) = root.fork(tree, 1);
        let mut child = tree.open(nodes, Some(above), 2, 5);
        let (fourth, _) = child.fork(tree, 3);
        let first = root.own(tree);
        let third = child.own(tree);
        let leaves = [
            leaf_of(tree, first),
            leaf_of(tree, second),
            leaf_of(tree, third),
            leaf_of(tree, fourth),
        ];
        let leaves = Vec::from_array(alloc, leaves)?;
        let places = [self.order / 6, self.order % 6 / 2, self.order % 2, 0];
        climb_by_turns(alloc, leaves, &places)
    }
}

const NONE: (usize, usize, usize) = (0, 0, 0);

/// One leaf is the last at the node of 2-5, and then one at the root.
const OF_FIVE: [Told; 2] = [
    (
        [
            (2, 3, 1),
            (3, 5, 2),
            NONE,
            NONE,
            NONE,
            NONE,
            NONE,
            NONE,
            NONE,
        ],
        (2, 5),
    ),
    (
        [
            (0, 1, 1),
            (1, 2, 1),
            (2, 5, 3),
            NONE,
            NONE,
            NONE,
            NONE,
            NONE,
            NONE,
        ],
        (0, 0),
    ),
];

#[test]
fn four_leaves_arrive_in_every_order(rt: HostRuntime) {
    for order in 0..24usize {
        let seen = grown(&rt, rt.alloc(), 4, 3, 5, &Five { order }).expect(&rt, "no fault");
        let (told, _) = seen;
        assert_same(&rt, &(order, told.as_slice()), &(order, OF_FIVE.as_slice()));
    }
}

// Forks the last bin of the node's range, again and again, each as a leaf, and ends with the node's
// own leaf. Returns the level of the last supply.
fn fork_all<'a>(
    tree: &'a BinTree,
    mut node: Node<usize>,
    level: u32,
    leaves: &mut Vec<Leaf<'a>>,
) -> Result<u32, AllocError>
    requires tree { node.tree ≡ tree.now.identity }
    requires level { node.level ≡ level }
    requires slots { node.forks + node.level < tree.now.slots }
{
    let (lo, hi) = (node.lo(), node.hi());
    if level == 0 || hi - lo < 2 {
        leaves.push(leaf_of(tree, node.own(tree)))?;
        return Ok(level);
    }
    let (ticket, supply) = node.fork(tree, hi - 1);
    leaves.push(leaf_of(tree, ticket))?;
    fork_all(tree, node, supply.level(), leaves)
}

/// The leaves of a tree over eight bins, of one bin each. The root forks seven times, and the leaf of
/// 4-5 arrives last. Returns the level of the root and of the last supply, what the leaves are told, and
/// how many arrive before that.
struct Eight;

impl Growth for Eight {
    type Seen = ((u32, u32), (Vec<Told>, u64));

    fn grow<Rt: Threads + Abort + Sync>(
        &self,
        _rt: &Rt,
        alloc: Global,
        tree: &BinTree,
        root: Node<usize>,
        level: u32,
    ) -> Result<((u32, u32), (Vec<Told>, u64)), AllocError> {
        let mut leaves = Vec::new(alloc);
        let left = fork_all(tree, root, level, &mut leaves)?;
        let told = climb_by_turns(alloc, leaves, &[2, 6, 5, 0, 2, 0, 1, 0])?;
        Ok(((level, left), told))
    }
}

const OF_EIGHT: [Told; 1] = [(
    [
        (0, 1, 1),
        (1, 2, 1),
        (2, 3, 1),
        (3, 4, 1),
        (4, 5, 1),
        (5, 6, 1),
        (6, 7, 1),
        (7, 8, 1),
        NONE,
    ],
    (0, 0),
)];

#[test]
fn a_node_forks_seven_times(rt: HostRuntime) {
    let seen = grown(&rt, rt.alloc(), 128, 8, 8, &Eight).expect(&rt, "no fault");
    let (levels, (told, early)) = seen;
    let found = (levels, early, told.as_slice());
    assert_same(&rt, &found, &((7, 0), 7, OF_EIGHT.as_slice()));
}

// Whether parts lie side by side over the range of the ticket above, or over 256 bins.
fn is_side_by_side(told: &Told) -> bool {
    let (parts, above) = told;
    let (mut end, whole) = if above.1 > 0 { *above } else { (0, 256) };
    for (lo, hi, part) in parts.iter() {
        if *part > 0 && *lo == end {
            end = *hi;
        } else if *part > 0 {
            return false;
        }
    }
    end == whole
}

// Halves the range and the supply until the node is alone, child before node, and writes down what
// the last arrivals are told.
fn fill(
    tree: &BinTree,
    mut node: Node<usize>,
    level: u32,
    told: &mut Vec<Told>,
) -> Result<(), AllocError>
    requires tree { node.tree ≡ tree.now.identity }
    requires level { node.level ≡ level }
    requires slots { node.forks + node.level < tree.now.slots }
{
    let (lo, hi) = (node.lo(), node.hi());
    if level == 0 || hi - lo < 2 {
        let ticket = node.own(tree);
        return climb(leaf_of(tree, ticket), told);
    }
    let mid = lo + (hi - lo) / 2;
    let (ticket, supply) = node.fork(tree, mid);
    let child = tree.open(supply, Some(ticket), mid, hi);
    fill(tree, child, level - 1, told)?;
    fill(tree, node, level - 1, told)
}

/// What the last arrivals of a tree that is filled are told.
struct Full;

impl Growth for Full {
    type Seen = Vec<Told>;

    fn grow<Rt: Threads + Abort + Sync>(
        &self,
        _rt: &Rt,
        alloc: Global,
        tree: &BinTree,
        root: Node<usize>,
        level: u32,
    ) -> Result<Vec<Told>, AllocError> {
        let mut told = Vec::new(alloc);
        fill(tree, root, level, &mut told)?;
        Ok(told)
    }
}

// One arrival is the last at each node, and the last of all at the root.
#[test]
fn a_tree_of_128_nodes_is_filled(rt: HostRuntime) {
    let told = grown(&rt, rt.alloc(), 128, 8, 256, &Full).expect(&rt, "no fault");
    let (mut whole, mut roots) = (0u64, 0u64);
    for node in &told {
        whole = whole.wrapping_add(u64::from(is_side_by_side(node)));
        roots = roots.wrapping_add(u64::from(node.1 == (0, 0)));
    }
    assert_same(&rt, &(told.len(), whole, roots), &(128, 128, 1));
}
