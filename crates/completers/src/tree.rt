//! A tree of nodes.
ghost use Rattle.std.specs.Prelude.{◌≡◌, ℕ, ◌+◌, ◌^◌, ◌<◌, ◌≤◌, [], IfOk, MatchOption, Some};
ghost use Rattle.completers.specs.Game.{OneLast};
ghost use Rattle.completers.specs.Limits.{most_nodes};
ghost use Rattle.completers.specs.Views.{new_node, path_from};

use crate::limits::MOST_WORDS;
use crate::relation::Relation;
use crate::rule::{Board, Purpose};
use crate::steps::Together;
use crate::tokens::{Node, Supply, Ticket};
use crate::words::write_code;
use atomic_table::Table;
use std::alloc::{AllocError, Allocator};
use std::marker::{Brand, Model};
use std::snapshot::Snapshot;

/// The nodes of a tree, with the slots for their parts. `B` says which parts a range may have.
#[derive(Drop)]
pub struct Tree<B: Relation, A: Allocator> {
    pub(crate) board: Board<B, A>,
    slots: usize,
}

impl<B: Relation, A: Allocator> Model for Tree<B, A> {
    ghost use Rattle.completers.specs.Views.{TreeView};
    ghost use Rattle.completers.specs.Tokens.{IsTree};

    ghost Value = { TreeView B };

    ghost view = { λ t. record {
      identity = t.board.shared.table_id;
      relation = t.board.shared.key.relation.value;
      bins = t.board.shared.key.bins;
      slots = t.slots;
    } };

    ghost invariant = { λ t. IsTree t.board.shared.table_id t.board.shared.key.nodes t.slots };
}

// In every game of a node there is at most one last arrival.
fn completion_game()
    ensures { OneLast }
{}

// Which power of two a number of nodes is.
fn level_of(nodes: usize) -> u32
    requires { (level : ℕ) × (level ≤ 7) × (nodes ≡ 2 ^ level) }
    ensures { (result ≤ 7) × (nodes ≡ 2 ^ result) × (nodes ≤ most_nodes) }
{
    nodes.trailing_zeros()
}

impl<B: Relation, A: Allocator> Tree<B, A> {
    /// A tree of `nodes` nodes, a power of two up to `MOST_NODES`, each with 1 to 8 `slots` for the
    /// parts of its tickets. Its root is to have the range from 0 up to `bins`, and each part
    /// stands in the relation of `about` to its range. Err: there was no memory.
    ///
    /// In every order of forks and arrivals at a node at most one arrival is the last, and it is
    /// the final event.
    pub fn new(
        alloc: A,
        about: &B,
        nodes: usize,
        slots: usize,
        bins: usize,
    ) -> Result<(Tree<B, A>, Supply<B::Part>), AllocError>
        requires nodes { (level : ℕ) × (level ≤ 7) × (nodes ≡ 2 ^ level) }
        requires slots { (0 < slots) × (slots ≤ 8) }
        ensures tree { IfOk result (λ t. (t.0.relation ≡ about.now) × (t.0.bins ≡ bins)
            × (t.0.slots ≡ slots)) }
        ensures supply { IfOk result (λ t. (t.1.tree ≡ t.0.identity) × (t.1.first ≡ 0)
            × (nodes ≡ 2 ^ t.1.level) × (t.1.level ≤ 7)) }
        ensures game { OneLast }
    {
        completion_game();
        let key = Purpose {
            relation: Snapshot::of(about),
            nodes,
            bins,
        };
        let level = level_of(nodes);
        // Each node has two words, its number and the code of the ticket above it. Both are 1 until
        // it is opened.
        let unopened = [1u64; MOST_WORDS];
        let words = &unopened[..2 * nodes];
        let (board, seat) = Table::vacant(alloc, words, 8 * nodes, &key)?;
        let supply = Supply {
            seat,
            first: 0,
            level,
        };
        Ok((Tree { board, slots }, supply))
    }

    fn open_root(&self, supply: Supply<B::Part>, bins: usize) -> Node<B::Part>
        requires supply { supply.tree ≡ self.now.identity }
        requires range { (0 < bins) × (bins ≡ self.now.bins) }
        ensures { result ≡ new_node supply [] 0 bins }
    {
        let Supply {
            mut seat,
            first,
            level,
        } = supply;
        write_code::<B, Brand>(&self.board.shared, &mut seat, first, 0);
        Node {
            seat,
            node: first,
            lo: 0,
            hi: bins,
            forks: 0,
            level,
        }
    }

    fn open_below(&self, supply: Supply<B::Part>, above: Ticket<B::Part>) -> Node<B::Part>
        requires supply { supply.tree ≡ self.now.identity }
        requires above { above.tree ≡ self.now.identity }
        ensures { result ≡ new_node supply (path_from (Some above)) above.lo above.hi }
    {
        let Ticket {
            mut seat,
            node,
            number,
            lo,
            hi,
        } = above;
        let Supply {
            seat: nodes,
            first,
            level,
        } = supply;
        let words = &self.board.shared;
        words.join_seat::<Together>(&mut seat, nodes);
        let code = 8 * node as u64 + number as u64 + 1;
        write_code::<B, Brand>(words, &mut seat, first, code);
        Node {
            seat,
            node: first,
            lo,
            hi,
            forks: 0,
            level,
        }
    }

    /// Opens the first node of the supply for the range from `lo` up to `hi`. The root
    /// has the tree's whole range and no ticket above, and any other node the range of
    /// the ticket above, which it keeps for its last arrival.
    pub fn open(
        &self,
        supply: Supply<B::Part>,
        above: Option<Ticket<B::Part>>,
        lo: usize,
        hi: usize,
    ) -> Node<B::Part>
        requires supply { supply.tree ≡ self.now.identity }
        requires range { lo < hi }
        requires above { MatchOption above ((lo ≡ 0) × (hi ≡ self.now.bins))
            (λ t. (t.tree ≡ self.now.identity) × (t.lo ≡ lo) × (t.hi ≡ hi)) }
        ensures { result ≡ new_node supply (path_from above) lo hi }
    {
        match above {
            None => self.open_root(supply, hi),
            Some(ticket) => self.open_below(supply, ticket),
        }
    }
}
