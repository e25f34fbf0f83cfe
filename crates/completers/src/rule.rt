//! What tokens may do, and the rule over the words and slots of a tree.
use crate::relation::{Partial, Relation};
use atomic_table::{Seat, Shared, Table, TableRule};
use std::collections::LinkedList;
use std::marker::PhantomData;
use std::snapshot::Snapshot;

/// A ticket above a node: its own node, its number and range, and how many forks its
/// node has, where it is that node's own ticket (else 0). No value of it is made.
pub struct Above {
    pub node: u64,
    pub number: u64,
    pub lo: u64,
    pub hi: u64,
    pub forks: u64,
}

/// The tickets above a node, the nearest first. The root has none.
pub type Path = LinkedList<Above>;

/// One thing that a token may do. No value of it is made.
pub enum Right {
    /// Open a node.
    Unopened(u64),
    /// Fork at a node, or give out its own ticket: the node, its range, how many tickets it has,
    /// and the tickets above it.
    Opened(u64, u64, u64, u64, Path),
    /// Arrive: the node, the ticket's number and range, how many forks the node has, where the
    /// ticket is its own (else 0), and the tickets above the node.
    Waits(u64, u64, u64, u64, u64, Path),
    /// Arrive, while the ticket's slot is with the token, which has read the code of the ticket
    /// above: the same words, and the code.
    Fills(u64, u64, u64, u64, u64, u64, Path),
    /// Nothing more: the ticket of this number has arrived at the node, and was not the last there.
    Counted(u64, u64),
}

/// What a token may do, in all. No value of it is made.
pub type Rights = LinkedList<Right>;

/// What a tree is made for.
#[derive(Drop)]
pub struct Purpose<B> {
    pub relation: Snapshot<B>,
    pub nodes: usize,
    pub bins: usize,
}

/// Each ticket arrives once, and a node's number is how many of its tickets have not arrived.
pub struct Completion<B> {
    relation: PhantomData<B>,
}

impl<B: Relation> TableRule<Option<Partial<B::Part>>, Rights, Purpose<B>> for Completion<B> {
    ghost use Rattle.completers.specs.Rights.{nodes};
    ghost use Rattle.completers.specs.Rule.{Holds};

    ghost holds = { λ key. Holds (B.relates key.relation.value) key.bins };

    ghost first = { λ key. nodes 0 key.nodes };
}

pub(crate) type TokenSeat<P> = Seat<Option<Partial<P>>, Rights>;

pub(crate) type Words<B> = Shared<
    Option<Partial<<B as Relation>::Part>>,
    Rights,
    Purpose<B>,
    Completion<B>,
>;

pub(crate) type Board<B, A> = Table<
    Option<Partial<<B as Relation>::Part>>,
    Rights,
    Purpose<B>,
    Completion<B>,
    A,
>;
