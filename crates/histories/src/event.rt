//! What a history tells of each call.
use std::io;

/// How many keys a history is about at most.
pub(crate) const MOST_KEYS: usize = 8;

/// Which call is made.
#[derive(Clone, Copy)]
pub(crate) enum Kind {
    Get,
    LookUp,
    Glance,
    Contains,
    Put,
    PutIfAbsent,
    Remove,
    RemoveIf,
    Replace,
    ReplaceIf,
    Compute,
    ComputeIfAbsent,
    ComputeIfPresent,
    Merge,
    View,
    TryView,
    Update,
    TryUpdate,
    Walk,
    ShowEach,
    Clear,
    Retain,
}

impl Kind {
    /// The word that names it.
    fn name(&self) -> &'static str {
        match self {
            Kind::Get => "get",
            Kind::LookUp => "look_up",
            Kind::Glance => "glance",
            Kind::Contains => "contains",
            Kind::Put => "put",
            Kind::PutIfAbsent => "put_if_absent",
            Kind::Remove => "remove",
            Kind::RemoveIf => "remove_if",
            Kind::Replace => "replace",
            Kind::ReplaceIf => "replace_if",
            Kind::Compute => "compute",
            Kind::ComputeIfAbsent => "compute_if_absent",
            Kind::ComputeIfPresent => "compute_if_present",
            Kind::Merge => "merge",
            Kind::View => "view",
            Kind::TryView => "try_view",
            Kind::Update => "update",
            Kind::TryUpdate => "try_update",
            Kind::Walk => "walk",
            Kind::ShowEach => "show_each",
            Kind::Clear => "clear",
            Kind::Retain => "retain",
        }
    }
}

/// A call, with what it is given: for a conditional call the value that is wanted comes first, for a
/// retain a divisor and the rest that values are to leave. A walk and a clear are given nothing.
#[derive(Clone, Copy)]
pub(crate) struct Asked {
    pub(crate) kind: Kind,
    pub(crate) key: u64,
    pub(crate) first: u64,
    pub(crate) second: u64,
}

/// The values of the keys 0 to 7.
pub(crate) type Shown = [Option<u64>; MOST_KEYS];

/// The values before an update and after it.
pub(crate) type Updated = (Option<u64>, Option<u64>);

/// What a call returned.
#[derive(Clone, Copy)]
pub(crate) enum Returned {
    Value(Option<u64>),
    Truth(bool),
    Updated(Updated),
    Shown(Shown),
    Done,
    /// The key's bucket was locked, and the call was not made.
    Busy,
}

/// A call that was made: it began at one tick of the history's clock and ended at another.
#[derive(Clone, Copy)]
pub(crate) struct Event {
    pub(crate) asked: Asked,
    pub(crate) told: Returned,
    pub(crate) start: u64,
    pub(crate) end: u64,
}

/// Writes a value or `none`, behind a space.
fn write_value<R: Print>(rt: &R, value: Option<u64>) -> io::Result<()> {
    match value {
        Some(value) => print!(rt; " {value}"),
        None => print!(rt; " none"),
    }
}

/// Writes what a call returned, and ends the line.
fn write_told<R: Print>(rt: &R, told: Returned) -> io::Result<()> {
    match told {
        Returned::Value(value) => write_value(rt, value)?,
        Returned::Truth(truth) => print!(rt; " {truth}")?,
        Returned::Shown(shown) => {
            for value in &shown {
                write_value(rt, *value)?;
            }
        }
        Returned::Updated((before, after)) => {
            write_value(rt, before)?;
            write_value(rt, after)?;
        }
        Returned::Done => print!(rt; " done")?,
        Returned::Busy => print!(rt; " busy")?,
    }
    println!(rt;)
}

/// Writes the line of a call: the client, the ticks at which the call began and ended, its name, its
/// key, what else it was given, and what it returned.
pub(crate) fn write_event<R: Print>(rt: &R, client: usize, event: &Event) -> io::Result<()> {
    let Asked {
        kind,
        key,
        first,
        second,
    } = event.asked;
    print!(rt;
        "{client} {} {} {} {key} {first} {second}",
        event.start,
        event.end,
        kind.name()
    )?;
    write_told(rt, event.told)
}
