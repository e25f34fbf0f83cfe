//! What happens in a history, and which calls a client makes: both are drawn from the seed.
use crate::event::{Asked, Kind};
use crate::random::Random;
use clients::Form;

/// About how many calls the clients of a history make together.
const CALLS: u32 = 160;

/// The calls that are drawn, each as likely as the others.
const KINDS: [Kind; 41] = [
    Kind::Get,
    Kind::Get,
    Kind::Get,
    Kind::Get,
    Kind::LookUp,
    Kind::LookUp,
    Kind::Glance,
    Kind::Glance,
    Kind::Contains,
    Kind::View,
    Kind::View,
    Kind::TryView,
    Kind::Put,
    Kind::Put,
    Kind::Put,
    Kind::Put,
    Kind::Put,
    Kind::Put,
    Kind::PutIfAbsent,
    Kind::PutIfAbsent,
    Kind::Remove,
    Kind::Remove,
    Kind::Remove,
    Kind::RemoveIf,
    Kind::RemoveIf,
    Kind::Replace,
    Kind::ReplaceIf,
    Kind::ReplaceIf,
    Kind::Compute,
    Kind::Compute,
    Kind::ComputeIfAbsent,
    Kind::ComputeIfPresent,
    Kind::Merge,
    Kind::Merge,
    Kind::Update,
    Kind::Update,
    Kind::Update,
    Kind::TryUpdate,
    Kind::TryUpdate,
    Kind::Walk,
    Kind::ShowEach,
];

/// For how long a function stops in some histories, while a bin is locked: for so long that the other
/// clients make all of their calls, as far as they need no such bin.
const LONG: u32 = 2_000;

/// A history that is to be made: so many clients make so many calls each, on so many keys.
#[derive(Clone, Copy)]
pub(crate) struct Plan {
    pub(crate) seed: u64,
    pub(crate) form: Form,
    pub(crate) clients: u32,
    pub(crate) calls: u32,
    keys: u64,
    /// Whether clients put further keys between their calls, so that the table grows throughout.
    pub(crate) grows: bool,
    /// How often a function lets other threads run while a bin is locked, where it does.
    stall: u32,
}

impl Plan {
    /// The plan of a seed.
    pub(crate) fn new(seed: u64) -> Plan {
        let mut random = Random::new(seed);
        let clients = 2 + (random.draw() % 7) as u32;
        Plan {
            seed,
            form: if random.draw() % 2 == 0 {
                Form::Lean
            } else {
                Form::Recorded
            },
            clients,
            calls: CALLS / clients,
            keys: 1 + random.draw() % 8,
            grows: random.draw() % 4 != 0,
            stall: if random.draw() % 8 == 0 {
                LONG
            } else {
                (random.draw() % 400) as u32
            },
        }
    }

    /// How often a function lets other threads run: mostly not at all.
    pub(crate) fn pauses(&self, random: &mut Random) -> u32 {
        if random.draw() % 4 == 0 {
            self.stall
        } else {
            0
        }
    }

    /// A call. Its new value is given; the value that a conditional call wants is one that the
    /// client saw last at the key.
    pub(crate) fn call(&self, random: &mut Random, seen: &[u64; 8], value: u64) -> Asked {
        let drawn = random.draw();
        let key = (drawn >> 8) % self.keys.max(1);
        let wanted = seen[(key % 8) as usize];
        let kind = match (drawn >> 32) % 96 {
            0 => Kind::Clear,
            1 => Kind::Retain,
            _ => KINDS[(drawn % 41) as usize],
        };
        let (key, first, second) = match kind {
            Kind::RemoveIf => (key, wanted, 0),
            Kind::ReplaceIf => (key, wanted, value),
            Kind::Retain => (0, 2, value % 2),
            Kind::Walk | Kind::ShowEach | Kind::Clear => (0, 0, 0),
            Kind::Get
            | Kind::LookUp
            | Kind::Glance
            | Kind::Contains
            | Kind::View
            | Kind::TryView
            | Kind::Remove => (key, 0, 0),
            _ => (key, value, 0),
        };
        Asked {
            kind,
            key,
            first,
            second,
        }
    }
}
