//! What a run of the benchmark is told.
ghost use Rattle.std.specs.Prelude.{◌<◌, ◌≤◌};

use crate::choice::Choice;
use bin_history::Form;
use clap::ArgMatches;

/// Which calls are made.
#[derive(Clone, Copy, PartialEq, Eq, Debug)]
pub(crate) enum Mode {
    /// Of a hundred calls about 80 gets, 15 puts and 5 removes.
    Mix,
    /// Gets alone.
    Get,
    /// Merges that add 1.
    Merge,
    /// Glances, which are no calls: nothing is posted.
    Glance,
    /// Look-ups, which copy the value.
    Look,
    /// Views, which do not.
    View,
    /// Updates that add 1.
    Update,
    /// Walks that show each entry where it lies.
    Walk,
    /// Walks that copy the entries of one bucket at a time.
    Copies,
    /// Walks that copy all entries into one list.
    List,
    /// Puts and removes of keys that are the thread's own, in turn, from an empty map on.
    Churn,
    /// Puts that fill an empty map.
    Fill,
    /// Puts that fill an empty map, each timed.
    Stall,
}

impl Mode {
    /// The word that names it.
    pub(crate) fn name(&self) -> &'static str {
        match self {
            Mode::Mix => "mix",
            Mode::Get => "get",
            Mode::Merge => "merge",
            Mode::Glance => "glance",
            Mode::Look => "look",
            Mode::View => "view",
            Mode::Update => "update",
            Mode::Walk => "walk",
            Mode::Copies => "copies",
            Mode::List => "list",
            Mode::Churn => "churn",
            Mode::Fill => "fill",
            Mode::Stall => "stall",
        }
    }

    /// Whether the calls put all keys.
    pub(crate) fn fills(&self) -> bool {
        matches!(self, Mode::Fill | Mode::Stall)
    }

    /// Whether the map is empty at first.
    pub(crate) fn begins_empty(&self) -> bool {
        matches!(self, Mode::Fill | Mode::Stall | Mode::Churn)
    }

    /// Whether each call goes over the map.
    pub(crate) fn walks(&self) -> bool {
        matches!(self, Mode::Walk | Mode::Copies | Mode::List)
    }

    fn named(name: &str) -> Mode {
        match name {
            "get" => Mode::Get,
            "merge" => Mode::Merge,
            "glance" => Mode::Glance,
            "look" => Mode::Look,
            "view" => Mode::View,
            "update" => Mode::Update,
            "walk" => Mode::Walk,
            "copies" => Mode::Copies,
            "list" => Mode::List,
            "churn" => Mode::Churn,
            "fill" => Mode::Fill,
            "stall" => Mode::Stall,
            _ => Mode::Mix,
        }
    }
}

/// Into which words of the count the threads add, which are called lanes: the client with number c adds
/// into lane c modulo 32.
#[derive(Clone, Copy, PartialEq, Eq, Debug)]
pub(crate) enum Lanes {
    /// Each into one of its own.
    Own,
    /// All into the first.
    One,
}

/// The workload: each of the threads makes so many calls on so many keys, of which every second one
/// is present at first; or the threads put all keys, of which none is.
#[derive(Clone, Copy, Debug)]
pub(crate) struct Settings {
    pub(crate) threads: u8,
    pub(crate) calls: u32,
    pub(crate) keys: u32,
    pub(crate) capacity: u16,
    pub(crate) mode: Mode,
    pub(crate) form: Form,
    pub(crate) choice: Choice,
    pub(crate) lanes: Lanes,
}

/// The run that is made without words.
pub(crate) const SMALL: Settings = Settings {
    threads: 4,
    calls: 2_000,
    keys: 500,
    capacity: 1,
    mode: Mode::Mix,
    form: Form::Lean,
    choice: Choice::Uniform,
    lanes: Lanes::Own,
};

impl Settings {
    /// The workload that the matches of `command` name.
    pub(crate) fn matched(matches: &ArgMatches) -> Settings {
        Settings {
            threads: matches.get_one::<u8>("threads").unwrap_or(4),
            calls: matches.get_one::<u32>("calls").unwrap_or(1_000_000),
            keys: matches.get_one::<u32>("keys").unwrap_or(20_000),
            capacity: matches.get_one::<u16>("capacity").unwrap_or(16),
            mode: Mode::named(matches.get_str("mode").unwrap_or("mix")),
            form: match matches.get_str("form").unwrap_or("lean") {
                "recorded" => Form::Recorded,
                _ => Form::Lean,
            },
            choice: match matches.get_str("choice").unwrap_or("uniform") {
                "zipf" => Choice::Zipf,
                _ => Choice::Uniform,
            },
            lanes: match matches.get_str("lanes").unwrap_or("own") {
                "one" => Lanes::One,
                _ => Lanes::Own,
            },
        }
    }

    /// How far the numbers of the clients lie apart that make calls.
    pub(crate) fn apart(&self) -> usize
        ensures some { 0 < result }
        ensures few { result ≤ 32 }
    {
        match self.lanes {
            Lanes::Own => 1,
            Lanes::One => 32,
        }
    }

    /// How many clients the map has: those that make calls, those between them, and one that fills it.
    pub(crate) fn clients(&self) -> u32 {
        u32::from(self.threads) * self.apart() as u32 + 1
    }

    /// How many calls the pass of the client with this number posts.
    pub(crate) fn posts(&self, client: usize) -> u64 {
        if client % self.apart() != 0 || self.mode.walks() {
            return 0;
        }
        match self.mode {
            Mode::Glance | Mode::Look | Mode::View => 0,
            Mode::Fill | Mode::Stall => {
                let others = (client / self.apart() % 256) as u32;
                u64::from(self.keys.saturating_sub(others).div_ceil(self.step()))
            }
            _ => u64::from(self.calls),
        }
    }

    /// How far the keys lie apart that one thread puts.
    pub(crate) fn step(&self) -> u32
        ensures { 0 < result }
    {
        u32::from(self.threads).max(1)
    }

    /// How many keys are there at first, unless the map is empty then.
    pub(crate) fn present(&self) -> u64 {
        u64::from(self.keys.div_ceil(2))
    }

    /// The sum of the values that all walks of a run show, modulo 2^64: the keys' numbers, 0, 2, 4 ..
    pub(crate) fn sum(&self) -> u64 {
        let one = self.present().wrapping_mul(self.present().wrapping_sub(1));
        one.wrapping_mul(u64::from(self.threads) * u64::from(self.calls))
    }

    /// How many calls the threads make together, or how many entries their walks show.
    pub(crate) fn all_calls(&self) -> u64 {
        let calls = u64::from(self.threads) * u64::from(self.calls);
        if self.mode.fills() {
            u64::from(self.keys)
        } else if self.mode.walks() {
            calls.saturating_mul(self.present())
        } else {
            calls
        }
    }
}

/// Bulk operations on a live map of so many entries, by so many workers, while two clients put and
/// remove other keys where `is_written`. Each operation runs so many times, and the best time is
/// printed; with 0 runs what it returns is printed.
#[derive(Clone, Copy, Debug)]
pub(crate) struct BulkSettings {
    pub(crate) entries: u32,
    pub(crate) capacity: u16,
    pub(crate) workers: u8,
    pub(crate) is_written: bool,
    pub(crate) runs: u32,
}

/// The bulk operations that are run without words.
pub(crate) const SMALL_BULK: BulkSettings = BulkSettings {
    entries: 100,
    capacity: 16,
    workers: 4,
    is_written: false,
    runs: 0,
};

impl BulkSettings {
    /// What the matches of `command` name.
    pub(crate) fn matched(matches: &ArgMatches) -> BulkSettings {
        BulkSettings {
            entries: matches.get_one::<u32>("entries").unwrap_or(1_000_000),
            capacity: matches.get_one::<u16>("capacity").unwrap_or(16),
            workers: matches.get_one::<u8>("workers").unwrap_or(4),
            is_written: match matches.get_str("writers").unwrap_or("0") {
                "2" => true,
                _ => false,
            },
            runs: matches.get_one::<u32>("runs").unwrap_or(20),
        }
    }
}
