//! Laws of plain maps, as contracts. The functions do nothing when they run.
ghost use Rattle.std.specs.Prelude.{◌≡◌, ℤ, pos, ◌+ℤ◌, Bool, List, Option, length};
ghost use Rattle.bin_history.specs.Calls.{after};
ghost use Rattle.bin_history.specs.Cells.{records_on, cell_after, IsCellHistory};
ghost use Rattle.bin_history.specs.Deltas.{sum_of_deltas};
ghost use Rattle.bin_history.specs.Entries.{lookup, HasDistinctKeys, replay};
ghost use Rattle.bin_history.specs.Part.{part_of_map, part_of_records};
ghost use Rattle.bin_history.specs.Plain.{run, IsLegal};
ghost use Rattle.bin_history.specs.Records.{RecordView};

use crate::call::Remap;
use hashkeys::HashKey;

/// The part of a run, at the keys that any test passes, is the run of the part; and the part of a
/// legal list is legal on the part of the map.
pub fn part_of_a_run<K: HashKey, V: Eq, F: Remap<K, V>>()
    ensures run { (test : K → Bool) (map : K → Option V) (rs : List (RecordView K V F)) (k : K)
        → run K.eq (part_of_map test map) (part_of_records test rs) k ≡ part_of_map test
        (run K.eq map rs) k }
    ensures legal { (test : K → Bool) (map : K → Option V) (rs : List (RecordView K V F))
        → IsLegal K.eq (after V.eq F.remapped F.merged) map rs
        → IsLegal K.eq (after V.eq F.remapped F.merged) (part_of_map test map)
        (part_of_records test rs) }
{}

/// In a legal list each key by itself behaves as a cell of one thread, and a list in which each key
/// does is legal.
pub fn cells_of_a_run<K: HashKey, V: Eq, F: Remap<K, V>>()
    ensures history { (map : K → Option V) (rs : List (RecordView K V F)) (k : K)
        → IsLegal K.eq (after V.eq F.remapped F.merged) map rs
        → IsCellHistory (after V.eq F.remapped F.merged) (map k) (records_on K.eq k rs) }
    ensures value { (map : K → Option V) (rs : List (RecordView K V F)) (k : K)
        → run K.eq map rs k ≡ cell_after (map k) (records_on K.eq k rs) }
    ensures legal { (map : K → Option V) (rs : List (RecordView K V F))
        → ((k : K) → IsCellHistory (after V.eq F.remapped F.merged) (map k) (records_on K.eq k rs))
        → IsLegal K.eq (after V.eq F.remapped F.merged) map rs }
{}

/// The deltas of a legal list add up to the change of the number of keys.
pub fn count_after_a_run<K: HashKey, V: Eq, F: Remap<K, V>>()
    ensures { (base : List (K × V)) (rs : List (RecordView K V F))
        → HasDistinctKeys K.eq base
        → IsLegal K.eq (after V.eq F.remapped F.merged) (lookup K.eq base) rs
        → pos (length (replay K.eq base rs)) ≡ pos (length base) +ℤ sum_of_deltas rs }
{}
