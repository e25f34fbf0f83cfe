//! Calls that change the value at a key by what it is, under one lock.
ghost use Rattle.std.specs.Prelude.{◌≡◌, ◌≤◌, ⊤, length, option_copied, IfSome, IfNone};
ghost use Rattle.bin_history.specs.Ops.{key_in};
ghost use Rattle.chm.specs.Updates.{IsUpdate};
ghost use Rattle.facing_maps.specs.Answers.{answered};
ghost use Rattle.facing_maps.specs.Changes.{IsChanged, IsChangeTried};
ghost use Rattle.facing_maps.specs.Keys.{key_of, same_key, IsRefusal};
ghost use Rattle.facing_maps.specs.Statuses.{facing_longest};

use crate::keys::{Keys, SeededKey};
use crate::stage::Stage;
use crate::status::{MOST_BYTES, NO_MEMORY, TOO_LONG};
use bin_history::{KeyArg, Remap, Value};
use chm::Fault;
use clients::{Change, OwnedClient};
use hashkeys::HashKey;
use std::alloc::{AllocError, Global};

/// What a change tells: whether it was made, and the value that it saw or left.
#[derive(Drop)]
pub struct Changed<V> {
    pub made: bool,
    pub value: Option<V>,
}

/// What a change tells, or that there was no memory to tell it: then the value stays as it was.
pub type ChangeReply<V> = Result<Changed<V>, AllocError>;

/// What came of a change that was to be tried: what it told or why it was refused, or none where
/// another thread was in its way; or the status for which it was not tried.
pub type ChangeOutcome<V> = Result<Option<Result<ChangeReply<V>, Fault>>, u32>;

/// A change of the value at a key, which may depend on the value.
pub trait Changing<V>: Drop {
    ghost use Rattle.std.specs.Prelude.{Option, option_copied};
    ghost use Rattle.chm.specs.declared.calls.update.Change.{Change};
    ghost use Rattle.facing_maps.specs.Changes.{ChangeReply};

    ghost changes: { Self → Option V → Change V × ChangeReply V → Type 0 };

    /// The change, by the value that it sees, and what is told of it.
    fn change(self, seen: Option<&V>) -> (Change<V>, ChangeReply<V>)
        ensures { changes self (option_copied seen.entry) result };
}

/// Tries a change on a key.
fn try_change_with<K: HashKey, V: Value, F: Remap<K, V>, C: Changing<V>>(
    client: &mut OwnedClient<K, V, F, Global>,
    key: KeyArg<'_, K>,
    changing: C,
) -> Option<Result<ChangeReply<V>, Fault>>
    ensures updated { IfSome result (IsUpdate K.eq V.eq F.remapped F.merged
        (λ shown made. C.changes changing (option_copied shown) made) client.old.map.ledger
        (key_in key.entry) client.old.pass client.new.pass) }
    ensures busy { IfNone result (client.new.pass ≡ client.old.pass) }
    ensures map { client.new.map ≡ client.old.map }
{
    client.try_update(key, move |seen: Option<&V>| changing.change(seen))
}

impl<K: HashKey, V: Value, F: Remap<K, V>> Stage<K, V, F> {
    /// Tries a change on this key, by the client that this is, if it is one. It waits for nobody.
    pub fn try_change<C: Changing<V>>(
        &mut self,
        key: KeyArg<'_, K>,
        changing: C,
    ) -> Option<ChangeOutcome<V>>
        ensures { IsChanged K.eq V.eq F.remapped F.merged ⊤ (λ _. ⊥) (C.changes changing) self.old
            (key_in key.entry) self.new (answered result) }
    {
        match self {
            Stage::Client(client) => Some(Ok(try_change_with(client, key, changing))),
            _ => None,
        }
    }
}

/// Tries a change on the key of these bytes, which is made in the room of the keys.
pub(crate) fn try_change_at<V: Value, F: Remap<SeededKey, V>, C: Changing<V>>(
    client: &mut OwnedClient<SeededKey, V, F, Global>,
    keys: &mut Keys,
    key: &[u8],
    changing: C,
) -> ChangeOutcome<V>
    ensures tried { IsChangeTried same_key V.eq F.remapped F.merged
        (length key.now ≤ facing_longest) (IsRefusal (length key.now)) (C.changes changing)
        client.old.map.ledger (key_of keys.old key.now) client.old.pass client.new.pass result }
    ensures map { client.new.map ≡ client.old.map }
    ensures seed { keys.new ≡ keys.old }
{
    if key.len() > MOST_BYTES {
        return Err(TOO_LONG);
    }
    match keys.key(key) {
        Ok(made) => {
            let tried = try_change_with(client, KeyArg::Borrowed(&made), changing);
            keys.take_back(made);
            Ok(tried)
        }
        Err(_) => Err(NO_MEMORY),
    }
}

/// Tries a change on the key of these bytes, by the client that this is, if it is one. It waits for
/// nobody.
pub fn try_change_on<V: Value, F: Remap<SeededKey, V>, C: Changing<V>>(
    stage: &mut Stage<SeededKey, V, F>,
    keys: &mut Keys,
    key: &[u8],
    changing: C,
) -> Option<ChangeOutcome<V>>
    ensures changed { IsChanged same_key V.eq F.remapped F.merged
        (length key.now ≤ facing_longest) (IsRefusal (length key.now)) (C.changes changing) stage.old
        (key_of keys.old key.now) stage.new (answered result) }
    ensures seed { keys.new ≡ keys.old }
{
    match stage {
        Stage::Client(client) => Some(try_change_at(client, keys, key, changing)),
        _ => None,
    }
}
