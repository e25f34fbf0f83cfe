//! Counting words by many clients in one map.
ghost use Rattle.std.specs.Prelude.{◌≡◌, [], map, All, IfOk, IsOk, OnOk};
ghost use Rattle.bin_history.specs.Limits.{most_calls};
ghost use Rattle.word_count.specs.Counted.{AreCounts, HasCounted};

use anyhow::bail;
use clients::{Add, Bytes, Client, Fault, Loan, Team, Work};
use std::alloc::Global;
use std::sync::Wait;
use std::thread::Threads;

/// Words, each with how often it was counted.
pub(crate) type Counts<'a> = Vec<(Bytes<'a>, u64)>;

/// Counts the words of each part, which are one client's.
#[derive(Clone, Copy)]
struct Counting<'a, 'p> {
    parts: &'p [Vec<Bytes<'a>>],
}

/// Adds 1 to the count of each word.
fn count_part<'a, L: Loan, R: Wait>(
    rt: &R,
    client: &mut Client<'_, L, Bytes<'a>, u64, Add, Global>,
    part: &[Bytes<'a>],
) -> Result<(), Fault>
    ensures client { client.new.pass.client ≡ client.old.pass.client }
    ensures counted { OnOk result
        (client.old.pass.made ≡ [] → HasCounted (most_calls client.old.map.ledger.form
        client.old.map.ledger.clients) part.now client.new.pass.made) }
{
    for word in part {
        client.merge(rt, Bytes(word.0), 1, Add)?;
    }
    Ok(())
}

impl<'a> Work<Bytes<'a>, u64, Add, Global> for Counting<'a, '_> {
    ghost use Rattle.std.specs.Prelude.{◌≡◌, length};
    ghost use Rattle.bin_history.specs.declared.form.Form.TheVariants.{Lean};
    ghost use Rattle.word_count.specs.Counted.{HasWorked};

    type Out = Result<(), Fault>;

    ghost fits = { λ counting ledger. (ledger.form ≡ Lean)
        × (ledger.clients ≡ length counting.parts.now) };

    ghost does = { λ counting old new answer. HasWorked counting.parts.now old new answer };

    fn work<L: Loan, R: Wait>(
        &self,
        rt: &R,
        client: &mut Client<'_, L, Bytes<'a>, u64, Add, Global>,
    ) -> Result<(), Fault> {
        match self.parts.get(client.number()) {
            Some(part) => count_part(rt, client, part),
            None => Ok(()),
        }
    }
}

/// Whether all clients are done, or else why one is not.
fn all_done(answers: Vec<Result<(), Fault>>) -> Result<(), Fault>
    ensures { OnOk result (All IsOk answers.items) }
{
    for answer in answers {
        answer?;
    }
    Ok(())
}

/// The words of the parts, which are those of one client each, with their counts, in no order.
pub(crate) fn count<'a, R: Threads + Wait + Sync>(
    rt: &R,
    alloc: Global,
    parts: &[Vec<Bytes<'a>>],
) -> anyhow::Result<Counts<'a>>
    ensures { IfOk result (λ counts. AreCounts (map (λ part. part.items) parts.now) counts.items) }
{
    if parts.len() > 32 {
        bail!("there are more than 32 clients");
    }
    let mut team = Team::new(alloc, 4096, parts.len() as u32)?;
    let answers = team.work(rt, &Counting { parts })?;
    all_done(answers)?;
    let map = team.close()?;
    map.histories();
    match map.into_entries() {
        Ok(counts) => Ok(counts),
        Err(_map) => Err(Fault::NoMemory.into()),
    }
}
