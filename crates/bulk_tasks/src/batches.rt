//! How much the range of the bins is halved.
ghost use Rattle.std.specs.Prelude.{◌≡◌, ◌≤◌};
ghost use Rattle.steal_pool.specs.Limits.{most_batch};
ghost use Rattle.bulk_tasks.specs.Batches.{batch_of};
ghost use Rattle.bulk_tasks.specs.Plans.{AreWorkers};

/// Returns the batch of a bulk operation over so many entries: 0 leaves all to one task. The
/// threshold is the least number of entries worth a task of their own; `u64::MAX` asks for one
/// task, and 0 for as many as keep all workers busy.
pub fn batch(count: u64, threshold: u64, workers: usize) -> usize
    requires { AreWorkers workers }
    ensures batch { result ≡ batch_of count threshold workers }
    ensures most { result ≤ most_batch }
{
    if threshold == u64::MAX || count < 2 || count < threshold {
        return 0;
    }
    let most = 4 * workers;
    if threshold == 0 {
        return most;
    }
    let tasks = count / threshold;
    if tasks < most as u64 {
        tasks as usize
    } else {
        most
    }
}
