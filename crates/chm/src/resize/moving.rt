//! What calls do for the table once their own work is done. It waits for nobody, and what fails here
//! fails no call.
ghost use Rattle.std.specs.Prelude.{◌≡◌, ◌≤◌, ◌<◌, ◌^◌};
ghost use Rattle.hashkeys.specs.Classes.{IsTableSize};
ghost use Rattle.hashkeys.specs.Limits.{most_exponent};
ghost use Rattle.chm.specs.Sizes.{most_bins_of};
ghost use Rattle.transfer.specs.Views.{IsUnfinished};

use crate::map::Map;
use crate::resize::policy::{Growth, helps, is_due, is_full, most_bins};
use crate::resize::resizer::{Resize, ResizeState};
use bin_history::{Remap, Value};
use bin_layout::Refused;
use count_ledger::Pass;
use hashkeys::{Class, HashKey};
use std::alloc::Allocator;
use transfer::{Finish, Mover, Range};

impl<K: HashKey, V: Value, F: Remap<K, V>, A: Allocator + Clone> Map<K, V, F, A> {
    /// Does a call's part for the table, by the class of the bin that the call met and what it did to the
    /// keys there: it moves a bin that the table has outgrown, helps a move that is ready with one stride,
    /// and opens a move where the table is full. Most calls have nothing to do: they look at the resize word
    /// alone.
    // One function for all calls: when each kind of call did this work itself, it was not inlined.
    #[inline(always)]
    pub(crate) fn after_call(&self, pass: &Pass<K, V, F>, class: Class, growth: Growth) {
        let table = self.resizer.table();
        if !table.is_settled_for(class) {
            self.catch_up(table, class, pass.client());
        }
        if growth.grew {
            self.look_whether_full(table, pass, growth.crowded);
        }
    }

    /// Moves a bin that the table has outgrown, and helps a move that is ready with one stride.
    #[cold]
    #[inline(never)]
    fn catch_up(&self, table: ResizeState, class: Class, client: u32)
        requires table { table.exponent ≤ most_exponent }
    {
        if class.n() < table.n() {
            self.move_bin(class);
        }
        if helps(self.form(), self.bins.n() < class.n()) {
            self.help(table, client);
        }
    }

    /// Opens a move where the table is full, if it is the client's turn to look, by its balance, or the
    /// call's bin is crowded.
    #[inline(never)]
    fn look_whether_full(&self, table: ResizeState, pass: &Pass<K, V, F>, crowded: bool)
        requires table { table.exponent ≤ most_exponent }
    {
        if is_due(self.form(), table.n(), pass.balance(), crowded) {
            self.grow_if_full(table, pass.client());
        }
    }

    /// Opens a move where the table is full.
    fn grow_if_full(&self, table: ResizeState, client: u32)
        requires table { table.exponent ≤ most_exponent }
    {
        if is_full(self.form(), table.n(), self.mapping_count()) {
            self.grow(table, client);
        }
    }

    /// Moves one bin into its halves. Where another call has it locked, or out of memory, it stays,
    /// and a later call on it moves it; under a wider bin it stays too.
    fn move_bin(&self, class: Class) {
        if self.bins.n() <= class.n() && class.n() < most_bins(self.form()) {
            // where it fails, the bin stays
            let _ = self.bins.try_forward(&self.ledger, class);
        }
    }

    /// Moves the bins of a range that the mover claimed, and publishes the wider table where it was
    /// the last.
    fn move_range(&self, resize: &Resize<A>, mover: &mut Mover, range: Range)
        requires mover { mover.old.strides ≡ resize.now.move_strides }
        requires range { IsUnfinished mover.old range }
        ensures mover { mover.new.strides ≡ mover.old.strides }
        ensures claimed { mover.new.claimed ≡ mover.old.claimed }
    {
        let n = resize.n();
        for index in range.lo..range.hi.min(n as usize) {
            self.move_bin(Class::new(n, index as u32));
        }
        if resize.move_strides.finish(mover, range) == Finish::Last {
            self.resizer.publish(resize, mover);
        }
    }

    /// Takes part in the open move with one stride, if there is a mover left for the client.
    fn help(&self, table: ResizeState, client: u32) {
        if let Some(resize) = self.resizer.open_move(table) {
            self.take_turn(resize, client);
        }
    }

    /// Moves one stride of a move, if there is a mover left for the client.
    fn take_turn(&self, resize: &Resize<A>, client: u32) {
        let move_strides = &resize.move_strides;
        let Some(mut mover) = move_strides.enter(client) else {
            return;
        };
        // one stride, so that no call does much of the work of others
        if let Some(range) = move_strides.claim(&mut mover) {
            self.move_range(resize, &mut mover, range);
        }
        move_strides.leave(client, mover);
    }

    /// Makes the places of a table of twice as many bins.
    fn widen(&self, n: u32) -> Result<(), Refused>
        requires size { IsTableSize n }
        requires few { n < most_bins_of self.now.ledger.form }
    {
        if self.bins.n() <= n {
            self.bins.try_widen(2 * n)
        } else {
            Ok(())
        }
    }

    /// Tries to open a move from a table that is not the widest of the form, and then moves strides
    /// until none is left, or in a lean map one. Out of memory for its places or its strides there is
    /// no move.
    fn grow(&self, table: ResizeState, client: u32)
        requires table { table.exponent < most_exponent }
        requires few { 2 ^ table.exponent < most_bins_of self.now.ledger.form }
    {
        let slot = self.resizer.slot(table);
        // Whoever has `opening` has to say that the move is ready, or shut it: then a later call opens it.
        let Some(opening) = self.resizer.open(table) else {
            return;
        };
        // before the move opens, so that no bucket has to wait for its place
        if self.widen(table.n()).is_err() {
            self.resizer.shut(opening);
            return;
        }
        let Ok((resize, opener)) = self
            .resizer
            .make_move(&opening, self.form(), self.clients())
        else {
            self.resizer.shut(opening);
            return;
        };
        let Ok(resize) = slot.set(resize) else {
            self.resizer.shut(opening);
            return;
        };
        self.resizer.ready(opening);
        match opener {
            Some(mover) => self.move_all_left(resize, client, mover),
            None => self.take_turn(resize, client),
        }
    }

    /// Moves strides until none is left.
    fn move_all_left(&self, resize: &Resize<A>, client: u32, mover: Mover)
        requires mover { mover.strides ≡ resize.now.move_strides }
    {
        let mut mover = mover;
        while let Some(range) = resize.move_strides.claim(&mut mover) {
            self.move_range(resize, &mut mover, range);
        }
        resize.move_strides.leave(client, mover);
    }
}
