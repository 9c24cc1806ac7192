// A line that ends in bytes, entered.
ghost use Rattle.std.specs.Prelude.{◌≡◌, length, ◌≤◌};
ghost use Rattle.replay_session.specs.Inner.Enter.{Small, PairsAs, SameLists, arrays_of, longest_kept};

use super::{Lists, Malformed, Session, counts_of};
use replay_frames::Line;
use text_hex::digits::is_pairs;

impl Session {
    // `ds` are the digits of the bytes. `Small` stays a clause, as for `enter_read`.
    pub fn enter_pairs(self, l: Line, ds: &[u8], lists: &mut Lists) -> Result<Session, Malformed>
        requires small { Small self.call }
        requires few { length ds.now ≤ longest_kept }
        ensures same { SameLists lists.old lists.new }
        ensures readings { lists.new.readings.now ≡ lists.old.readings.now }
        ensures entered { PairsAs l ds.now self.call self.slave (arrays_of lists.old)
            (arrays_of lists.new) result }
    {
        if is_pairs(ds) {
            lists.put_pairs(counts_of(self.call).filled, ds);
            return self.enter_bytes(l, ds.len() / 2, lists);
        }
        Err(Malformed)
    }
}
