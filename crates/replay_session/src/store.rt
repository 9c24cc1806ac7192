// How far the lent slices are filled, and the stores into them.
ghost use Rattle.std.specs.Prelude.{◌≡◌, ◌≤◌, true, set};
ghost use Rattle.text_hex.specs.Pairs.{whole_pairs};
ghost use Rattle.replay_session.specs.Inner.Enter.{no_counts, over_of, more, added_to, one_reading};
ghost use Rattle.replay_session.specs.Inner.Enter.{Few, FewIf, Within, SameLists};
ghost use Rattle.replay_session.specs.Inner.Enter.{arrays_of, stored, with_reading, PutBehind};

use super::{Counts, Filled, Lists};
use text_hex::digits::{put, put_bytes};

impl Filled {
    // With one more operation, of b bytes to write and m to read, unless that is beyond the limits. The
    // struct stays written out: all of its fields change, so that `..self` would leave none to take
    // over.
    #[tactic(auto, unfolding(crate::specs::Inner::Enter::more))]
    fn added(self, b: usize, m: usize) -> Option<Filled>
        requires few { Few self }
        requires bytes { b ≤ 65535 }
        requires reads { m ≤ 65535 }
        ensures { result ≡ more self b m }
    {
        if (64 < self.ops + 1) | (4096 < self.bytes + b) | (4096 < self.reads + m) {
            return None;
        }
        Some(Filled {
            ops: self.ops + 1,
            bytes: self.bytes + b,
            reads: self.reads + m,
        })
    }
}

impl Counts {
    pub fn none() -> Counts
        ensures { result ≡ no_counts }
    {
        let filled = Filled {
            ops: 0,
            bytes: 0,
            reads: 0,
        };
        Counts {
            filled: Some(filled),
            readings: 0,
        }
    }

    pub fn over(self) -> Counts
        ensures { result ≡ over_of self }
    {
        Counts {
            filled: None,
            ..self
        }
    }

    // One more operation, of b bytes to write and m to read.
    pub fn added(self, b: usize, m: usize) -> Counts
        requires within { Within self }
        requires bytes { b ≤ 65535 }
        requires reads { m ≤ 65535 }
        ensures { result ≡ added_to self b m }
    {
        match self.filled {
            Some(filled) => Counts {
                filled: filled.added(b, m),
                ..self
            },
            None => self,
        }
    }

    pub fn one_more(self) -> Counts
        requires { self.readings ≤ 8192 }
        ensures { result ≡ one_reading self }
    {
        Counts {
            readings: self.readings + 1,
            ..self
        }
    }
}

impl<'a> Lists<'a> {
    // An operation of this kind and length, where the operations are within the limits. The kind stays
    // a number: it is stored as one in the list that the master's calls are lent, as C lends it.
    pub fn put_operation(&mut self, filled: Option<Filled>, kind: u8, length: u16)
        ensures same { SameLists self.old self.new }
        ensures put { arrays_of self.new ≡ stored filled (arrays_of self.old) kind length }
    {
        if let Some(filled) = filled {
            put(self.kinds, filled.ops, kind);
            put(self.lengths, filled.ops, length);
        }
    }

    // The bytes that pairs of digits write, behind those of the call. That `ds` are pairs stays a
    // clause: a type for it would be made once, by the caller that has tested them, and be taken apart
    // here again.
    pub fn put_pairs(&mut self, filled: Option<Filled>, ds: &[u8])
        requires pairs { whole_pairs ds.now ≡ true }
        requires few { FewIf filled }
        ensures same { SameLists self.old self.new }
        ensures put { PutBehind ds.now filled (arrays_of self.old) (arrays_of self.new) }
    {
        if let Some(filled) = filled {
            put_bytes(ds, self.bytes, filled.bytes);
        }
    }

    // A reading.
    pub fn put_reading(&mut self, at: usize, word: u32)
        ensures same { SameLists self.old self.new }
        ensures put { arrays_of self.new ≡ with_reading at (arrays_of self.old) word }
    {
        put(self.readings, at, word);
    }
}
