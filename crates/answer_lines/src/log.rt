// The log of the open call: the entries that its frames write down again, as far as there is room.
ghost use Rattle.std.specs.Prelude.{ℕ, List, ◌≡◌, [], ◌≤◌, length, take};
ghost use Rattle.answer_lines.specs.Lines.{kept_on};

use counts::least;
use explain_bus::kept::keep;
use std::marker::Model;

// The words of 8,192 entries.
pub const LOG_WORDS: usize = 16384;

// The words, and how many of them are used. That count stays beside an array: a Vec would need the heap. No
// contract sees it, since the model is the words that are used.
#[derive(Drop)]
pub struct Log {
    words: [u32; LOG_WORDS],
    used: usize,
}

impl Model for Log {
    ghost Value = { List ℕ };

    ghost view = { λ l. take l.used l.words };

    ghost invariant = { λ l. l.used ≤ 16384 };
}

impl Log {
    // With no entry.
    pub fn new() -> Log
        ensures { result ≡ [] }
    {
        Log {
            words: [0; LOG_WORDS],
            used: 0,
        }
    }

    // With these words, as far as there is room: what a caller kept in words of its own. `words` gives them back.
    pub fn of(words: &[u32]) -> Log
        ensures { result ≡ take 16384 words.now }
    {
        let used = least(LOG_WORDS, words.len());
        let mut all = [0; LOG_WORDS];
        all[..used].copy_from_slice(&words[..used]);
        Log { words: all, used }
    }

    // The words that are used.
    pub fn words(&self) -> &[u32]
        ensures same { result.now ≡ self.now }
        ensures few { length result.now ≤ 16384 }
    {
        &self.words[..self.used]
    }

    // Forgets all entries.
    pub fn clear(&mut self)
        ensures { self.new ≡ [] }
    {
        self.used = 0;
    }

    // Adds what a line adds.
    pub fn keep(&mut self, line: &[u8])
        ensures { self.new ≡ kept_on self.old line.now }
    {
        self.used = least(keep(line, &mut self.words, self.used), LOG_WORDS);
    }
}
