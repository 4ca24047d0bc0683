// Tables as lent words: rows of so many words each, from a place on. One search serves every lookup and every list of sessions.
ghost use Rattle.std.specs.Prelude.{◌≡◌, true, get_or, length};
ghost use Rattle.uds.specs.Table.{column, key_place, place_of, examined_of, InWords};

// Fewer rows, and fewer words in a row, than this are asked whether they stand in the words.
const FEW: usize = 0x1_0000_0000;

// How many of a table's rows a lookup examined to answer so, where it answers the number of the first row that has the key, counted
// from 0: the one that it found included, or all of them.
pub fn examined(found: Option<usize>, rows: usize) -> usize
    ensures { result ≡ examined_of found rows }
{
    match found {
        Some(i) if i < rows => i + 1,
        _ => rows,
    }
}

// The word at a place: 0 past the end.
pub fn word(words: &[u32], at: usize) -> u32
    ensures { result ≡ get_or words.now at 0 }
{
    words.get(at).copied().unwrap_or(0)
}

// Where one word of each row stands: that of the first row at `from`, and rows are `step` words apart.
#[derive(Clone, Copy, PartialEq, Eq)]
pub struct Column {
    pub from: usize,
    pub step: usize,
}

impl Column {
    // The word of row `i`. A row number may be any: past the end the words are 0.
    pub fn cell(self, words: &[u32], i: usize) -> u32
        ensures { result ≡ column words.now self.from self.step i }
    {
        if words.len() <= self.from {
            return 0;
        }
        if self.step == 0 {
            return word(words, self.from);
        }
        if words.len() / self.step < i {
            return 0;
        }
        word(words, self.from + i * self.step)
    }

    // All of `rows` rows stand in so many words. From 2^32 rows or words in a row on it is not asked, so that the product fits.
    fn in_words(self, len: usize, rows: usize) -> bool
        ensures { result ≡ true → InWords len self.from self.step rows }
    {
        self.from < len && rows < FEW && self.step < FEW && rows * self.step <= len - self.from
    }

    // The first of `rows` rows whose word is the key, where all of them stand in the words: no row needs a test of its place.
    fn walk(self, words: &[u32], rows: usize, key: u32) -> Option<usize>
        requires { InWords (length words.now) self.from self.step rows }
        ensures { place_of result ≡ key_place words.now self.from self.step rows key }
    {
        let mut at = self.from;
        for i in 0..rows {
            if words[at] == key {
                return Some(i);
            }
            at += self.step;
        }
        None
    }

    // The same, wherever the rows stand.
    fn walk_past(self, words: &[u32], rows: usize, key: u32) -> Option<usize>
        ensures { place_of result ≡ key_place words.now self.from self.step rows key }
    {
        for row in 0..rows {
            if self.cell(words, row) == key {
                return Some(row);
            }
        }
        None
    }

    // The first of `rows` rows whose word is the key.
    pub fn find(self, words: &[u32], rows: usize, key: u32) -> Option<usize>
        ensures { place_of result ≡ key_place words.now self.from self.step rows key }
    {
        if self.in_words(words.len(), rows) {
            return self.walk(words, rows, key);
        }
        self.walk_past(words, rows, key)
    }
}
