// Going through a text byte by byte: where its words begin and end, how many there are, and whether two
// are spelled alike; with every letter table that keeps the rules.
#![tactic(auto)]

ghost use Rattle.std.specs.Prelude.{◌≡◌, true, false, MatchResult, ◌+◌, ◌≤◌, length, drop};
ghost use Rattle.base.specs.Lists.{same};
ghost use Rattle.lexicon.specs.Letters.{letters as lettersOf, is_table};
ghost use Rattle.lexicon.specs.Reading.{text_words};
ghost use Rattle.scanning.specs.Scans.{letter_at, start_from, run_at, words_at, WordBegins, bucket_of};

use base::refusal::Refusal;

// The number of buckets in which words are put.
pub const BUCKETS: usize = 65536;

// A letter table that keeps the rules, by which texts are read.
#[derive(Clone, Copy)]
pub struct Letters<'a> {
    pub table: &'a [u8],
    ghost rule: { is_table table.now ≡ true },
}

// Where a word ends, and its bucket.
#[derive(Clone, Copy)]
pub struct Scan {
    pub end: usize,
    pub bucket: usize,
}

impl<'a> Letters<'a> {
    // The letter table.
    pub fn built_in() -> Letters<'static>
        ensures { result.table.now ≡ lettersOf }
    {
        Letters {
            table: &lexicon::LETTERS,
        }
    }

    // A table that is lent, if it keeps the rules.
    pub fn checked(table: &'a [u8]) -> Result<Letters<'a>, Refusal>
        ensures { MatchResult result (λ letters. (letters.table.now ≡ table.now) × (is_table table.now ≡ true)) (λ refusal. (refusal ≡ Refusal.Table) × (is_table table.now ≡ false)) }
    {
        if lexicon::is_table(table) {
            Ok(Letters { table })
        } else {
            Err(Refusal::Table)
        }
    }

    // The letter at a position of a text, 0 at its end.
    pub fn letter_at(&self, text: &[u8], at: usize) -> u8
        ensures { result ≡ letter_at self.now.table.now text.now at }
    {
        if at < text.len() {
            self.table[usize::from(text[at])]
        } else {
            0
        }
    }

    // Where the first word at or after a position begins; the end of the text where there is none.
    pub fn word_start(&self, text: &[u8], at: usize) -> usize
        requires { at ≤ length text.now }
        ensures { result ≡ start_from self.now.table.now text.now at }
    {
        for start in at..text.len() {
            if 0 < self.table[usize::from(text[start])] {
                return start;
            }
        }
        text.len()
    }

    // The end and the bucket of the word that begins at a position.
    pub fn scan_word(&self, text: &[u8], start: usize) -> Scan
        requires { start ≤ length text.now }
        ensures { (result.end ≡ start + length (run_at self.now.table.now text.now start)) × (result.bucket ≡ bucket_of (run_at self.now.table.now text.now start)) }
    {
        let mut bucket = 0;
        for end in start..text.len() {
            let letter = usize::from(self.table[usize::from(text[end])]);
            if letter == 0 {
                return Scan { end, bucket };
            }
            bucket = (bucket * 40503 + letter) % BUCKETS;
        }
        Scan {
            end: text.len(),
            bucket,
        }
    }

    // The number of words of a text.
    pub fn text_size(&self, text: &[u8]) -> usize
        ensures { result ≡ length (text_words self.now.table.now text.now) }
    {
        let mut words: usize = 0;
        let mut start = self.word_start(text, 0);
        while start < text.len() {
            let scan = self.scan_word(text, start);
            words += 1;
            start = self.word_start(text, scan.end);
        }
        words
    }

    // Whether the word that begins at a position of a text and the one that begins at a position of a
    // list are spelled alike.
    pub fn same_word(&self, text: &[u8], start: usize, list: &[u8], at: usize) -> bool
        requires { (start ≤ length text.now) × (at ≤ length list.now) }
        ensures { result ≡ same (run_at self.now.table.now text.now start) (run_at self.now.table.now list.now at) }
    {
        // The letters end the comparison, at no place that is known before; a range has to have an end.
        let mut i: usize = 0;
        loop {
            let letter = self.letter_at(text, start + i);
            if letter != self.letter_at(list, at + i) {
                return false;
            }
            if letter == 0 {
                return true;
            }
            i += 1;
        }
    }

    // Where the word begins that is so many words behind the one at a position; the end of the text
    // where they are the last.
    pub fn skip_words(&self, text: &[u8], at: usize, size: usize) -> usize
        requires { WordBegins self.now.table.now text.now at × (size ≤ length (words_at self.now.table.now text.now at)) }
        ensures { WordBegins self.now.table.now text.now result × (words_at self.now.table.now text.now result ≡ drop size (words_at self.now.table.now text.now at)) }
    {
        let mut start = at;
        for _ in 0..size {
            let scan = self.scan_word(text, start);
            start = self.word_start(text, scan.end);
        }
        start
    }
}
