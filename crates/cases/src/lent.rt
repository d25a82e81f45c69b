// Memory that is lent to a reader or a writer: filled with a pattern before, so that it shows afterwards what was changed.
ghost use Rattle.std.specs.Prelude.{◌≡◌, ℕ, ◌+◌, ◌%◌, ◌<◌, ◌≤◌, true, length, slice_index, slice_index_or};

// Puts at each place what a pattern has there.
fn fill_by<T: Copy, F: Fn(usize) -> T>(lent: &mut [T], pattern: F)
    requires { F.IsAlwaysCallable pattern }
    ensures { (k : ℕ) (d : T) → k < length lent.old → F.post pattern k (slice_index_or lent.new k d) }
{
    for (i, item) in lent.iter_mut().enumerate() {
        *item = pattern(i);
    }
}

// Whether every item from `from` on is as it was filled, which `is_kept` says of one and its place. By places, and not `skip(from)`: a loop
// over that has no place for its invariant to name.
fn kept_by<T: Copy, F: Fn(usize, T) -> bool>(lent: &[T], from: usize, is_kept: F) -> bool
    requires { F.IsAlwaysCallable is_kept }
    ensures { result ≡ true → (k : ℕ) (d : T) → k < length lent.now → from ≤ k → F.post is_kept k (slice_index_or lent.now k d) true }
{
    for i in from..lent.len() {
        if !is_kept(i, lent[i]) {
            return false;
        }
    }
    true
}

// No letter, digit or small number, which a writer might put by mistake, and no octet like its neighbours.
fn pattern(i: usize) -> u8
    ensures { result ≡ 165 + i % 64 }
{
    (165 + i % 64) as u8
}

pub fn fill(lent: &mut [u8])
    ensures { (k : ℕ) → k < length lent.old → slice_index lent.new k ≡ 165 + k % 64 }
{
    fill_by(lent, pattern);
}

// Whether every octet from `from` on is as `fill` left it.
pub fn kept(lent: &[u8], from: usize) -> bool
    ensures { result ≡ true → (k : ℕ) → k < length lent.now → from ≤ k → slice_index lent.now k ≡ 165 + k % 64 }
{
    kept_by(lent, from, |i, b| b == pattern(i))
}

// The same for words: no letter, number or place of a small case, and no word like its neighbours.
const WORD: u64 = 0xA5C3_0000_0000_0000;

fn word_pattern(i: usize) -> u64
    ensures { result ≡ 11944390636716687360 + i % 65536 }
{
    WORD + (i % 65536) as u64
}

pub fn fill_words(lent: &mut [u64])
    ensures { (k : ℕ) → k < length lent.old → slice_index lent.new k ≡ 11944390636716687360 + k % 65536 }
{
    fill_by(lent, word_pattern);
}

// Whether every word from `from` on is as `fill_words` left it.
pub fn kept_words(lent: &[u64], from: usize) -> bool
    ensures { result ≡ true → (k : ℕ) → k < length lent.now → from ≤ k → slice_index lent.now k ≡ 11944390636716687360 + k % 65536 }
{
    kept_by(lent, from, |i, word| word == word_pattern(i))
}
