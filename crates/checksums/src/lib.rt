// The checksum of words: their weighted sum.
#![tactic(auto)]

ghost use Rattle.std.specs.Prelude.{◌≡◌, ◌≤◌, length};
ghost use Rattle.checksums.specs.Sums.{weighted, most_words};

// The first word, twice the second, three times the third, ..: added up from the end, so that nothing
// is multiplied.
pub fn checksum(words: &[u32]) -> u64
    requires { length words.now ≤ most_words }
    ensures { result ≡ weighted words.now }
{
    let mut end: u64 = 0;
    let mut total: u64 = 0;
    for word in words.iter().rev() {
        end += *word as u64;
        total += end;
    }
    total
}
