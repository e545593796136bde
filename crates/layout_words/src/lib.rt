// Eight bytes at once, as one number: whether they fit a sample or flags, and the numbers of three or four pairs of
// digits.
#![tactic(auto)]

ghost use Rattle.std.specs.Prelude.{◌≡◌};
ghost use Rattle.clock_time.specs.Lists.{slice};
ghost use Rattle.layout_words.specs.Words.{word, enough, sample_fits, by_sample, each_by_sample, numbers_at};
ghost use Rattle.layout_words.specs.Words.{four_numbers_at, flags_fit, nonzero_bytes, seven_pairs};

// The number of eight bytes side by side, the first the lowest.
fn join(bytes: [u8; 8]) -> u64
    ensures { result ≡ word bytes }
{
    bits::join_eight(bytes)
}

// The number of the eight bytes from a place on, the first the lowest; 0 if eight are not there, and no Option: the
// definition `enough` takes all bytes for 0 then, and a test of it would cost each reader one.
pub fn word_at(s: &[u8], at: usize) -> u64
    ensures { result ≡ word (slice at 8 (enough at s.now)) }
{
    if let Some((_, rest)) = s.split_at_checked(at) {
        if let Some(bytes) = rest.first_chunk::<8>() {
            return join(*bytes);
        }
    }
    0
}

#[tactic(auto, unfolding(crate::specs::Words::by_sample))]
fn by_sample(p: u8, digit: u8, any: u8, fixed: u8) -> u8
    ensures { result ≡ by_sample digit any fixed p }
{
    match p {
        b'0' => digit,
        b'?' => any,
        _ => fixed,
    }
}

// Eight bytes side by side, one for each of a sample's: `digit` for a digit, `any` for any byte, `fixed` for one that
// stands for itself.
fn join_by_sample(sample: [u8; 8], digit: u8, any: u8, fixed: u8) -> u64
    ensures { result ≡ word (each_by_sample digit any fixed sample) }
{
    join(sample.map(move |p| by_sample(p, digit, any, fixed)))
}

// Whether the eight bytes from a place on are as a sample says: `0` for a digit, `?` for any byte, another for itself.
// Bytes count as 0 if eight are not there. A byte's difference from the sample, bit by bit, is at most 9 at a digit
// and 0 at a fixed byte: a greater one has the high bit, or gets it when 118 or 127 is added.
pub fn eight_fit(s: &[u8], at: usize, sample: [u8; 8]) -> bool
    ensures { result ≡ sample_fits at sample s.now }
{
    let difference = word_at(s, at) ^ join(sample);
    let more = join_by_sample(sample, 118, 0, 127);
    let high = join_by_sample(sample, 128, 0, 128);
    (difference | difference.wrapping_add(more)) & high == 0
}

// The high bit of each byte that is not 0: 127 added to the seven low bits sets it, or it is set already.
fn nonzero(w: u64) -> u64
    ensures { result ≡ nonzero_bytes 8 w }
{
    let low = join([127; 8]);
    let high = join([128; 8]);
    (((w & low) + low) | w) & high
}

// Whether each of the seven bytes from a place on is its letter or a blank, and the eighth is `last`: no byte differs
// both from a blank and from its letter. Bytes count as 0 if eight are not there. No byte is tested by itself, since a
// branch on a flag can't be predicted.
pub fn flags_fit(s: &[u8], at: usize, letters: [u8; 7], last: u8) -> bool
    ensures { result ≡ flags_fit at letters last s.now }
{
    let bytes = word_at(s, at);
    let [a, b, c, d, e, f, g] = letters;
    let from_blanks = bytes ^ join([32, 32, 32, 32, 32, 32, 32, last]);
    let from_letters = bytes ^ join([a, b, c, d, e, f, g, last]);
    nonzero(from_blanks) & nonzero(from_letters) == 0
}

// The numbers of seven pairs of digits from a place on, each a place after the one before it; 0 if there are no eight
// bytes.
// 0 as in `word_at`.
fn pairs_at(s: &[u8], at: usize) -> [u8; 7]
    ensures { result ≡ seven_pairs at (enough at s.now) }
{
    let halves = word_at(s, at) & join([15; 8]);
    let sums = 10 * halves + halves / 256;
    let [a, b, c, d, e, f, g, _] = sums.to_le_bytes();
    [a, b, c, d, e, f, g]
}

// The numbers of three pairs of digits from a place on, with one byte between two pairs; 0 if there are no eight bytes.
#[tactic(auto, unfolding(crate::specs::Words::numbers_at, crate::specs::Words::three_numbers))]
pub fn numbers_at(s: &[u8], at: usize) -> [u8; 3]
    ensures { result ≡ numbers_at at s.now }
{
    let pairs = pairs_at(s, at);
    [pairs[0], pairs[3], pairs[6]]
}

// The numbers of four pairs of digits from a place on, one after another; 0 if there are no eight bytes. With a count
// and a distance as const parameters, it and `numbers_at` would be one loop, which is no plainer than a line for each.
#[tactic(auto, unfolding(crate::specs::Words::four_numbers_at, crate::specs::Words::four_numbers))]
pub fn four_numbers_at(s: &[u8], at: usize) -> [u8; 4]
    ensures { result ≡ four_numbers_at at s.now }
{
    let pairs = pairs_at(s, at);
    [pairs[0], pairs[2], pairs[4], pairs[6]]
}
