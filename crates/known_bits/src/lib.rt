// Known bits: a bit for each byte of a region, the low bit of each byte first, set where the byte is
// known. They are counted a word at a time, and ranges of addresses are added. No public
// function asks anything of its input: to a map longer than any region's nothing is added, and as many of
// its bytes are unknown as the greatest region has.
#![tactic(auto)]

ghost use Rattle.std.specs.Prelude.{◌≡◌, ◌*◌, ◌≤◌, length};
ghost use Rattle.known_bits.specs.Known.{longest_map, count_of, unknown_of, Adds, WithRange};

use little_endian::Number;

// The length of the longest map that a region has.
const LONGEST: usize = 32768;

// The number of bytes of the greatest region, which is that of the longest map's bits.
const GREATEST: usize = 262144;

// How many bits of a word, at most eight bytes, are set.
fn word_ones(word: &[u8]) -> usize
    requires { length word.now ≤ 8 }
    ensures { result ≡ count_of word.now }
{
    u64::number_at(word, 0).count_ones() as usize
}

// How many bits of a map are set: the ones of each word of eight bytes are counted at once.
fn count(map: &[u8]) -> usize
    requires { length map.now ≤ longest_map }
    ensures { result ≡ count_of map.now }
{
    let (words, rest) = map.as_chunks::<8>();
    let mut n = word_ones(rest);
    for word in words {
        n += word_ones(word);
    }
    n
}

// How many bytes of a region are not known by its map; all of the greatest for a map longer than any region's.
pub fn unknown(map: &[u8]) -> usize
    ensures { result ≡ unknown_of map.now }
{
    if LONGEST < map.len() {
        return GREATEST;
    }
    map.len() * 8 - count(map)
}

// Adds the addresses from one on and below another, one at a time.
fn mark_each(map: &mut [u8], from: usize, end: usize)
    requires ordered { from ≤ end }
    requires within { end ≤ length map.old * 8 }
    ensures { Adds from end map.old map.new }
{
    for address in from..end {
        address_set::mark(map, address);
    }
}

// Adds n addresses from one on, if the map is not longer than any region's and has them: those of whole
// bytes a byte at a time, and those before and behind them each by itself.
pub fn mark_range(map: &mut [u8], from: usize, n: usize)
    ensures { WithRange from n map.old map.new }
{
    if LONGEST < map.len() {
        return;
    }
    let places = map.len() * 8;
    if places < from || places - from < n {
        return;
    }
    let end = from + n;
    let first = end.min(from.next_multiple_of(8));
    let last = first.max(end / 8 * 8);
    mark_each(map, from, first);
    map[first / 8..last / 8].fill(0xFF);
    mark_each(map, last, end);
}
