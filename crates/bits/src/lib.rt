#![tactic(auto)]

ghost use Rattle.std.specs.Prelude.{◌≡◌, ◌-◌, ◌*◌, ◌<◌, ◌≤◌, get_or};
ghost use Rattle.std.specs.Int.Bits.{bit_xor};
ghost use Rattle.limits.specs.Limits.{most_atoms, most_codes};
ghost use Rattle.sets.specs.Sets.{count};
ghost use Rattle.bits.specs.Sets.{changed, member, put_in};
ghost use Rattle.bits.specs.Rows.{row_without, lowest_from, lowest_below};

// Is `i` in the set?
pub fn has(set: &[u64], i: usize) -> bool
    ensures { result ≡ member set.now i }
{
    let w = i / 64;
    if w < set.len() {
        (set[w] >> (i % 64)) % 2 == 1
    } else {
        false
    }
}

// Puts `i` into the set.
pub fn put(set: &mut [u64], i: usize)
    ensures { set.new ≡ put_in set.old i }
{
    let w = i / 64;
    if w < set.len() {
        set[w] = set[w] | 1 << (i % 64);
    }
}

// Takes `i` out of the set.
pub fn remove(set: &mut [u64], i: usize)
    ensures { set.new ≡ row_without set.old i }
{
    if has(set, i) {
        flip(set, i);
    }
}

// Changes bit `i`.
fn flip(set: &mut [u64], i: usize)
    ensures { set.new ≡ changed bit_xor set.old i }
{
    let w = i / 64;
    if w < set.len() {
        set[w] = set[w] ^ 1 << (i % 64);
    }
}

// The word at `w`, 0 past the end.
fn word(set: &[u64], w: usize) -> u64
    ensures { result ≡ get_or set.now w 0 }
{
    set.get(w).copied().unwrap_or(0)
}

// How many numbers below 512 are in the set.
pub fn count(set: &[u64]) -> usize
    ensures { result ≡ count most_atoms (member set.now) }
{
    let mut n: usize = 0;
    for w in 0..8 {
        n += word(set, w).count_ones() as usize;
    }
    n
}

// The lowest number below 1,024 that is in the set, from word `first` on.
fn lowest_in_words(set: &[u64], first: usize) -> Option<usize>
    requires { first ≤ 16 }
    ensures { result ≡ lowest_from (most_codes - 64 * first) (64 * first) (member set.now) }
{
    for w in first..16 {
        let x = word(set, w);
        if x != 0 {
            return Some(64 * w + x.trailing_zeros() as usize);
        }
    }
    None
}

// The lowest number below 1,024 that is in the set.
pub fn lowest(set: &[u64]) -> Option<usize>
    ensures { result ≡ lowest_below most_codes (member set.now) }
{
    lowest_in_words(set, 0)
}

// The lowest number from `i` on below 1,024 that is in the set.
pub fn lowest_from(set: &[u64], i: usize) -> Option<usize>
    requires { i < most_codes }
    ensures { result ≡ lowest_from (most_codes - i) i (member set.now) }
{
    let w = i / 64;
    let x = word(set, w) >> (i % 64);
    if x != 0 {
        return Some(i + x.trailing_zeros() as usize);
    }
    lowest_in_words(set, w + 1)
}
