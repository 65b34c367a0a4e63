#![tactic(auto)]

ghost use Rattle.std.specs.Prelude.{◌≡◌, ◌+◌, ◌<◌, ◌≤◌, ◌^◌, length, get_or, take};
ghost use Rattle.names.specs.Eights.{pair_at, four_at, eight_at};
ghost use Rattle.names.specs.Names.{bytes_at, name_of, same_bytes, number_in};

// The entry at `i`, 0 past the end.
pub fn entry(names: &[u32], i: usize) -> usize
    ensures value { result ≡ get_or names.now i 0 }
    ensures upper_bound { result < 2 ^ 32 }
{
    names.get(i).map_or(0, |&e| e as usize)
}

// Are the `n` bytes from `a` on those from `b` on?
fn same_bytes(sheet: &[u8], a: usize, b: usize, n: usize) -> bool
    requires n_bound { a + n < 2 ^ 63 }
    requires n_bound_2 { b + n < 2 ^ 63 }
    ensures { result ≡ same_bytes (bytes_at sheet.now a n) (bytes_at sheet.now b n) }
{
    for i in 0..n {
        if reader::byte(sheet, a + i) != reader::byte(sheet, b + i) {
            return false;
        }
    }
    true
}

fn wide(b: u8) -> u64
    ensures { (result ≡ b) × (result < 256) }
{
    b as u64
}

fn pair(sheet: &[u8], at: usize) -> u64
    requires { at + 2 ≤ length sheet.now }
    ensures value { result ≡ pair_at sheet.now at }
    ensures upper_bound { result < 65536 }
{
    wide(sheet[at]) + 256 * wide(sheet[at + 1])
}

fn four(sheet: &[u8], at: usize) -> u64
    requires { at + 4 ≤ length sheet.now }
    ensures value { result ≡ four_at sheet.now at }
    ensures upper_bound { result < 2 ^ 32 }
{
    pair(sheet, at) + 65536 * pair(sheet, at + 2)
}

fn eight(sheet: &[u8], at: usize) -> u64
    requires { at + 8 ≤ length sheet.now }
    ensures { result ≡ eight_at sheet.now at }
{
    four(sheet, at) + 4294967296 * four(sheet, at + 4)
}

// The same for four to eight bytes of the sheet: the first four, and the last four.
fn same_fours(sheet: &[u8], a: usize, b: usize, n: usize) -> bool
    requires le_n { 4 ≤ n }
    requires n_bound { n ≤ 8 }
    requires n_in_bounds { a + n ≤ length sheet.now }
    requires n_in_bounds_2 { b + n ≤ length sheet.now }
    ensures { result ≡ same_bytes (bytes_at sheet.now a n) (bytes_at sheet.now b n) }
{
    let last = n - 4;
    four(sheet, a) == four(sheet, b) && four(sheet, a + last) == four(sheet, b + last)
}

// The same for eight bytes of the sheet or more: eight at a time, then the last eight.
fn same_eights(sheet: &[u8], a: usize, b: usize, n: usize) -> bool
    requires le_n { 8 ≤ n }
    requires n_in_bounds { a + n ≤ length sheet.now }
    requires n_in_bounds_2 { b + n ≤ length sheet.now }
    ensures { result ≡ same_bytes (bytes_at sheet.now a n) (bytes_at sheet.now b n) }
{
    for k in 0..(n - 1) / 8 {
        if eight(sheet, a + 8 * k) != eight(sheet, b + 8 * k) {
            return false;
        }
    }
    let last = n - 8;
    eight(sheet, a + last) == eight(sheet, b + last)
}

// The same, many bytes at a time where the sheet has them.
fn same_name(sheet: &[u8], a: usize, b: usize, n: usize) -> bool
    requires n_bound { a + n < 2 ^ 63 }
    requires n_bound_2 { b + n < 2 ^ 63 }
    ensures { result ≡ same_bytes (bytes_at sheet.now a n) (bytes_at sheet.now b n) }
{
    if n < 4 || sheet.len() < a + n || sheet.len() < b + n {
        return same_bytes(sheet, a, b, n);
    }
    if n < 8 {
        return same_fours(sheet, a, b, n);
    }
    same_eights(sheet, a, b, n)
}

// Has the entry the name of `len` bytes from `start` on?
fn has_name(sheet: &[u8], e: usize, start: usize, len: usize) -> bool
    requires e_bound { e < 2 ^ 32 }
    requires len_bound { start + len < 2 ^ 63 }
    ensures { result ≡ same_bytes (name_of sheet.now e) (bytes_at sheet.now start len) }
{
    e % 32 == len && same_name(sheet, e / 32, start, len)
}

// The number of the first of `count` entries with the name of `len` bytes from `start` on; `count`, if none has it.
pub fn number(sheet: &[u8], names: &[u32], count: usize, start: usize, len: usize) -> usize
    requires count_in_bounds { count ≤ length names.now }
    requires len_bound { start + len < 2 ^ 63 }
    ensures value { result ≡ number_in sheet.now (take count names.now) (bytes_at sheet.now start len) }
    ensures upper_bound { result ≤ count }
{
    for i in 0..count {
        if has_name(sheet, entry(names, i), start, len) {
            return i;
        }
    }
    count
}
