#![tactic(auto)]

ghost use Rattle.std.specs.Prelude.{◌≡◌, ◌<◌};
ghost use Rattle.hostreasons.specs.CheckBytes.{readable_place, packed_check, HostCheck};
ghost use Rattle.hostreasons.specs.ReasonBytes.{packed_number, HostReasons};
ghost use Rattle.hostreasons.specs.Readable.{NumberSmall, NumberedPackable};

use refusal::Refusal;

// A place above 4,294,967,295 is answered as that, or it would spoil the number.
fn readable_place(place: u64) -> u64
    ensures { (result ≡ readable_place place) × (result < 4294967296) }
{
    if 4294967295 < place {
        return 4294967295;
    }
    place
}

fn pack_readable(r: Refusal) -> u64
    requires { r.number < 4294967296 }
    ensures { result ≡ packed_check (Err r) }
{
    host::pack(Refusal {
        number: r.number,
        place: readable_place(r.place),
    })
}

fn pack_checked(answer: Result<(), Refusal>) -> u64
    requires { NumberSmall answer }
    ensures { result ≡ packed_check answer }
{
    match answer {
        Ok(()) => 0,
        Err(r) => pack_readable(r),
    }
}

// The check of a reason sheet over bytes: the answer is 0, or the refusal packed.
pub fn check_bytes(n: u64, table: &[u8], values: &[u8], text: &[u8]) -> u64
    ensures { HostCheck n table.now values.now text.now result }
{
    let m = table.len() / 2;
    if limits::MOST_WORDS < m {
        return host::too_long(n);
    }
    let mut words = [0u16; limits::MOST_WORDS];
    host::fill_words(table, &mut words);
    if table.len() % 2 == 1 {
        return host::pack(host::cut_short(
            evaluation::evaluation_fault(n, &words[..m], values.len() as u64),
            m,
        ));
    }
    pack_checked(reasoncheck::check_reasons(n, &words[..m], values, text))
}

fn pack_number(answer: Result<u64, Refusal>) -> u64
    requires { NumberedPackable answer }
    ensures { result ≡ packed_number answer }
{
    match answer {
        Ok(k) => k,
        Err(r) => host::pack(r),
    }
}

// The writer of reason sheets over bytes: the answer is the sheet's length, or the refusal packed.
pub fn reasons_bytes(n: u64, table: &[u8], text: &mut [u8]) -> u64
    ensures { HostReasons n table.now text.old result text.new }
{
    let m = table.len() / 2;
    if limits::MOST_WORDS < m {
        return host::too_long(n);
    }
    let mut words = [0u16; limits::MOST_WORDS];
    host::fill_words(table, &mut words);
    if table.len() % 2 == 1 {
        return host::pack(host::cut_short(words::check(n, &words[..m]), m));
    }
    pack_number(reasons::write_reasons(n, &words[..m], text))
}
