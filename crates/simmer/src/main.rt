#![tactic(auto)]

ghost use Rattle.std.specs.Prelude.{◌≡◌, ◌≤◌, drop, length, OnOk};
ghost use Rattle.std.specs.Fmt.{decimal};
ghost use Rattle.std.specs.Io.KnownBytes.{Appends};
ghost use Rattle.simmer.specs.Lines.{refusal_line};
ghost use Rattle.simmer.specs.Rooms.{Arrived, Holds};

use refusal::Refusal;
use std::fmt::InlineText;
use std::io;
use std::io::{Error, Read, Write};

// One read, into the room from a place on: how many bytes came, or none at the input's end.
fn read_some<R: Read>(input: &mut R, sheet: &mut [u8], place: usize) -> io::Result<Option<usize>>
    requires { place ≤ length sheet.old }
    ensures { Arrived place (length sheet.old) result }
{
    match input.read(&mut sheet[place..])? {
        0 => Ok(None),
        n => Ok(Some(n)),
    }
}

// Reads until the input ends or the room is full: how many bytes came. A read that fails leaves no sheet.
fn read_input<R: Read>(input: &mut R, sheet: &mut [u8]) -> io::Result<usize>
    ensures { Holds sheet.new result }
{
    let mut place = 0;
    // A read brings as many bytes as it likes.
    while place < sheet.len() {
        match read_some(input, sheet, place)? {
            Some(n) => place += n,
            None => break,
        }
    }
    Ok(place)
}

// Writes all of the bytes, or stops at the first write that fails or takes nothing, for which the system's reason is its text of 0.
// A write that a signal interrupts has failed.
fn write_all<W: Write>(out: &mut W, bytes: &[u8]) -> io::Result<()>
    ensures { OnOk result (Appends (W.contents out.old) (W.contents out.new) bytes.now) }
{
    let mut done = 0;
    // A write takes as many bytes as it likes.
    while done < bytes.len() {
        let n = out.write(&bytes[done..])?;
        if n == 0 {
            return Err(Error::from_raw_os_error(0));
        }
        done += n;
    }
    Ok(())
}

// Puts a number's decimal digits at the end of the text; says where they begin. Of what std's InlineText and write! give, no contract
// says that it is not cut, or how it fails.
fn put_decimal(n: u64, text: &mut [u8; 20]) -> usize
    ensures begins { result ≤ 20 }
    ensures digits { drop result text.new ≡ decimal n }
{
    let mut left = n;
    let mut at = 20;
    while 10 <= left {
        at -= 1;
        text[at] = b'0' + (left % 10) as u8;
        left /= 10;
    }
    at -= 1;
    text[at] = b'0' + left as u8;
    at
}

fn write_decimal<W: Write>(out: &mut W, n: u64) -> io::Result<()>
    ensures { OnOk result (Appends (W.contents out.old) (W.contents out.new) (decimal n)) }
{
    let mut text = [0u8; 20];
    let at = put_decimal(n, &mut text);
    write_all(out, &text[at..])
}

// One line: refused, number, place.
fn write_refusal<W: Write>(out: &mut W, r: Refusal) -> io::Result<()>
    ensures { OnOk result (Appends (W.contents out.old) (W.contents out.new) (refusal_line r)) }
{
    write_all(out, b"refused\t")?;
    write_decimal(out, r.number)?;
    write_all(out, b"\t")?;
    write_decimal(out, r.place)?;
    write_all(out, b"\n")
}

// The value sheet, of at most 512 lines of 27 bytes, or the refusal line; whether all of it was written.
fn write_answer<W: Write>(out: &mut W, sheet: &[u8]) -> io::Result<()> {
    let mut words = [0u16; limits::MOST_WORDS];
    let mut names = [0u32; limits::MOST_ATOMS];
    let mut text = [0u8; limits::MOST_ATOMS * (limits::MOST_NAME_BYTES + 3)];
    match sheets::read_sheet(sheet, &mut words, &mut names, &mut text) {
        Ok(counts) => write_all(out, &text[..counts.bytes]),
        Err(r) => write_refusal(out, r),
    }
}

// One line: what could not be done, and the system's reason, without the number that std prints behind it.
fn tell<W: Write>(err: &mut W, what: &[u8], error: Error) {
    let printed = InlineText::<128>::of(error);
    let text = printed.as_str();
    let reason = text
        .split_once(" (os error ")
        .map_or(text, |(reason, _)| reason);
    let _ = write_all(err, what);
    let _ = write_all(err, b": ");
    let _ = write_all(err, reason.as_bytes());
    let _ = write_all(err, b"\n");
}

fn answer_sheet<W: Write, E: Write>(out: &mut W, err: &mut E, sheet: &[u8]) {
    match write_answer(out, sheet) {
        Ok(()) => {}
        Err(e) => tell(err, b"simmer: cannot write to standard output", e),
    }
}

// A sheet of 65,536 bytes is read whole; one byte more tells a sheet that is too long.
fn main(rt: HostRuntime) {
    let mut sheet = [0u8; limits::MOST_SHEET_BYTES + 1];
    match read_input(&mut rt.stdin(), &mut sheet) {
        Ok(n) => answer_sheet(&mut rt.stdout(), &mut rt.stderr(), &sheet[..n]),
        Err(e) => tell(&mut rt.stderr(), b"simmer: cannot read standard input", e),
    }
}
