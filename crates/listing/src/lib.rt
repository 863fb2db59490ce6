// The lister: what the opening of its input says, what is said of each slot, and the lines that are written.
#![tactic(auto)]

ghost use Rattle.std.specs.Prelude.{◌≡◌, ◌*◌, ◌%◌, ◌<◌, ◌≤◌, true, length, take, IfOk, OnOk, IfSome};
ghost use Rattle.std.specs.Io.KnownBytes.{Appends};
ghost use Rattle.sealed.specs.Image.{in_range};
ghost use Rattle.listing.specs.Streams.{Takes, Drops, Writes};
ghost use Rattle.listing.specs.Slot.{opening, verdict, is_right, slots, slot_verdict};
ghost use Rattle.listing.specs.Listing.{hex_digit, two_digits, place_text, said, ended, line, summary, slot_line, lines, right_count, listed, listing};

use sealed::{Geometry, Seen};
use std::io;
use std::io::{Read, Write};
use twofish::{Location, Twofish};

// The bytes before the image, and where the key begins among them.
const OPENING: usize = 34;

const KEY: usize = 2;

// What the opening says: the geometry of the image, and the schedule of its key.
#[derive(Clone, Copy)]
pub struct Opening {
    pub geometry: Geometry,
    pub schedule: Twofish,
}

// What is said of a slot.
#[derive(Clone, Copy, Debug, PartialEq, Eq)]
pub enum Verdict {
    // Its bytes are the record of its place.
    Right,
    // They are the record of another place.
    Holds(Location),
    // They are the record of no place.
    Wrong,
    // Fewer bytes were left than a record has.
    Missing,
}

impl Opening {
    // What the bytes at the front of the input say: pages - 1, banks - 1 and 32 key bytes. Fewer bytes say nothing.
    pub fn parse(bytes: &[u8]) -> Option<Opening>
        ensures says { result ≡ opening bytes.now }
        ensures in_range { IfSome result (λ o. in_range o.geometry ≡ true) }
    {
        if bytes.len() < OPENING {
            return None;
        }
        let geometry = Geometry {
            pages: u32::from(bytes[0]) + 1,
            banks: u32::from(bytes[1]) + 1,
        };
        let schedule = Twofish::new(&bytes[KEY..OPENING]).unwrap_or(Twofish::REFUSED);
        Some(Opening { geometry, schedule })
    }
}

// What is said of the slot of a bank and a page, by the bytes that were left for it: 272, or fewer at the end of the input.
pub fn judge(t: Twofish, bank: u32, page: u32, bytes: &[u8]) -> Verdict
    ensures { result ≡ verdict t bank page bytes.now }
{
    if bytes.len() < Twofish::RECORD {
        return Verdict::Missing;
    }
    match sealed::look(t, bank, page, bytes) {
        Seen::Own => Verdict::Right,
        Seen::Other(location) => Verdict::Holds(location),
        Seen::NoPlace => Verdict::Wrong,
    }
}

// The byte of the last hex digit of a number.
fn hex_digit(n: u32) -> u8
    ensures { result ≡ hex_digit (n % 16) }
{
    let d = (n % 16) as u8;
    if d < 10 { b'0' + d } else { b'a' + (d - 10) }
}

// The last two hex digits of a number.
fn two_digits(n: u32) -> [u8; 2]
    ensures { result ≡ two_digits n }
{
    [hex_digit(n / 16), hex_digit(n)]
}

// A place as it is written: bank and page by two digits each, with a colon between.
fn place_text(bank: u32, page: u32) -> [u8; 5]
    ensures { result ≡ place_text bank page }
{
    let bank = two_digits(bank);
    let page = two_digits(page);
    [bank[0], bank[1], b':', page[0], page[1]]
}

impl Verdict {
    fn is_right(self) -> bool
        ensures { result ≡ is_right self }
    {
        matches!(self, Verdict::Right)
    }
}

// Writes what is said of a slot, to the end of its line.
fn write_verdict<W: Write>(output: &mut W, verdict: Verdict) -> io::Result<()>
    ensures { OnOk result (Appends (W.contents output.old) (W.contents output.new) (ended (said verdict))) }
{
    match verdict {
        Verdict::Right => output.write_all(b"ok\n"),
        Verdict::Holds(location) => {
            output.write_all(b"holds ")?;
            output.write_all(&place_text(location.bank, location.page))?;
            output.write_all(b"\n")
        }
        Verdict::Wrong => output.write_all(b"wrong\n"),
        Verdict::Missing => output.write_all(b"missing\n"),
    }
}

// Writes the line of a slot.
fn write_line<W: Write>(output: &mut W, bank: u32, page: u32, verdict: Verdict) -> io::Result<()>
    ensures { OnOk result (Appends (W.contents output.old) (W.contents output.new) (line bank page verdict)) }
{
    output.write_all(&place_text(bank, page))?;
    output.write_all(b" ")?;
    write_verdict(output, verdict)
}

// Writes how many slots are ok, and how many there are.
fn write_summary<W: Write>(output: &mut W, right: u32, slots: u32) -> io::Result<()>
    ensures { OnOk result (Appends (W.contents output.old) (W.contents output.new) (summary right slots)) }
{
    writeln!(output, "ok {right} of {slots}")
}

// Reads until the buffer is full or nothing is left, and says how many bytes came.
fn fill<R: Read>(input: &mut R, buf: &mut [u8]) -> io::Result<usize>
    ensures bound { IfOk result (λ n. n ≤ length buf.new) }
    ensures bytes { IfOk result (λ n. Takes (R.remaining input.old) (R.remaining input.new) (length buf.old) (take n buf.new)) }
{
    let mut filled = 0;
    while filled < buf.len() {
        let n = input.read(&mut buf[filled..])?;
        if n == 0 {
            break;
        }
        filled += n;
    }
    Ok(filled)
}

// The number of slots.
fn slots(geometry: Geometry) -> u32
    requires { in_range geometry ≡ true }
    ensures { result ≡ slots geometry }
{
    geometry.pages * geometry.banks
}

// Reads the bytes of a slot and writes its line, and says whether it is ok.
fn list_slot<R: Read, W: Write>(
    opening: Opening,
    slot: u32,
    input: &mut R,
    output: &mut W,
) -> io::Result<bool>
    requires { slot < slots opening.geometry }
    ensures rest { OnOk result (Drops (R.remaining input.old) (R.remaining input.new) 272) }
    ensures line { OnOk result (Writes (R.remaining input.old) (W.contents output.old) (W.contents output.new) (slot_line opening slot)) }
    ensures right { IfOk result (λ right. IfSome (R.remaining input.old) (λ rest. right ≡ is_right (slot_verdict opening slot rest))) }
{
    let mut record = [0; Twofish::RECORD];
    let n = fill(input, &mut record)?;
    let bank = slot / opening.geometry.pages;
    let page = slot % opening.geometry.pages;
    let verdict = judge(opening.schedule, bank, page, &record[..n]);
    write_line(output, bank, page, verdict)?;
    Ok(verdict.is_right())
}

// Reads the bytes of every slot and writes their lines, in slot order, and says how many are ok.
fn list_slots<R: Read, W: Write>(opening: Opening, input: &mut R, output: &mut W) -> io::Result<u32>
    requires { in_range opening.geometry ≡ true }
    ensures rest { OnOk result (Drops (R.remaining input.old) (R.remaining input.new) (272 * slots opening.geometry)) }
    ensures lines { OnOk result (Writes (R.remaining input.old) (W.contents output.old) (W.contents output.new) (λ image. lines opening image (slots opening.geometry))) }
    ensures right { IfOk result (λ right. IfSome (R.remaining input.old) (λ image. right ≡ right_count opening image (slots opening.geometry))) }
{
    let mut right = 0;
    for slot in 0..slots(opening.geometry) {
        right += u32::from(list_slot(opening, slot, input, output)?);
    }
    Ok(right)
}

// Reads the image after an opening and writes all that there is to say of it.
fn list_image<R: Read, W: Write>(opening: Opening, input: &mut R, output: &mut W) -> io::Result<()>
    requires { in_range opening.geometry ≡ true }
    ensures { OnOk result (Writes (R.remaining input.old) (W.contents output.old) (W.contents output.new) (listed opening)) }
{
    let right = list_slots(opening, input, output)?;
    let slots = slots(opening.geometry);
    write_summary(output, right, slots)?;
    let mut more = [0; 1];
    let n = fill(input, &mut more)?;
    if n > 0 {
        writeln!(output, "extra")?;
    }
    Ok(())
}

// Lists an image: reads the opening and then a record at a time, and writes the lines.
pub fn list<R: Read, W: Write>(input: &mut R, output: &mut W) -> io::Result<()>
    ensures { OnOk result (Writes (R.remaining input.old) (W.contents output.old) (W.contents output.new) listing) }
{
    let mut front = [0; OPENING];
    let n = fill(input, &mut front)?;
    match Opening::parse(&front[..n]) {
        Some(opening) => list_image(opening, input, output),
        None => writeln!(output, "bad input"),
    }
}
