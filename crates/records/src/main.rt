// Seals, reads and patches pages of an image of 64 pages in each of four banks, one by one and by a list, and shows each call's answer with what the
// image held before and after.
#![tactic(auto)]

use boxful::{ListAnswer, Patch};
use sealed::Geometry;
use std::io;
use twofish::{Answer, Twofish};

const GEOMETRY: Geometry = Geometry {
    pages: 64,
    banks: 4,
};

// The bytes of the image.
const LONG: usize = 69632;

// Where the first byte that is not zero lies, and how many there are.
fn used(image: &[u8]) -> (Option<usize>, usize) {
    (
        image.iter().position(|b| *b != 0),
        image.iter().filter(|b| **b != 0).count(),
    )
}

// Where the first and the last byte lie that differ, if any does.
fn changed(before: &[u8], after: &[u8]) -> Option<(usize, usize)> {
    let first = before.iter().zip(after).position(|(b, a)| b != a)?;
    let last = before.iter().zip(after).rposition(|(b, a)| b != a)?;
    Some((first, last))
}

// Which bytes changed.
fn show_changed(rt: HostRuntime, before: &[u8], after: &[u8]) -> io::Result<()> {
    match changed(before, after) {
        Some((first, last)) => println!(rt; "changed bytes: from {first} to {last}"),
        None => println!(rt; "changed bytes: none"),
    }
}

// A patch in bank 3 with its answer, and which bytes of the image it changed.
fn patch(
    rt: HostRuntime,
    t: Twofish,
    image: &mut [u8; LONG],
    offset: u32,
    bytes: &[u8],
) -> io::Result<()> {
    let before = *image;
    let answer: Answer = sealed::patch(t, GEOMETRY, image, 3, offset, bytes).into();
    println!(rt;
        "patch of {bytes:?} at {offset:#06x} in bank 3: number {}, count {}",
        answer.number, answer.count
    )?;
    show_changed(rt, &before, image)
}

// A list of patches with its answer, and which bytes of the image it changed.
fn patch_list(
    rt: HostRuntime,
    t: Twofish,
    image: &mut [u8; LONG],
    call: &str,
    patches: &[Patch],
) -> io::Result<()> {
    let before = *image;
    let bytes = *b"edit";
    let answer: ListAnswer = boxful::patch_all(t, GEOMETRY, image, patches, &bytes).into();
    println!(rt;
        "{call}: number {}, count {}, place {}",
        answer.number, answer.count, answer.place
    )?;
    show_changed(rt, &before, image)
}

// A line for a call: its number and its count.
fn show(rt: HostRuntime, call: &str, answer: Answer) -> io::Result<()> {
    println!(rt; "{call}: number {}, count {}", answer.number, answer.count)
}

fn main(rt: HostRuntime) -> io::Result<()> {
    let key = [7u8; 32];
    let t = Twofish::new(&key).unwrap_or(Twofish::REFUSED);
    let mut image = [0u8; LONG];
    let plain = [0x5au8; 100];

    let (_, before) = used(&image);
    println!(rt; "before: {before} bytes are not zero")?;
    let sealed = sealed::seal(t, GEOMETRY, &mut image, 3, 2, &plain);
    show(rt, "seal of 100 bytes in bank 3, page 2", sealed.into())?;
    let (first, _) = used(&image);
    println!(rt;
        "the first byte that is not zero: {}",
        first.unwrap_or(LONG)
    )?;
    let (_, beyond) = used(&image[53040..]);
    println!(rt; "after byte 53040: {beyond} bytes are not zero")?;

    let mut out = [1u8; 4];
    let read = sealed::read(t, GEOMETRY, &image, 3, 0x0262, &mut out);
    show(rt, "read of 4 bytes at 0x0262 in bank 3", read.into())?;
    println!(rt; "{:?}", out)?;
    let read = sealed::read(t, GEOMETRY, &image, 0, 0x0262, &mut out);
    show(rt, "the same in bank 0", read.into())?;
    println!(rt; "{:?}", out)?;
    let mut one = [1u8; 1];
    let read = sealed::read(t, GEOMETRY, &image, 3, 0x02ff, &mut one);
    show(rt, "read of 1 byte at 0x02ff in bank 3", read.into())?;
    println!(rt; "{:?}", one)?;
    let mut two = [1u8; 2];
    let read = sealed::read(t, GEOMETRY, &image, 3, 0x02ff, &mut two);
    show(rt, "read of 2 bytes at 0x02ff in bank 3", read.into())?;
    println!(rt; "{:?}", two)?;
    println!(rt;
        "look at that record, as bank 3, page 2: {:?}",
        sealed::look(t, 3, 2, &image[52768..53040])
    )?;
    println!(rt;
        "as bank 2, page 3: {:?}",
        sealed::look(t, 2, 3, &image[52768..53040])
    )?;
    let (front, back) = image.split_at_mut(52768);
    front[544..816].copy_from_slice(&back[..272]);
    let read = sealed::read(t, GEOMETRY, &image, 0, 0x0262, &mut out);
    let answer: Answer = read.into();
    show(
        rt,
        "read of 4 bytes in bank 0, page 2, where it was laid",
        answer,
    )?;
    println!(rt; "it is that of bank {}, page {}", answer.bank, answer.page)?;

    patch(rt, t, &mut image, 0x0237, &[0xa5])?;
    let mut out = [1u8; 4];
    let read = sealed::read(t, GEOMETRY, &image, 3, 0x0236, &mut out);
    show(rt, "read of 4 bytes at 0x0236 in bank 3", read.into())?;
    println!(rt; "{:?}", out)?;
    patch(rt, t, &mut image, 0x0237, &[0xa5])?;
    patch(rt, t, &mut image, 0x02ff, &[0x11])?;
    patch(rt, t, &mut image, 0x02ff, &[0x22, 0x33])?;
    patch(rt, t, &mut image, 0x0337, &[0xa5])?;

    let item = |bank, offset, start, length| Patch {
        bank,
        offset,
        start,
        length,
    };
    let two = [item(3, 0x0240, 0, 4), item(3, 0x0250, 0, 2)];
    patch_list(rt, t, &mut image, "list of two patches", &two)?;
    let mut out = [0u8; 20];
    let read = sealed::read(t, GEOMETRY, &image, 3, 0x0240, &mut out);
    show(rt, "read of 20 bytes at 0x0240 in bank 3", read.into())?;
    println!(rt; "{:?}", out)?;
    let refused = [
        item(3, 0x0240, 1, 1),
        item(3, 0x0337, 0, 1),
        item(4, 0, 3, 2),
    ];
    patch_list(
        rt,
        t,
        &mut image,
        "list whose second patch is refused",
        &refused,
    )?;
    let outside = [item(4, 0, 3, 2)];
    patch_list(rt, t, &mut image, "list of a patch outside both", &outside)?;
    patch_list(
        rt,
        t,
        &mut image,
        "list of 65 patches",
        &[item(3, 0x0240, 0, 1); 65],
    )?;
    patch_list(rt, t, &mut image, "list of none", &[])
}
