// The sealed image: its geometry, its records, seal, read, and the look at a record.
#![tactic(auto)]

ghost use Rattle.std.specs.Prelude.{◌≡◌, ◌++◌, ◌+◌, ◌*◌, ◌/◌, ◌<◌, ◌≤◌, length, take, drop, replicate, true};
ghost use Rattle.spans.specs.Bytes.{xor_bytes};
ghost use Rattle.spans.specs.Parts.{splice};
ghost use Rattle.spans.specs.Refusals.{given, leaves};
ghost use Rattle.twofish.specs.Answers.{answer, answered, counted};
ghost use Rattle.block.specs.Block.{enciphered, deciphered, Schedule};
ghost use Rattle.sealed.specs.Cbc.{cbc, uncbc};
ghost use Rattle.sealed.specs.Record.{place_block, filled, sealed, whose, whose_answer, page_of};
ghost use Rattle.sealed.specs.Image.{in_range, reached, offset_reached, slot, up_to_256, within_page, image_number, refusals, seal_number, sealed_in, access_number, access_answer, read_from, patched_in, patch_count};

use twofish::{Location, Refusal, Twofish};

// Blocks of a record: the place and sixteen of the page.
const BLOCKS: u32 = 17;

// What an erased part reads, which fills a short page at its end.
const FILL: u8 = 0xff;

// Pages in a bank, and banks.
#[derive(Clone, Copy, Debug, PartialEq, Eq)]
pub struct Geometry {
    pub pages: u32,
    pub banks: u32,
}

// What the first block of a record says of the place that it is looked at for.
#[derive(Clone, Copy, Debug, PartialEq, Eq)]
pub enum Seen {
    // It is the place block of that place.
    Own,
    // It is the place block of another place, which may lie beyond the geometry.
    Other(Location),
    // It is no place block.
    NoPlace,
}

// Whether a number is from 1 to 256.
fn up_to_256(n: usize) -> bool
    ensures { result ≡ up_to_256 n }
{
    0 < n && n <= 256
}

// Whether n bytes from an offset on are 1 to 256, all inside one page.
fn within_page(offset: u32, n: usize) -> bool
    ensures { result ≡ within_page offset n }
{
    up_to_256(n) && offset as usize % 256 + n <= 256
}

impl Geometry {
    // Whether there are from 1 to 256 of both.
    fn in_range(self) -> bool
        ensures { result ≡ in_range self }
    {
        up_to_256(self.pages as usize) && up_to_256(self.banks as usize)
    }

    // Whether a bank and a page are there.
    fn reached(self, bank: u32, page: u32) -> bool
        ensures { result ≡ reached self bank page }
    {
        bank < self.banks && page < self.pages
    }

    // Whether a bank and an offset into it are there.
    fn offset_reached(self, bank: u32, offset: u32) -> bool
        ensures { result ≡ offset_reached self bank offset }
    {
        bank < self.banks && (offset as usize) < 256 * self.pages as usize
    }

    // Where the record of a page begins in the image.
    fn record_start(self, bank: u32, page: u32) -> usize
        requires { (in_range self ≡ true) × (reached self bank page ≡ true) }
        ensures { result ≡ 272 * slot self bank page }
    {
        Twofish::RECORD * (bank as usize * self.pages as usize + page as usize)
    }
}

// Whether an image is taken, or else the first refusal of its schedule, geometry and length in order.
pub fn judge(t: Twofish, geometry: Geometry, long: usize) -> Result<(), Refusal>
    ensures { answered result ≡ answer (image_number t geometry long) 0 }
{
    if t.start > 2 {
        return Err(Refusal::Start);
    }
    if !geometry.in_range() {
        return Err(Refusal::Geometry);
    }
    if long != Twofish::RECORD * (geometry.pages as usize * geometry.banks as usize) {
        return Err(Refusal::ImageLength);
    }
    Ok(())
}

// Whether a call on an image is taken up to its look at a record, or else the first refusal in order.
fn judged(
    t: Twofish,
    geometry: Geometry,
    long: usize,
    placed: bool,
    fits: bool,
) -> Result<(), Refusal>
    ensures { answered result ≡ answer (given (refusals t geometry long placed fits)) 0 }
{
    judge(t, geometry, long)?;
    if !placed {
        return Err(Refusal::Place);
    }
    if !fits {
        return Err(Refusal::Length);
    }
    Ok(())
}

// The place block of a bank's page.
fn place_block(bank: u8, page: u8) -> [u8; 16]
    ensures { result ≡ place_block bank page }
{
    let mut block = [0; 16];
    block[0] = bank;
    block[1] = page;
    block
}

// The place block and the page that plain bytes make, laid into a record.
fn lay(bank: u8, page: u8, plain: &[u8], blocks: &mut [u8])
    requires { (length blocks.old ≡ 272) × (length plain.now ≤ 256) }
    ensures { blocks.new ≡ place_block bank page ++ filled plain.now }
{
    let n = 16 + plain.len();
    blocks[0..16].copy_from_slice(&place_block(bank, page));
    blocks[16..n].copy_from_slice(plain);
    spans::fill(&mut blocks[n..], FILL);
}

// A schedule that a call has accepted.
#[derive(Drop)]
struct Accepted {
    t: Twofish,
    ghost start: { t.start ≤ 2 },
}

impl Accepted {
    // A block enciphered where it lies after the chaining block; the next chaining block is the block itself.
    fn chained(&self, chain: [u8; 16], block: &mut [u8]) -> [u8; 16]
        requires { length block.old ≡ 16 }
        ensures block { block.new ≡ enciphered self.now.t (xor_bytes block.old chain) }
        ensures chain { result ≡ enciphered self.now.t (xor_bytes block.old chain) }
    {
        spans::xor(block, &chain);
        let _ = block::encipher(self.t, block);
        spans::block(block)
    }

    // Whole blocks enciphered where they lie, in CBC after the chaining block.
    fn chain_blocks(&self, chain: [u8; 16], blocks: &mut [u8])
        ensures { blocks.new ≡ cbc (enciphered self.now.t) chain (length blocks.old / 16) blocks.old }
    {
        let mut last = chain;
        for i in 0..blocks.len() / 16 {
            let next = self.chained(last, &mut blocks[16 * i..16 * i + 16]);
            last = next;
        }
    }

    // A record sealed.
    fn seal_record(&self, bank: u8, page: u8, plain: &[u8], blocks: &mut [u8])
        requires { (length blocks.old ≡ 272) × (length plain.now ≤ 256) }
        ensures { blocks.new ≡ sealed (enciphered self.now.t) bank page plain.now }
    {
        lay(bank, page, plain, blocks);
        self.chain_blocks([0; 16], blocks);
    }

    // A block deciphered where it lies and xored with the chaining block; the next chaining block is the block as it was.
    fn unchained(&self, chain: [u8; 16], block: &mut [u8]) -> [u8; 16]
        requires { length block.old ≡ 16 }
        ensures block { block.new ≡ xor_bytes (deciphered self.now.t block.old) chain }
        ensures chain { result ≡ block.old }
    {
        let next = spans::block(block);
        let _ = block::decipher(self.t, block);
        spans::xor(block, &chain);
        next
    }

    // Whole blocks deciphered where they lie, in CBC after the chaining block.
    fn unchain_blocks(&self, chain: [u8; 16], blocks: &mut [u8])
        ensures { blocks.new ≡ uncbc (deciphered self.now.t) chain (length blocks.old / 16) blocks.old }
    {
        let mut previous = chain;
        for i in 0..blocks.len() / 16 {
            let next = self.unchained(previous, &mut blocks[16 * i..16 * i + 16]);
            previous = next;
        }
    }

    // Whose record it is, looked at for a place.
    fn look(&self, bank: u32, page: u32, blocks: &[u8]) -> Seen
        requires { length blocks.now ≡ 272 }
        ensures { result ≡ whose (deciphered self.now.t) bank page blocks.now }
    {
        let mut first = spans::block(blocks);
        let _ = block::decipher(self.t, &mut first);
        if first[2..] != [0; 14] {
            return Seen::NoPlace;
        }
        let held = Location {
            bank: first[0] as u32,
            page: first[1] as u32,
        };
        if held.bank == bank && held.page == page {
            Seen::Own
        } else {
            Seen::Other(held)
        }
    }

    // The bytes of a record's page from p on. Only the blocks that hold them are deciphered.
    fn open(&self, blocks: &[u8], p: usize, out: &mut [u8])
        requires { (length blocks.now ≡ 272) × (0 < length out.old) × (p + length out.old ≤ 256) }
        ensures { out.new ≡ take (length out.old) (drop p (page_of (deciphered self.now.t) blocks.now)) }
    {
        let first = p / 16;
        let long = 16 * ((p % 16 + out.len() + 15) / 16);
        let at = 16 + 16 * first;
        let mut page = [0; 256];
        page[..long].copy_from_slice(&blocks[at..at + long]);
        self.unchain_blocks(spans::block(&blocks[16 * first..at]), &mut page[..long]);
        out.copy_from_slice(&page[p % 16..p % 16 + out.len()]);
    }

    // Bytes laid from q on over what whole blocks hold in CBC after the chaining block.
    fn overlay(&self, chain: [u8; 16], q: usize, bytes: &[u8], blocks: &mut [u8])
        requires { q + length bytes.now ≤ length blocks.old }
        ensures { blocks.new ≡ cbc (enciphered self.now.t) chain (length blocks.old / 16) (splice q bytes.now (uncbc (deciphered self.now.t) chain (length blocks.old / 16) blocks.old)) }
    {
        self.unchain_blocks(chain, blocks);
        blocks[q..q + bytes.len()].copy_from_slice(bytes);
        self.chain_blocks(chain, blocks);
    }

    // Bytes laid over a record's page from p on. The blocks from the first that holds one of them on are worked through aside, and then written.
    fn patch_record(&self, p: usize, bytes: &[u8], blocks: &mut [u8])
        requires { (Schedule self.now.t) × (length blocks.old ≡ 272) × (0 < length bytes.now) × (p + length bytes.now ≤ 256) }
        ensures { blocks.new ≡ cbc (enciphered self.now.t) (replicate 16 0) 17 (splice (16 + p) bytes.now (uncbc (deciphered self.now.t) (replicate 16 0) 17 blocks.old)) }
    {
        let first = 16 * (p / 16);
        let at = 16 + first;
        let chain = spans::block(&blocks[first..at]);
        let mut page = [0; 256];
        let rest = &mut page[..256 - first];
        rest.copy_from_slice(&blocks[at..]);
        self.overlay(chain, p % 16, bytes, rest);
        blocks[at..].copy_from_slice(rest);
    }
}

// A page sealed into its slot: 1 to 256 plain bytes, a short page filled at its end. The old record is not looked at, and a refusal leaves every byte.
pub fn seal(
    t: Twofish,
    geometry: Geometry,
    image: &mut [u8],
    bank: u32,
    page: u32,
    plain: &[u8],
) -> Result<u32, Refusal>
    ensures outcome { counted result ≡ answer (seal_number t geometry (length image.old) bank page (length plain.now)) 17 }
    ensures image { image.new ≡ leaves (seal_number t geometry (length image.old) bank page (length plain.now)) (sealed_in (enciphered t) geometry bank page plain.now image.old) image.old }
{
    let placed = geometry.reached(bank, page);
    judged(t, geometry, image.len(), placed, up_to_256(plain.len()))?;
    let at = geometry.record_start(bank, page);
    let blocks = &mut image[at..at + Twofish::RECORD];
    let cipher = Accepted { t };
    cipher.seal_record(bank as u8, page as u8, plain, blocks);
    Ok(BLOCKS)
}

// Whose record 272 bytes are, looked at for a bank's page: what their first block deciphers to says it. Under a schedule that is refused, and of any
// other length, no bytes are the record of a place.
pub fn look(t: Twofish, bank: u32, page: u32, bytes: &[u8]) -> Seen
    ensures { result ≡ whose_answer t bank page bytes.now }
{
    if t.start > 2 || bytes.len() != Twofish::RECORD {
        return Seen::NoPlace;
    }
    let cipher = Accepted { t };
    cipher.look(bank, page, bytes)
}

// Where the record that a call looks at begins: the page at a bank's offset, from which the call reads or writes n bytes; or the first refusal in order.
pub fn find(
    t: Twofish,
    geometry: Geometry,
    image: &[u8],
    bank: u32,
    offset: u32,
    n: usize,
) -> Result<usize, Refusal>
    ensures { counted result ≡ access_answer t geometry image.now bank offset n (272 * slot geometry bank (offset / 256)) }
{
    let placed = geometry.offset_reached(bank, offset);
    judged(t, geometry, image.len(), placed, within_page(offset, n))?;
    let page = offset / 256;
    let at = geometry.record_start(bank, page);
    let cipher = Accepted { t };
    match cipher.look(bank, page, &image[at..at + Twofish::RECORD]) {
        Seen::Own => Ok(at),
        Seen::Other(location) => Err(Refusal::Elsewhere(location)),
        Seen::NoPlace => Err(Refusal::Record),
    }
}

// The plain bytes of a bank from an offset on, 1 to 256 and all inside one page, into the whole of out. A refusal leaves every byte.
pub fn read(
    t: Twofish,
    geometry: Geometry,
    image: &[u8],
    bank: u32,
    offset: u32,
    out: &mut [u8],
) -> Result<u32, Refusal>
    ensures outcome { counted result ≡ access_answer t geometry image.now bank offset (length out.old) 0 }
    ensures out { out.new ≡ leaves (access_number t geometry image.now bank offset (length out.old)) (read_from (deciphered t) geometry bank offset (length out.old) image.now) out.old }
{
    let at = find(t, geometry, image, bank, offset, out.len())?;
    let blocks = &image[at..at + Twofish::RECORD];
    let cipher = Accepted { t };
    cipher.open(blocks, offset as usize % 256, out);
    Ok(0)
}

// Bytes of a bank's page replaced from an offset on, 1 to 256 and all inside one page. No byte before the first block that holds one of them is
// written, and a refusal leaves every byte.
pub fn patch(
    t: Twofish,
    geometry: Geometry,
    image: &mut [u8],
    bank: u32,
    offset: u32,
    bytes: &[u8],
) -> Result<u32, Refusal>
    ensures outcome { counted result ≡ access_answer t geometry image.old bank offset (length bytes.now) (patch_count offset) }
    ensures image { image.new ≡ leaves (access_number t geometry image.old bank offset (length bytes.now)) (patched_in (enciphered t) (deciphered t) geometry bank offset bytes.now image.old) image.old }
{
    let at = find(t, geometry, image, bank, offset, bytes.len())?;
    let blocks = &mut image[at..at + Twofish::RECORD];
    let cipher = Accepted { t };
    cipher.patch_record(offset as usize % 256, bytes, blocks);
    Ok(16 - offset % 256 / 16)
}
