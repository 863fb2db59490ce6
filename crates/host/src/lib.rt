// What a C host links. With the key's bytes: the two block directions; seal, read, patch and a list of patches on a sealed image; the report on two
// images. Without a key: the next page of a report, and the settings that can go back.
#![tactic(auto)]

ghost use Rattle.std.specs.Prelude.{◌≡◌, length};
ghost use Rattle.spans.specs.Refusals.{leaves};
ghost use Rattle.twofish.specs.Answers.{answer, answer_at};
ghost use Rattle.block.specs.Block.{enciphered, deciphered, block_number};
ghost use Rattle.sealed.specs.Image.{seal_number, seen_at, other_place, access_number, patch_count, sealed_in, read_from, patched_in};
ghost use Rattle.boxful.specs.Boxful.{judged, all_patched, all_counted, list_answer};
ghost use Rattle.masks.specs.Masks.{is_set, masks_of, how_many, next_of};
ghost use Rattle.report.specs.Slots.{is_same, is_changed, is_unreadable, page_changed, slots_that};
ghost use Rattle.report.specs.Report.{report_number, bank_number, changes_answer, totals_answer};
ghost use Rattle.settings.specs.declared.Entry.TheVariants.{Set, GoBack};
ghost use Rattle.settings.specs.Records.{record_at, state};
ghost use Rattle.settings.specs.Answers.{add_number, add_answer, read_number, read_answer, written};
ghost use Rattle.host.specs.Host.{schedule_of, keyed, keyed_list, geometry, or_none};

use boxful::{ListAnswer, Patch, Refused};
use report::{ChangesAnswer, TotalsAnswer};
use sealed::Geometry;
use settings::{Added, Reading};
use twofish::{Answer, Twofish};

// What stands for no page: one past the last.
const NO_PAGE: u32 = 256;

// The block enciphered where it lies; a refusal leaves every byte.
#[unsafe(no_mangle)]
pub extern "C" fn hf_encipher(key: &[u8], block: &mut [u8]) -> Answer
    ensures outcome { result ≡ answer (keyed key.now (λ t. block_number t block.old)) 0 }
    ensures block { block.new ≡ leaves (keyed key.now (λ t. block_number t block.old)) (enciphered (schedule_of key.now) block.old) block.old }
{
    match Twofish::new(key) {
        Ok(t) => block::encipher(t, block).into(),
        Err(refusal) => refusal.into(),
    }
}

// The block deciphered where it lies; a refusal leaves every byte.
#[unsafe(no_mangle)]
pub extern "C" fn hf_decipher(key: &[u8], block: &mut [u8]) -> Answer
    ensures outcome { result ≡ answer (keyed key.now (λ t. block_number t block.old)) 0 }
    ensures block { block.new ≡ leaves (keyed key.now (λ t. block_number t block.old)) (deciphered (schedule_of key.now) block.old) block.old }
{
    match Twofish::new(key) {
        Ok(t) => block::decipher(t, block).into(),
        Err(refusal) => refusal.into(),
    }
}

// A page sealed into its slot: 1 to 256 plain bytes, a short page filled at its end. A refusal leaves every byte.
#[unsafe(no_mangle)]
pub extern "C" fn hf_seal(
    key: &[u8],
    pages: u32,
    banks: u32,
    image: &mut [u8],
    bank: u32,
    page: u32,
    plain: &[u8],
) -> Answer
    ensures outcome { result ≡ answer (keyed key.now (λ t. seal_number t (geometry pages banks) (length image.old) bank page (length plain.now))) 17 }
    ensures image { image.new ≡ leaves (keyed key.now (λ t. seal_number t (geometry pages banks) (length image.old) bank page (length plain.now))) (sealed_in (enciphered (schedule_of key.now)) (geometry pages banks) bank page plain.now image.old) image.old }
{
    match Twofish::new(key) {
        Ok(t) => sealed::seal(t, Geometry { pages, banks }, image, bank, page, plain).into(),
        Err(refusal) => refusal.into(),
    }
}

// The plain bytes of a bank from an offset on, into the whole of out. A refusal leaves every byte.
#[unsafe(no_mangle)]
pub extern "C" fn hf_read(
    key: &[u8],
    pages: u32,
    banks: u32,
    image: &[u8],
    bank: u32,
    offset: u32,
    out: &mut [u8],
) -> Answer
    ensures outcome { result ≡ answer_at (other_place (seen_at (schedule_of key.now) (geometry pages banks) image.now bank offset)) (keyed key.now (λ t. access_number t (geometry pages banks) image.now bank offset (length out.old))) 0 }
    ensures out { out.new ≡ leaves (keyed key.now (λ t. access_number t (geometry pages banks) image.now bank offset (length out.old))) (read_from (deciphered (schedule_of key.now)) (geometry pages banks) bank offset (length out.old) image.now) out.old }
{
    match Twofish::new(key) {
        Ok(t) => sealed::read(t, Geometry { pages, banks }, image, bank, offset, out).into(),
        Err(refusal) => refusal.into(),
    }
}

// Bytes of a bank's page replaced from an offset on. A refusal leaves every byte.
#[unsafe(no_mangle)]
pub extern "C" fn hf_patch(
    key: &[u8],
    pages: u32,
    banks: u32,
    image: &mut [u8],
    bank: u32,
    offset: u32,
    bytes: &[u8],
) -> Answer
    ensures outcome { result ≡ answer_at (other_place (seen_at (schedule_of key.now) (geometry pages banks) image.old bank offset)) (keyed key.now (λ t. access_number t (geometry pages banks) image.old bank offset (length bytes.now))) (patch_count offset) }
    ensures image { image.new ≡ leaves (keyed key.now (λ t. access_number t (geometry pages banks) image.old bank offset (length bytes.now))) (patched_in (enciphered (schedule_of key.now)) (deciphered (schedule_of key.now)) (geometry pages banks) bank offset bytes.now image.old) image.old }
{
    match Twofish::new(key) {
        Ok(t) => sealed::patch(t, Geometry { pages, banks }, image, bank, offset, bytes).into(),
        Err(refusal) => refusal.into(),
    }
}

// The patches of a list made one by one, at most 64, each with its bytes from those that are lent. If one would be refused, none is made and every
// byte stays.
#[unsafe(no_mangle)]
pub extern "C" fn hf_patch_list(
    key: &[u8],
    pages: u32,
    banks: u32,
    image: &mut [u8],
    patches: &[Patch],
    bytes: &[u8],
) -> ListAnswer
    ensures outcome { result ≡ list_answer (keyed_list key.now (λ t. judged t (geometry pages banks) image.old patches.now bytes.now)) (all_counted patches.now) }
    ensures image { image.new ≡ leaves (keyed_list key.now (λ t. judged t (geometry pages banks) image.old patches.now bytes.now)).number (all_patched (schedule_of key.now) (geometry pages banks) bytes.now patches.now image.old) image.old }
{
    match Twofish::new(key) {
        Ok(t) => boxful::patch_all(t, Geometry { pages, banks }, image, patches, bytes).into(),
        Err(refusal) => Err(Refused { refusal, place: 0 }).into(),
    }
}

// The pages of a bank that can be read in both images and whose plain bytes differ. A refused report is all zeros.
#[unsafe(no_mangle)]
pub extern "C" fn hf_compare_bank(
    key: &[u8],
    pages: u32,
    banks: u32,
    old: &[u8],
    new: &[u8],
    bank: u32,
) -> ChangesAnswer
    ensures { result ≡ changes_answer (keyed key.now (λ t. bank_number t (geometry pages banks) (length old.now) (length new.now) bank)) (masks_of (page_changed (schedule_of key.now) (geometry pages banks) old.now new.now bank)) (how_many (page_changed (schedule_of key.now) (geometry pages banks) old.now new.now bank) 256) }
{
    match Twofish::new(key) {
        Ok(t) => report::compare_bank(t, Geometry { pages, banks }, old, new, bank).into(),
        Err(refusal) => ChangesAnswer::from(Err(refusal)),
    }
}

// How many slots of two images are the same, changed and unreadable. A refused report is all zeros.
#[unsafe(no_mangle)]
pub extern "C" fn hf_compare_image(
    key: &[u8],
    pages: u32,
    banks: u32,
    old: &[u8],
    new: &[u8],
) -> TotalsAnswer
    ensures { result ≡ totals_answer (keyed key.now (λ t. report_number t (geometry pages banks) (length old.now) (length new.now))) (slots_that (geometry pages banks) (is_same (schedule_of key.now) (geometry pages banks) old.now new.now)) (slots_that (geometry pages banks) (is_changed (schedule_of key.now) (geometry pages banks) old.now new.now)) (slots_that (geometry pages banks) (is_unreadable (schedule_of key.now) (geometry pages banks) old.now new.now)) }
{
    match Twofish::new(key) {
        Ok(t) => report::compare_image(t, Geometry { pages, banks }, old, new).into(),
        Err(refusal) => TotalsAnswer::from(Err(refusal)),
    }
}

// The next changed page of a report on a bank, from a given one on; 256 where there is none.
#[unsafe(no_mangle)]
pub extern "C" fn hf_next_changed(changes: ChangesAnswer, from: u32) -> u32
    ensures { result ≡ or_none (next_of (is_set changes.masks) from) }
{
    masks::next(changes.masks, from).unwrap_or(NO_PAGE)
}

// A setting set to a value: a record more in the store. A refusal leaves every byte.
#[unsafe(no_mangle)]
pub extern "C" fn hf_setting_set(store: &mut [u8], used: u32, setting: u32, value: u32) -> Added
    ensures outcome { result ≡ add_answer (add_number store.old used (Set setting value)) used }
    ensures store { store.new ≡ leaves (add_number store.old used (Set setting value)) (written (Set setting value) used store.old) store.old }
{
    settings::set(store, used, setting, value).into()
}

// The settings made what they were after the first records, so many as the version says: a record more. A refusal leaves every byte.
#[unsafe(no_mangle)]
pub extern "C" fn hf_setting_go_back(store: &mut [u8], used: u32, version: u32) -> Added
    ensures outcome { result ≡ add_answer (add_number store.old used (GoBack version)) used }
    ensures store { store.new ≡ leaves (add_number store.old used (GoBack version)) (written (GoBack version) used store.old) store.old }
{
    settings::go_back(store, used, version).into()
}

// The values of the settings after the first records, so many as the version says.
#[unsafe(no_mangle)]
pub extern "C" fn hf_settings_read(store: &[u8], used: u32, version: u32) -> Reading
    ensures { result ≡ read_answer (read_number store.now used version) (state (record_at store.now) version) }
{
    settings::read(store, used, version).into()
}
