// What changed between two images of one key and geometry: the pages of a bank, and the totals of the image.
#![tactic(auto)]

ghost use Rattle.std.specs.Prelude.{◌≡◌, length, true};
ghost use Rattle.twofish.specs.Answers.{answer, answered};
ghost use Rattle.sealed.specs.Image.{reached};
ghost use Rattle.masks.specs.Masks.{masks_of, how_many};
ghost use Rattle.report.specs.Slots.{is_same, is_changed, is_unreadable, Finds, page_changed, slots_that};
ghost use Rattle.report.specs.Report.{report_number, bank_number, changes_told, changes_answer, totals_told, totals_answer};

use sealed::Geometry;
use twofish::{Refusal, Twofish};

// The pages of a bank that changed: bit page mod 64 of mask page div 64, and how many there are.
#[derive(Clone, Copy, Debug, PartialEq, Eq)]
pub struct Changes {
    pub masks: [u64; 4],
    pub changed: u32,
}

// How many slots of an image are the same, changed and unreadable.
#[derive(Clone, Copy, Debug, PartialEq, Eq)]
pub struct Totals {
    pub same: u32,
    pub changed: u32,
    pub unreadable: u32,
}

// What a C caller is answered to a report on a bank: the number of its refusal, 0 where it is done, and the report, all zeros where it is refused.
#[repr(C)]
#[derive(Clone, Copy, Debug, PartialEq, Eq)]
pub struct ChangesAnswer {
    pub number: u32,
    pub changed: u32,
    pub masks: [u64; 4],
}

// The same of the totals of an image.
#[repr(C)]
#[derive(Clone, Copy, Debug, PartialEq, Eq)]
pub struct TotalsAnswer {
    pub number: u32,
    pub same: u32,
    pub changed: u32,
    pub unreadable: u32,
}

// What a slot comes to.
#[derive(Clone, Copy, Debug, PartialEq, Eq)]
enum Compared {
    // It can be read in both images, and its plain bytes are the same.
    Same,
    // It can be read in both, and they differ.
    Changed,
    // It cannot be read in one of them.
    Unreadable,
}

impl From<Result<Changes, Refusal>> for ChangesAnswer {
    ghost from_gives = { λ outcome answer. answer ≡ changes_told outcome };

    fn from(outcome: Result<Changes, Refusal>) -> ChangesAnswer {
        match outcome {
            Ok(changes) => {
                let masks = changes.masks;
                ChangesAnswer {
                    number: 0,
                    changed: changes.changed,
                    masks,
                }
            }
            Err(refusal) => ChangesAnswer {
                number: refusal.into(),
                changed: 0,
                masks: [0; 4],
            },
        }
    }
}

impl From<Result<Totals, Refusal>> for TotalsAnswer {
    ghost from_gives = { λ outcome answer. answer ≡ totals_told outcome };

    fn from(outcome: Result<Totals, Refusal>) -> TotalsAnswer {
        match outcome {
            Ok(totals) => TotalsAnswer {
                number: 0,
                same: totals.same,
                changed: totals.changed,
                unreadable: totals.unreadable,
            },
            Err(refusal) => TotalsAnswer {
                number: refusal.into(),
                same: 0,
                changed: 0,
                unreadable: 0,
            },
        }
    }
}

// Whether two images are taken, or else the first refusal of their schedule, their geometry and either length in order.
fn judge(t: Twofish, geometry: Geometry, old: &[u8], new: &[u8]) -> Result<(), Refusal>
    ensures { answered result ≡ answer (report_number t geometry (length old.now) (length new.now)) 0 }
{
    sealed::judge(t, geometry, old.len())?;
    sealed::judge(t, geometry, new.len())
}

// What the slot of a page comes to. Two records of one place are the same exactly where their pages are, so no page is opened, and the same record
// is looked at once.
fn compare_slot(
    t: Twofish,
    geometry: Geometry,
    old: &[u8],
    new: &[u8],
    bank: u32,
    page: u32,
) -> Compared
    requires taken { report_number t geometry (length old.now) (length new.now) ≡ 0 }
    requires there { reached geometry bank page ≡ true }
    ensures { Finds t geometry old.now new.now bank page result }
{
    let front = 256 * page;
    let Ok(at) = sealed::find(t, geometry, old, bank, front, 1) else {
        return Compared::Unreadable;
    };
    let end = at + Twofish::RECORD;
    if old[at..end] == new[at..end] {
        return Compared::Same;
    }
    if sealed::find(t, geometry, new, bank, front, 1).is_err() {
        return Compared::Unreadable;
    }
    Compared::Changed
}

// The pages of a bank that can be read in both images and whose plain bytes differ.
pub fn compare_bank(
    t: Twofish,
    geometry: Geometry,
    old: &[u8],
    new: &[u8],
    bank: u32,
) -> Result<Changes, Refusal>
    ensures { changes_told result ≡ changes_answer (bank_number t geometry (length old.now) (length new.now) bank) (masks_of (page_changed t geometry old.now new.now bank)) (how_many (page_changed t geometry old.now new.now bank) 256) }
{
    judge(t, geometry, old, new)?;
    if bank >= geometry.banks {
        return Err(Refusal::Place);
    }
    let mut masks = [0; 4];
    for page in 0..geometry.pages {
        if matches!(
            compare_slot(t, geometry, old, new, bank, page),
            Compared::Changed
        ) {
            masks::mark(&mut masks, page);
        }
    }
    Ok(Changes {
        masks,
        changed: masks::ones(masks),
    })
}

// How many slots of two images are the same, changed and unreadable.
pub fn compare_image(
    t: Twofish,
    geometry: Geometry,
    old: &[u8],
    new: &[u8],
) -> Result<Totals, Refusal>
    ensures { totals_told result ≡ totals_answer (report_number t geometry (length old.now) (length new.now)) (slots_that geometry (is_same t geometry old.now new.now)) (slots_that geometry (is_changed t geometry old.now new.now)) (slots_that geometry (is_unreadable t geometry old.now new.now)) }
{
    judge(t, geometry, old, new)?;
    let mut totals = Totals {
        same: 0,
        changed: 0,
        unreadable: 0,
    };
    for slot in 0..geometry.pages * geometry.banks {
        let bank = slot / geometry.pages;
        let page = slot % geometry.pages;
        match compare_slot(t, geometry, old, new, bank, page) {
            Compared::Same => totals.same += 1,
            Compared::Changed => totals.changed += 1,
            Compared::Unreadable => totals.unreadable += 1,
        }
    }
    Ok(totals)
}

#[cfg(test)]
mod tests {
    use super::*;

    #[test]
    fn one_page_changed_and_one_is_unreadable(rt: HostRuntime) {
        let t = Twofish::new(&[7; 16]).unwrap_or(Twofish::REFUSED);
        let geometry = Geometry { pages: 2, banks: 2 };
        let mut old = [0; 1088];
        for bank in 0..2 {
            for page in 0..2 {
                assert_eq!(rt;
                    sealed::seal(t, geometry, &mut old, bank, page, &[bank as u8; 256]),
                    Ok(17)
                );
            }
        }
        let mut new = old;
        assert_eq!(rt; sealed::patch(t, geometry, &mut new, 1, 0x1ff, &[9]), Ok(1));
        new[0] ^= 1;
        let changes = Changes {
            masks: [2, 0, 0, 0],
            changed: 1,
        };
        assert_eq!(rt; compare_bank(t, geometry, &old, &new, 1), Ok(changes));
        let none = compare_bank(t, geometry, &old, &new, 0);
        assert_eq!(rt; none.map(|changes| changes.changed), Ok(0));
        let totals = Totals {
            same: 2,
            changed: 1,
            unreadable: 1,
        };
        assert_eq!(rt; compare_image(t, geometry, &old, &new), Ok(totals));
        assert_eq!(rt;
            compare_image(t, geometry, &old, &new[1..]),
            Err(Refusal::ImageLength)
        );
    }
}
