// A list of patches on a sealed image: every one is judged on the image as it came before the first is made.
#![tactic(auto)]

ghost use Rattle.std.specs.Prelude.{◌≡◌, length, MatchResult};
ghost use Rattle.spans.specs.Refusals.{leaves};
ghost use Rattle.twofish.specs.Answers.{nowhere, answer_at, refusal_number, refusal_location, answered};
ghost use Rattle.block.specs.Block.{enciphered, deciphered};
ghost use Rattle.sealed.specs.Image.{seen_at, other_place, patched_in, patch_count};
ghost use Rattle.boxful.specs.declared.Patch.{Patch};
ghost use Rattle.boxful.specs.Boxful.{written, item_number, judged, all_patched, all_counted, list_answer, listed};

use sealed::Geometry;
use twofish::{Location, Refusal, Twofish};

// The most patches of a list.
pub const MOST: usize = 64;

// A patch of a list: where it goes, and where its bytes lie among those that are lent.
#[repr(C)]
#[derive(Clone, Copy, Debug, PartialEq, Eq)]
pub struct Patch {
    pub bank: u32,
    pub offset: u32,
    pub start: u32,
    pub length: u32,
}

// Why a list is refused, and the place of the first patch that is, counted from 0; 0 where the list as a whole is refused.
#[derive(Clone, Copy, Debug, PartialEq, Eq)]
pub struct Refused {
    pub refusal: Refusal,
    pub place: u32,
}

// What a C caller is answered to a list: as to a call, and the place of the first patch that is refused.
#[repr(C)]
#[derive(Clone, Copy, Debug, PartialEq, Eq)]
pub struct ListAnswer {
    pub number: u32,
    pub count: u32,
    pub place: u32,
    pub bank: u32,
    pub page: u32,
}

impl From<Result<u32, Refused>> for ListAnswer {
    ghost from_gives = { λ outcome answer. answer ≡ listed outcome };

    fn from(outcome: Result<u32, Refused>) -> ListAnswer {
        match outcome {
            Ok(count) => ListAnswer {
                number: 0,
                count,
                place: 0,
                bank: 0,
                page: 0,
            },
            Err(refused) => {
                let Location { bank, page } = refused.refusal.location();
                ListAnswer {
                    number: refused.refusal.into(),
                    count: 0,
                    place: refused.place,
                    bank,
                    page,
                }
            }
        }
    }
}

// Whether a patch is taken on this image, or else its first refusal in order.
fn judge_patch(
    t: Twofish,
    geometry: Geometry,
    image: &[u8],
    patch: Patch,
    bytes: &[u8],
) -> Result<(), Refusal>
    ensures { answered result ≡ answer_at (other_place (seen_at t geometry image.now patch.bank patch.offset)) (item_number t geometry image.now bytes.now patch) 0 }
{
    let length = patch.length as usize;
    if patch.start as usize + length > bytes.len() {
        return Err(Refusal::Outside);
    }
    sealed::find(t, geometry, image, patch.bank, patch.offset, length)?;
    Ok(())
}

// Whether a list is taken on this image, or else its first refusal.
fn judge(
    t: Twofish,
    geometry: Geometry,
    image: &[u8],
    patches: &[Patch],
    bytes: &[u8],
) -> Result<(), Refused>
    ensures { MatchResult result (λ _. judged t geometry image.now patches.now bytes.now ≡ record { number = 0; place = 0; held = nowhere }) (λ e. judged t geometry image.now patches.now bytes.now ≡ record { number = refusal_number e.refusal; place = e.place; held = refusal_location e.refusal }) }
{
    if let Err(refusal) = sealed::judge(t, geometry, image.len()) {
        return Err(Refused { refusal, place: 0 });
    }
    if patches.len() > MOST {
        return Err(Refused {
            refusal: Refusal::TooMany,
            place: 0,
        });
    }
    for i in 0..patches.len() {
        if let Err(refusal) = judge_patch(t, geometry, image, patches[i], bytes) {
            return Err(Refused {
                refusal,
                place: i as u32,
            });
        }
    }
    Ok(())
}

// A patch that is taken, made. What is said of any other stays as it was.
fn make(t: Twofish, geometry: Geometry, image: &mut [u8], patch: Patch, bytes: &[u8]) -> u32
    requires { item_number t geometry image.old bytes.now patch ≡ 0 }
    ensures count { result ≡ patch_count patch.offset }
    ensures image { image.new ≡ patched_in (enciphered t) (deciphered t) geometry patch.bank patch.offset (written patch bytes.now) image.old }
    ensures said { (q : Patch) → item_number t geometry image.new bytes.now q ≡ item_number t geometry image.old bytes.now q }
{
    let start = patch.start as usize;
    let part = &bytes[start..start + patch.length as usize];
    sealed::patch(t, geometry, image, patch.bank, patch.offset, part).unwrap_or(0)
}

// The patches of a list made one by one, at most 64, each with its bytes from those that are lent. If one would be refused, none is made and every
// byte stays.
pub fn patch_all(
    t: Twofish,
    geometry: Geometry,
    image: &mut [u8],
    patches: &[Patch],
    bytes: &[u8],
) -> Result<u32, Refused>
    ensures outcome { listed result ≡ list_answer (judged t geometry image.old patches.now bytes.now) (all_counted patches.now) }
    ensures image { image.new ≡ leaves (judged t geometry image.old patches.now bytes.now).number (all_patched t geometry bytes.now patches.now image.old) image.old }
{
    judge(t, geometry, image, patches, bytes)?;
    let mut count = 0;
    for i in 0..patches.len() {
        count += make(t, geometry, image, patches[i], bytes);
    }
    Ok(count)
}
