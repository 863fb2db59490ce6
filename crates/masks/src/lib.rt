// Four masks of 64 bits: a bit for each of up to 256 pages.
#![tactic(auto)]

ghost use Rattle.std.specs.Prelude.{◌≡◌};
ghost use Rattle.masks.specs.Masks.{is_set, marked, how_many, next_of};

// How many pages have a bit.
const PAGES: u32 = 256;

// Sets the bit of a page. A page without a bit changes nothing.
pub fn mark(masks: &mut [u64; 4], page: u32)
    ensures { masks.new ≡ marked masks.old page }
{
    if page < PAGES {
        masks[page as usize / 64] |= 1 << (page % 64);
    }
}

// How many bits are set.
pub fn ones(masks: [u64; 4]) -> u32
    ensures { result ≡ how_many (is_set masks) 256 }
{
    masks[0].count_ones() + masks[1].count_ones() + masks[2].count_ones() + masks[3].count_ones()
}

// The next page whose bit is set, from a given one on, or none.
pub fn next(masks: [u64; 4], from: u32) -> Option<u32>
    ensures { result ≡ next_of (is_set masks) from }
{
    let mut page = from;
    while page < PAGES {
        let rest = masks[page as usize / 64] >> (page % 64);
        if rest != 0 {
            return Some(page + rest.trailing_zeros());
        }
        page = 64 * (page / 64 + 1);
    }
    None
}

#[cfg(test)]
mod tests {
    use super::*;

    #[test]
    fn pages_are_marked_counted_and_found(rt: HostRuntime) {
        let mut masks = [0; 4];
        for page in [3, 64, 255, 256] {
            mark(&mut masks, page);
        }
        assert_eq!(rt; masks, [1 << 3, 1, 0, 1 << 63]);
        assert_eq!(rt; ones(masks), 3);
        for (from, page) in [
            (0, Some(3)),
            (3, Some(3)),
            (4, Some(64)),
            (65, Some(255)),
            (256, None),
        ] {
            assert_eq!(rt; next(masks, from), page);
        }
        assert_eq!(rt; next([1, 0, 0, 0], 1), None);
    }
}
