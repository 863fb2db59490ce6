// Settings that can go back: 32 of them in a lent store of records, each of which sets one or goes back to a version before it.
#![tactic(auto)]

ghost use Rattle.std.specs.Prelude.{◌≡◌, ℕ, ◌*◌, ◌≤◌, false, length};
ghost use Rattle.spans.specs.Refusals.{given, leaves};
ghost use Rattle.settings.specs.Records.{laid, said, outside, breaks, broken, record_at, state};
ghost use Rattle.settings.specs.declared.Entry.TheVariants.{Set, GoBack};
ghost use Rattle.settings.specs.Answers.{refusal_number, outcome_number, added, reading, refusals, add_number, add_answer, read_number, read_answer, written};

// Settings, bytes of a store, bytes of a record, and the most records.
pub const SETTINGS: usize = 32;

pub const STORE: usize = 8192;

const RECORD: usize = 8;

pub const MOST: u32 = 1024;

// Why a call is refused.
#[derive(Clone, Copy, Debug, PartialEq, Eq)]
pub enum Refusal {
    // The store is not 8,192 bytes, or more than 1,024 records are used.
    Store = 16,
    // A used record breaks the layout.
    Layout = 17,
    // The setting is above 31, or the version above the used number.
    Outside = 18,
    // As many records are used as there can be.
    Full = 19,
}

impl From<Refusal> for u32 {
    ghost from_gives = { λ refusal n. n ≡ refusal_number refusal };

    // Its number.
    fn from(refusal: Refusal) -> u32 {
        refusal as u32
    }
}

// Why a record is not added, and the used number that was given.
#[derive(Clone, Copy, Debug, PartialEq, Eq)]
pub struct Refused {
    pub refusal: Refusal,
    pub used: u32,
}

// What a C caller is answered to a record: the number of the refusal, or 0, and the used number from then on.
#[repr(C)]
#[derive(Clone, Copy, Debug, PartialEq, Eq)]
pub struct Added {
    pub number: u32,
    pub used: u32,
}

impl From<Result<u32, Refused>> for Added {
    ghost from_gives = { λ outcome answer. answer ≡ added outcome };

    fn from(outcome: Result<u32, Refused>) -> Added {
        match outcome {
            Ok(used) => Added { number: 0, used },
            Err(refused) => Added {
                number: refused.refusal.into(),
                used: refused.used,
            },
        }
    }
}

// What a C caller is answered to a reading: the number of the refusal, or 0, and the values of the settings.
#[repr(C)]
#[derive(Clone, Copy, Debug, PartialEq, Eq)]
pub struct Reading {
    pub number: u32,
    pub values: [u32; SETTINGS],
}

impl From<Result<[u32; SETTINGS], Refusal>> for Reading {
    ghost from_gives = { λ outcome answer. answer ≡ reading outcome };

    fn from(outcome: Result<[u32; SETTINGS], Refusal>) -> Reading {
        match outcome {
            Ok(values) => Reading { number: 0, values },
            Err(refusal) => Reading {
                number: refusal.into(),
                values: [0; SETTINGS],
            },
        }
    }
}

// What a record says.
#[derive(Clone, Copy, Debug, PartialEq, Eq)]
pub enum Entry {
    // A setting is set to a value.
    Set { setting: u32, value: u32 },
    // The state becomes what it was after the first records, so many as the version says.
    GoBack { version: u32 },
}

impl Entry {
    // What eight bytes say.
    fn parse(bytes: &[u8]) -> Entry
        requires { length bytes.now ≡ 8 }
        ensures { result ≡ said bytes.now }
    {
        let value = words::from_le_bytes([bytes[4], bytes[5], bytes[6], bytes[7]]);
        if bytes[1] == 0 {
            Entry::Set {
                setting: bytes[0].into(),
                value,
            }
        } else {
            Entry::GoBack { version: value }
        }
    }

    // Its eight bytes.
    fn to_bytes(self) -> [u8; RECORD]
        requires { (before : ℕ) × (outside before self ≡ false) }
        ensures { result ≡ laid self }
    {
        let (setting, kind, value) = match self {
            Entry::Set { setting, value } => (setting as u8, 0, value),
            Entry::GoBack { version } => (0, 1, version),
        };
        let v = words::to_le_bytes(value);
        [setting, kind, 0, 0, v[0], v[1], v[2], v[3]]
    }

    // Whether its setting is above 31, or its version above the records before it.
    fn outside(self, before: u32) -> bool
        ensures { result ≡ outside before self }
    {
        match self {
            Entry::Set { setting, .. } => setting as usize >= SETTINGS,
            Entry::GoBack { version } => version > before,
        }
    }
}

// Whether eight bytes break the layout, with so many records before them.
#[tactic(auto, using(std::proofs::lemmas::Bool::Decides::nat_tests), unfolding(crate::specs::Records::breaks))]
fn breaks(bytes: &[u8], before: u32) -> bool
    requires { length bytes.now ≡ 8 }
    ensures { result ≡ breaks before bytes.now }
{
    bytes[1] > 1
        || bytes[2] != 0
        || bytes[3] != 0
        || bytes[1] == 1 && bytes[0] != 0
        || Entry::parse(bytes).outside(before)
}

// Whether one of the first records breaks the layout.
fn broken(store: &[u8], used: u32) -> bool
    requires { 8 * used ≤ length store.now }
    ensures { result ≡ broken used store.now }
{
    for i in 0..used {
        let at = RECORD * i as usize;
        if breaks(&store[at..at + RECORD], i) {
            return true;
        }
    }
    false
}

// Whether a call is taken, or else its first refusal in order.
#[tactic(auto, using(std::proofs::lemmas::Bool::Decides::nat_tests), unfolding(crate::specs::Answers::refusals, spans::specs::Refusals::given))]
fn judge(store: &[u8], used: u32, outside: bool, full: bool) -> Result<(), Refusal>
    ensures { outcome_number result ≡ given (refusals store.now used outside full) }
{
    if store.len() != STORE || used > MOST {
        return Err(Refusal::Store);
    }
    if broken(store, used) {
        return Err(Refusal::Layout);
    }
    if outside {
        return Err(Refusal::Outside);
    }
    if full {
        return Err(Refusal::Full);
    }
    Ok(())
}

// A record added after the used ones. A refusal leaves every byte.
fn add(store: &mut [u8], used: u32, entry: Entry) -> Result<u32, Refused>
    ensures outcome { added result ≡ add_answer (add_number store.old used entry) used }
    ensures store { store.new ≡ leaves (add_number store.old used entry) (written entry used store.old) store.old }
{
    if let Err(refusal) = judge(store, used, entry.outside(used), used == MOST) {
        return Err(Refused { refusal, used });
    }
    let at = RECORD * used as usize;
    store[at..at + RECORD].copy_from_slice(&entry.to_bytes());
    Ok(used + 1)
}

// A setting set to a value: a record more. A refusal leaves every byte.
pub fn set(store: &mut [u8], used: u32, setting: u32, value: u32) -> Result<u32, Refused>
    ensures outcome { added result ≡ add_answer (add_number store.old used (Set setting value)) used }
    ensures store { store.new ≡ leaves (add_number store.old used (Set setting value)) (written (Set setting value) used store.old) store.old }
{
    add(store, used, Entry::Set { setting, value })
}

// The state made what it was after the first records, so many as the version says: a record more. A refusal leaves every byte.
pub fn go_back(store: &mut [u8], used: u32, version: u32) -> Result<u32, Refused>
    ensures outcome { added result ≡ add_answer (add_number store.old used (GoBack version)) used }
    ensures store { store.new ≡ leaves (add_number store.old used (GoBack version)) (written (GoBack version) used store.old) store.old }
{
    add(store, used, Entry::GoBack { version })
}

// The state after the first records: from the last of them down, the newest value of each setting. A going back leaves out what it undoes.
fn state(store: &[u8], version: u32) -> [u32; SETTINGS]
    requires long { 8 * version ≤ length store.now }
    requires whole { broken version store.now ≡ false }
    ensures { result ≡ state (record_at store.now) version }
{
    let mut values = [0; SETTINGS];
    let mut found = [false; SETTINGS];
    let mut n = version as usize;
    while n > 0 {
        n -= 1;
        match Entry::parse(&store[RECORD * n..RECORD * n + RECORD]) {
            Entry::Set { setting, value } => {
                let i = setting as usize;
                if !found[i] {
                    found[i] = true;
                    values[i] = value;
                }
            }
            Entry::GoBack { version } => n = version as usize,
        }
    }
    values
}

// The values of the settings after the first records, so many as the version says.
pub fn read(store: &[u8], used: u32, version: u32) -> Result<[u32; SETTINGS], Refusal>
    ensures { reading result ≡ read_answer (read_number store.now used version) (state (record_at store.now) version) }
{
    judge(store, used, version > used, false)?;
    Ok(state(store, version))
}

#[cfg(test)]
mod tests {
    use super::*;

    // Three records, by the layout: setting 3 is set twice, and then the state goes back to the first record.
    #[test]
    fn set_and_gone_back(rt: HostRuntime) {
        let mut store = [0xff; STORE];
        assert_eq!(rt;
            Added::from(set(&mut store, 0, 3, 0x01020304)),
            Added { number: 0, used: 1 }
        );
        assert_eq!(rt; set(&mut store, 1, 3, 7), Ok(2));
        assert_eq!(rt; go_back(&mut store, 2, 1), Ok(3));
        assert!(rt; store[..16] == [3, 0, 0, 0, 4, 3, 2, 1, 3, 0, 0, 0, 7, 0, 0, 0]);
        assert!(rt; store[16..25] == [0, 1, 0, 0, 1, 0, 0, 0, 0xff]);
        for (version, value) in [(0, 0), (1, 0x01020304), (2, 7), (3, 0x01020304)] {
            let reading = Reading::from(read(&store, 3, version));
            assert_eq!(rt; reading.number, 0);
            assert_eq!(rt; reading.values[3], value);
            assert_eq!(rt; reading.values[4], 0);
        }
    }

    // Each refusal, and what it answers.
    #[test]
    fn refusals(rt: HostRuntime) {
        let mut store = [0; STORE];
        let zeros = [0; SETTINGS];
        assert_eq!(rt;
            Added::from(set(&mut store, 1025, 0, 1)),
            Added {
                number: 16,
                used: 1025
            }
        );
        assert_eq!(rt;
            Added::from(set(&mut store, 1024, 0, 1)),
            Added {
                number: 19,
                used: 1024
            }
        );
        assert_eq!(rt;
            Added::from(set(&mut store, 5, 32, 1)),
            Added {
                number: 18,
                used: 5
            }
        );
        assert_eq!(rt;
            Added::from(go_back(&mut store, 5, 6)),
            Added {
                number: 18,
                used: 5
            }
        );
        assert_eq!(rt;
            Reading::from(read(&store[1..], 5, 5)),
            Reading {
                number: 16,
                values: zeros
            }
        );
        assert_eq!(rt;
            Reading::from(read(&store, 5, 6)),
            Reading {
                number: 18,
                values: zeros
            }
        );
        store[1] = 2;
        assert_eq!(rt;
            Reading::from(read(&store, 5, 6)),
            Reading {
                number: 17,
                values: zeros
            }
        );
        assert_eq!(rt;
            Reading::from(read(&store, 0, 0)),
            Reading {
                number: 0,
                values: zeros
            }
        );
    }
}
