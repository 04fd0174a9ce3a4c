// Codes packed into 32 bits, and taken apart.
//
// Bits 0 and 1 are the kind: 0 nothing, 1 a cell, 2 above, 3 beside. A cell has its setting in bits 2 to 4; a cut has
// its left set in bits 2 to 13, and a beside cut its left width in bits 14 to 18. All other bits are 0.
ghost use Rattle.std.specs.Prelude.{◌≡◌, ◌+◌, ◌*◌, ◌/◌, ◌%◌, ◌^◌, ◌<◌, nat_lt, true};
ghost use Rattle.layout.specs.Codes.{code_kind, code_number, in_range, kind_bits, kind_limit, packed, said, unpacked, CodesRoundTrip};

use crate::code::{Code, CodeKind};
use fault::{Fault, Refusal};

// Bits of a word that stand together.
#[derive(Clone, Copy)]
struct Bits {
    // the first of them
    at: u32,
    // how many they are
    count: u32,
    ghost inside: { at + count < 32 },
}

// The kind, in every word.
const KIND: Bits = Bits { at: 0, count: 2 };

// The setting of a cell.
const SETTING: Bits = Bits { at: 2, count: 3 };

// The left set of a cut.
const LEFT: Bits = Bits { at: 2, count: 12 };

// The left width of a cut into parts beside each other.
const WIDTH: Bits = Bits { at: 14, count: 5 };

impl Bits {
    // Whether the number fits into them.
    fn hold(self, part: u32) -> bool
        ensures { result ≡ nat_lt part (2 ^ self.count) }
    {
        part < 1 << self.count
    }

    // The word with the number in them. Before, no bit from the first of them on is set.
    fn put(self, part: u32, word: u32) -> u32
        requires part { part < 2 ^ self.count }
        requires word { word < 2 ^ self.at }
        ensures { result ≡ part * 2 ^ self.at + word }
    {
        part << self.at | word
    }

    // The number in them.
    fn read(self, word: u32) -> u32
        ensures { result ≡ word / 2 ^ self.at % 2 ^ self.count }
    {
        word >> self.at & (1 << self.count) - 1
    }

    // The least word with a bit above them.
    fn limit(self) -> u32
        ensures { result ≡ 2 ^ (self.at + self.count) }
    {
        1 << self.at + self.count
    }
}

impl Code {
    // The code's kind.
    pub fn kind(self) -> CodeKind
        ensures { kind_bits result ≡ code_kind self }
    {
        match self {
            Code::Nothing => CodeKind::Nothing,
            Code::Cell { .. } => CodeKind::Cell,
            Code::Above { .. } => CodeKind::Above,
            Code::Beside { .. } => CodeKind::Beside,
        }
    }

    // Whether each part fits into its bits.
    fn in_range(self) -> bool
        ensures { result ≡ in_range self }
    {
        match self {
            Code::Nothing => true,
            Code::Cell { setting } => SETTING.hold(u32::from(setting)),
            Code::Above { left } => LEFT.hold(u32::from(left)),
            Code::Beside { left, width } => {
                LEFT.hold(u32::from(left)) && WIDTH.hold(u32::from(width))
            }
        }
    }

    // The word of a code whose parts fit.
    fn word(self) -> u32
        requires { in_range self ≡ true }
        ensures { result ≡ code_number self }
    {
        let kind = KIND.put(u32::from(u8::from(self.kind())), 0);
        match self {
            Code::Nothing => kind,
            Code::Cell { setting } => SETTING.put(u32::from(setting), kind),
            Code::Above { left } => LEFT.put(u32::from(left), kind),
            Code::Beside { left, width } => {
                WIDTH.put(u32::from(width), LEFT.put(u32::from(left), kind))
            }
        }
    }
}

// The word that holds a code. It is refused where a part does not fit into its bits.
impl TryFrom<Code> for u32 {
    type Error = Fault;

    ghost try_from_gives = { λ code r. r ≡ packed code };

    fn try_from(code: Code) -> Result<u32, Fault> {
        if !code.in_range() {
            return Err(Refusal::SpoiledCode.into());
        }
        Ok(code.word())
    }
}

// The code that a word holds. It is refused where a bit is set that its kind does not use.
impl TryFrom<u32> for Code {
    type Error = Fault;

    ghost try_from_gives = { λ word r. r ≡ unpacked word };

    fn try_from(word: u32) -> Result<Code, Fault> {
        let kind = kind_of(word);
        if word >= kind_limit(kind) {
            return Err(Refusal::SpoiledCode.into());
        }
        Ok(said(kind, word))
    }
}

// The number of a kind in bits 0 and 1.
impl From<CodeKind> for u8 {
    ghost from_gives = { λ kind n. n ≡ kind_bits kind };

    fn from(kind: CodeKind) -> u8 {
        kind as u8
    }
}

// The kind that a word says.
fn kind_of(word: u32) -> CodeKind
    ensures { kind_bits result ≡ word % 4 }
{
    match KIND.read(word) {
        0 => CodeKind::Nothing,
        1 => CodeKind::Cell,
        2 => CodeKind::Above,
        _ => CodeKind::Beside,
    }
}

// What the words of a kind stay below. A larger one has a bit set that its kind does not use.
fn kind_limit(kind: CodeKind) -> u32
    ensures { result ≡ kind_limit (kind_bits kind) }
{
    match kind {
        CodeKind::Nothing => 1,
        CodeKind::Cell => SETTING.limit(),
        CodeKind::Above => LEFT.limit(),
        CodeKind::Beside => WIDTH.limit(),
    }
}

// What the parts of a word of this kind say.
fn said(kind: CodeKind, word: u32) -> Code
    ensures { result ≡ said (kind_bits kind) word }
{
    match kind {
        CodeKind::Nothing => Code::Nothing,
        CodeKind::Cell => Code::Cell {
            setting: SETTING.read(word) as u8,
        },
        CodeKind::Above => Code::Above {
            left: LEFT.read(word) as u16,
        },
        CodeKind::Beside => Code::Beside {
            left: LEFT.read(word) as u16,
            width: WIDTH.read(word) as u8,
        },
    }
}

// A code whose parts fit is taken apart as it was packed, and each number that is a code was packed from it.
pub fn codes_round_trip()
    ensures { CodesRoundTrip }
{}
