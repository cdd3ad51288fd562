// Frame types: which rank, size class and sort of frame 16 bits announce (frame.rs FRAME_TYPES, CONTROL_FRAME_TYPES).
ghost use Rattle.std.specs.Prelude.{◌≡◌, true, map, ◌+◌, ◌*◌, ◌≤◌, ◌<◌, length, take, drop, get_or};
ghost use Rattle.coding.specs.Bits.{odd, value, are_bits};
ghost use Rattle.frame.specs.Kinds.{kinds, blank_kind, kind_of, sync_size};

// What a frame type says of a frame.
#[derive(Clone, Copy)]
pub struct FrameKind {
    pub rank: u8,
    // 0: no byte or a bit, 1: 1 byte, 2: 2 to 4, 3: 5 to 8, 4: 9 to 12 bytes.
    pub class: u8,
    pub control: bool,
}

// Control frames (keep-alive, downlink confirmation): 7 or 8 bytes, laid out like payload class 3.
const CONTROL_CLASS: u8 = 3;

// Bits of a frame type as it is searched: the preamble's last three and the 13 of the type.
pub const SYNC: usize = 16;

// For ranks 0, 1, 2: the control frame's, then those of classes 0 to 4.
pub const FRAME_TYPES: [u16; 18] = [
    0xaf67, 0xa06b, 0xa08d, 0xa35f, 0xa611, 0xa94c, 0xafc9, 0xa6e0, 0xa0d2, 0xa598, 0xa6bf, 0xa971,
    0xb1be, 0xa034, 0xa302, 0xa5a3, 0xa72c, 0xa997,
];

// The kind at a place of the table.
fn kind_at(i: usize) -> FrameKind
    requires { i < 18 }
    ensures { result ≡ get_or kinds i blank_kind }
{
    let rank = (i / 6) as u8;
    let place = (i % 6) as u8;
    if place == 0 {
        return FrameKind {
            rank,
            class: CONTROL_CLASS,
            control: true,
        };
    }
    FrameKind {
        rank,
        class: place - 1,
        control: false,
    }
}

// The kind whose frame type the 16 bits are, or none.
pub fn find_kind(ft: u16) -> Option<FrameKind>
    ensures { result ≡ kind_of ft kinds }
{
    for (i, t) in FRAME_TYPES.iter().enumerate() {
        if *t == ft {
            return Some(kind_at(i));
        }
    }
    None
}

// The number that the 16 bits at `at` stand for (frame.rs bits_value).
pub fn word(bits: &[u8], at: usize) -> u16
    requires { (are_bits bits.now ≡ true) × (at + sync_size ≤ length bits.now) }
    ensures { result ≡ value (take sync_size (drop at (map odd bits.now))) }
{
    let mut v: u16 = 0;
    for b in &bits[at..at + SYNC] {
        v = (v % 32768) * 2 + u16::from(*b);
    }
    v
}
