// Sizes of a frame's parts, in bytes, by its size class and LI (frame.rs sizes).
ghost use Rattle.std.specs.Prelude.{◌≡◌, ◌≤◌};
ghost use Rattle.frame.specs.Sizes.{most_payload, most_auth, payload_size, auth_size, body_bytes, most_bytes};
ghost use Rattle.frame.specs.Fields.{bit_from};
ghost use Rattle.frame.specs.Header.{class_of, li_of};

// LI, BF, REP and counter, then the device.
pub const HEADER: usize = 6;

pub const MOST_PAYLOAD: usize = 12;

// The size class and LI of a message.
#[derive(Clone, Copy)]
pub struct Layout {
    pub class: u8,
    pub li: u8,
    pub ghost known: { class ≤ 4 },
    pub ghost low: { li ≤ 3 },
}

impl Layout {
    // By the single bit, or the payload's length (frame.rs uplink_header).
    pub fn new(bit: Option<bool>, n: usize) -> Layout
        requires { n ≤ most_payload }
        ensures { (result.class ≡ class_of bit n) × (result.li ≡ li_of bit n) }
    {
        match bit {
            Some(b) => Layout {
                class: 0,
                li: if b { 3 } else { 2 },
            },
            None => {
                if n == 0 {
                    return Layout { class: 0, li: 0 };
                }
                if n == 1 {
                    return Layout { class: 1, li: 0 };
                }
                Layout {
                    class: ((n - 1) / 4 + 2) as u8,
                    li: (3 - (n - 1) % 4) as u8,
                }
            }
        }
    }

    pub fn payload_size(self) -> u8
        ensures { (result ≡ payload_size self.class self.li) × (result ≤ most_payload) }
    {
        if self.class == 0 {
            return 0;
        }
        if self.class == 1 {
            return 1;
        }
        4 * (self.class - 1) - self.li
    }

    // Bytes of authentication: two, and those that the payload lacks to its class's most.
    pub fn auth_size(self) -> u8
        ensures { (result ≡ auth_size self.class self.li) × (result ≤ most_auth) }
    {
        if self.class < 2 {
            return 2;
        }
        self.li + 2
    }

    // The bytes of a whole body, the same for every LI.
    pub fn body_bytes(self) -> usize
        ensures { (result ≡ body_bytes self.class) × (2 ≤ result) × (result ≤ most_bytes) }
    {
        HEADER + usize::from(self.payload_size()) + usize::from(self.auth_size()) + 2
    }

    // The single bit of a message without payload.
    pub fn bit(self) -> Option<bool>
        ensures { result ≡ bit_from self.class self.li }
    {
        if self.class == 0 && 2 <= self.li {
            Some(self.li == 3)
        } else {
            None
        }
    }
}
