// The plain bytes of a body, or of its front, and the fields that they hold (frame.rs parse_body).
ghost use Rattle.std.specs.Prelude.{◌≡◌, ◌/◌, ◌≤◌};
ghost use Rattle.frame.specs.Sizes.{most_payload, most_auth, payload_size, auth_size};
ghost use Rattle.frame.specs.Fields.{padded, device_of, counter_of, payload_of, auth_of, li};

use crate::bytes::copy_into;
use crate::sizes::{HEADER, Layout};

// The plain bytes of a body, zeros after them, and whether their CRC is right.
#[derive(Clone, Copy)]
pub struct Plaintext {
    pub bytes: [u8; 22],
    pub crc_ok: bool,
}

// Some bytes from the front of a body: how many, their CRC's register, and the last of them.
#[derive(Clone, Copy)]
pub struct Prefix {
    pub bytes: usize,
    pub crc: u16,
    pub last: u8,
}

impl Plaintext {
    // LI: the top two bits of the first byte.
    #[inline(always)]
    pub fn li(self) -> u8
        ensures { (result ≡ li self.bytes) × (result ≤ 3) }
    {
        self.bytes[0] / 64
    }

    #[inline(always)]
    pub fn device(self) -> u32
        ensures { result ≡ device_of self.bytes }
    {
        endian::get::<u32>(&self.bytes, 2)
    }

    #[inline(always)]
    pub fn counter(self) -> u16
        ensures { result ≡ counter_of self.bytes }
    {
        u16::from(self.bytes[0] % 16) * 256 + u16::from(self.bytes[1])
    }

    #[inline(always)]
    pub fn payload(self, layout: Layout) -> [u8; 12]
        ensures { result ≡ padded most_payload (payload_of (payload_size layout.class layout.li) self.bytes) }
    {
        let n = usize::from(layout.payload_size());
        let mut payload = [0u8; 12];
        copy_into(&self.bytes[HEADER..HEADER + n], &mut payload, 0);
        payload
    }

    #[inline(always)]
    pub fn auth(self, layout: Layout) -> [u8; 5]
        ensures { result ≡ padded most_auth (auth_of (payload_size layout.class layout.li) (auth_size layout.class layout.li) self.bytes) }
    {
        let end = layout.body_bytes() - 2;
        let m = usize::from(layout.auth_size());
        let mut auth = [0u8; 5];
        copy_into(&self.bytes[end - m..end], &mut auth, 0);
        auth
    }
}
