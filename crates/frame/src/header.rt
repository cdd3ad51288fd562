// The header of an uplink, which its authentication covers (frame.rs uplink_header).
ghost use Rattle.std.specs.Prelude.{◌≡◌, ◌≤◌, length};
ghost use Rattle.std.proofs.lemmas.List.Edits.{sets};
ghost use Rattle.limits.specs.Answer.{said};
ghost use Rattle.frame.specs.Sizes.{most_payload};
ghost use Rattle.frame.specs.Header.{li_of, most_header, header_bytes, header_answer, header_out};

use crate::bytes::{copy_into, put_byte};
use crate::sizes::{HEADER, Layout, MOST_PAYLOAD};
use limits::Refusal;

// The fields that an uplink carries besides its payload.
#[derive(Clone, Copy)]
pub struct UplinkFields {
    pub device_id: u32,
    // Message counter; its low 12 bits are sent.
    pub counter: u16,
    pub bit: Option<bool>,
    pub downlink: bool,
}

// What `uplink_header` made.
#[derive(Clone, Copy)]
pub struct UplinkHeader {
    // Bytes written.
    pub size: usize,
    pub class: u8,
    pub auth_size: u8,
}

const MOST_HEADER: usize = 18;

// The header's bytes and the payload, at the front of `out`.
pub fn write_header(f: UplinkFields, layout: Layout, payload: &[u8], out: &mut [u8])
    requires { (layout.li ≡ li_of f.bit (length payload.now)) × (length payload.now ≤ most_payload) × (most_header ≤ length out.old) }
    ensures { out.new ≡ sets out.old 0 (header_bytes f payload.now) }
{
    put_byte(
        out,
        0,
        layout.li * 64 + u8::from(f.downlink) * 32 + (f.counter / 256 % 16) as u8,
    );
    put_byte(out, 1, (f.counter % 256) as u8);
    endian::put(out, 2, f.device_id);
    copy_into(payload, out, HEADER);
}

// The header of an uplink into a lent slice.
pub fn uplink_header(
    fields: UplinkFields,
    payload: &[u8],
    out: &mut [u8],
) -> Result<UplinkHeader, Refusal>
    ensures { (said result ≡ header_answer fields payload.now out.old)
        × (out.new ≡ header_out fields payload.now out.old) }
{
    if out.len() < MOST_HEADER {
        return Err(Refusal::Short);
    }
    if MOST_PAYLOAD < payload.len() {
        return Err(Refusal::BadNumber);
    }
    let layout = Layout::new(fields.bit, payload.len());
    write_header(fields, layout, payload, out);
    Ok(UplinkHeader {
        size: HEADER + payload.len(),
        class: layout.class,
        auth_size: layout.auth_size(),
    })
}
