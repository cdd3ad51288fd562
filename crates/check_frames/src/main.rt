// 01's frame examples and literal frames, run: a line for each vector, none for one that gives no frame.
#![tactic(auto)]

mod lines; // a decoded frame's line
mod vectors; // the literal frames

use frame::header::UplinkFields;

const DEVICE: u32 = 0x00c0_ffee;

const COUNTER: u16 = 0x123;

fn crc_line(rt: &impl Print, name: &[u8], data: &[u8]) {
    replay::print(rt, b"crc16 ");
    replay::print(rt, name);
    replay::print_hex(rt, coding::crc16(data) as u64, 4);
    replay::print(rt, b"\n");
}

// P4: what bits 1 0 0 give in a rank.
fn deconvolve_line(rt: &impl Print, rank: u8) {
    let bits = [1u8, 0, 0];
    let mut out = [0u8; 3];
    let Ok(n) = coding::deconvolve(&bits, rank, &mut out) else {
        return;
    };
    replay::print(rt, b"deconvolve ");
    replay::print_number(rt, rank as u64);
    replay::print(rt, b" 100 ");
    replay::print_digits(rt, &out[..n.min(out.len())]);
    replay::print(rt, b"\n");
}

// P9, and docs/DIFFERENCES.md's rows on headers: a header's bytes, its class and the authentication's size.
fn header_line(rt: &impl Print, counter: u16, bit: Option<bool>, payload: &[u8]) {
    let fields = UplinkFields {
        device_id: DEVICE,
        counter: counter,
        bit: bit,
        downlink: false,
    };
    let mut out = [0u8; 18];
    let Ok(header) = frame::header::uplink_header(fields, payload, &mut out) else {
        return;
    };
    replay::print(rt, b"header ");
    replay::print_bytes(rt, &out[..header.size.min(out.len())]);
    replay::print(rt, b" ");
    replay::print_number(rt, u64::from(header.class));
    replay::print(rt, b" ");
    replay::print_number(rt, u64::from(header.auth_size));
    replay::print(rt, b"\n");
}

fn main(rt: HostRuntime) {
    crc_line(&rt, b"123456789 ", b"123456789");
    crc_line(&rt, b"- ", b"");
    crc_line(&rt, b"01 ", b"\x01");
    deconvolve_line(&rt, 1);
    deconvolve_line(&rt, 2);
    header_line(&rt, COUNTER, None, b"\x10\x21");
    header_line(&rt, 0xf123, None, b"");
    header_line(&rt, COUNTER, Some(true), b"\xaa");
    vectors::rank_0(&rt);
    vectors::rank_1(&rt);
    vectors::rank_2(&rt);
    vectors::differences(&rt);
    vectors::nothing(&rt);
}
