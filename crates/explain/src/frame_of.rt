// What a burst's bits say: the frame type, the fields and the CRC.
use frame::kinds::FrameKind;
use frame::{Repair, TypeFound, UplinkFrame};

fn print_class(rt: &impl Print, class: u8) {
    match class {
        0 => {
            replay::print(rt, b"no payload or a bit");
        }
        1 => {
            replay::print(rt, b"1 byte");
        }
        2 => {
            replay::print(rt, b"2 to 4 bytes");
        }
        3 => {
            replay::print(rt, b"5 to 8 bytes");
        }
        _ => {
            replay::print(rt, b"9 to 12 bytes");
        }
    }
}

fn print_kind(rt: &impl Print, start: usize, kind: FrameKind) {
    replay::print(rt, b"  frame type at bit ");
    replay::print_number(rt, start);
    replay::print(rt, b": rank ");
    replay::print_number(rt, kind.rank);
    replay::print(rt, b", ");
    if kind.control {
        replay::print(rt, b"control frame\n");
        return;
    }
    print_class(rt, kind.class);
    replay::print_end(rt);
}

pub fn print_type(rt: &impl Print, found: Option<TypeFound>) {
    match found {
        None => {
            replay::print(rt, b"  no frame type at bits 8 to 22\n");
        }
        Some(t) => {
            print_kind(rt, t.start, t.kind);
        }
    }
}

fn print_bit(rt: &impl Print, bit: Option<bool>) {
    match bit {
        None => {
            replay::print(rt, b"-");
        }
        Some(b) => replay::print(rt, if b { b"bit 1" } else { b"bit 0" }),
    }
}

fn print_payload(rt: &impl Print, f: UplinkFrame) {
    let n = usize::from(f.payload_len).min(f.payload.len());
    if n == 0 {
        print_bit(rt, f.bit);
        return;
    }
    replay::print_bytes(rt, &f.payload[..n]);
}

fn print_place(rt: &impl Print, text: &[u8], i: usize) {
    replay::print(rt, b"CRC right after a repair: ");
    replay::print(rt, text);
    replay::print(rt, b" at bit ");
    replay::print_number(rt, i);
    replay::print(rt, b" of the body\n");
}

fn print_repair(rt: &impl Print, how: Option<Repair>) {
    match how {
        None => {
            replay::print(rt, b"CRC right\n");
        }
        Some(Repair::Inserted(b, i)) => {
            print_place(rt, if b { b"a 1 put in" } else { b"a 0 put in" }, i);
        }
        Some(Repair::Deleted(i)) => {
            print_place(rt, b"a bit left out", i);
        }
        Some(Repair::Flipped(i)) => {
            print_place(rt, b"a bit turned over", i);
        }
    }
}

fn print_crc(rt: &impl Print, f: UplinkFrame) {
    if f.crc_ok {
        print_repair(rt, f.repaired);
        return;
    }
    replay::print(rt, b"CRC wrong, and no repair of one bit makes it right\n");
}

// Rank, device, counter, payload and CRC.
pub fn print_frame(rt: &impl Print, f: UplinkFrame) {
    replay::print(rt, b"  device ");
    replay::print_hex(rt, u64::from(f.device_id), 8);
    replay::print(rt, b", counter ");
    replay::print_number(rt, f.counter);
    replay::print(rt, b", rank ");
    replay::print_number(rt, f.rank);
    replay::print(rt, b", payload ");
    print_payload(rt, f);
    replay::print(rt, b": ");
    print_crc(rt, f);
}
