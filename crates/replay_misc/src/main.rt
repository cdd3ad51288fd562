// The small functions, one case a line (docs/REPLAY.md, `misc`).
#![tactic(auto)]

use frame::control::ControlMessage;
use frame::header::UplinkHeader;
use limits::Refusal;
use replay::Unanswered;

// CRC-16 of bytes.
fn crc16_row(rt: &(impl Input + Print)) -> Result<(), Unanswered> {
    let mut data = [0u8; 4096];
    let data = replay::read_bytes(rt, &mut data)?;
    replay::print(rt, b"crc16 ");
    replay::print_hex(rt, u64::from(coding::crc16(data)), 4);
    replay::print_end(rt);
    Ok(())
}

// A rank and bits, and what `deconvolve` or `convolve` makes of them.
fn coding_row<F: Fn(&[u8], u8, &mut [u8]) -> Result<usize, Refusal>>(
    rt: &(impl Input + Print),
    name: &[u8],
    code: F,
) -> Result<(), Unanswered>
    requires { F.IsAlwaysCallable code }
{
    let mut rank = [0u8; 1];
    replay::read_part(rt, &mut rank)?;
    let mut bits = [0u8; 1025];
    let mut out = [0u8; 1025];
    let bits = replay::read_bytes(rt, &mut bits)?;
    let n = code(bits, rank[0], &mut out)?;
    replay::print(rt, name);
    replay::print_digits(rt, &out[..n.min(out.len())]);
    replay::print_end(rt);
    Ok(())
}

fn print_header(rt: &impl Print, header: UplinkHeader, out: &[u8]) {
    replay::print(rt, b"header ");
    replay::print_bytes(rt, &out[..header.size.min(out.len())]);
    replay::print(rt, b" ");
    replay::print_number(rt, header.class);
    replay::print(rt, b" ");
    replay::print_number(rt, header.auth_size);
    replay::print_end(rt);
}

fn uplink_header_row(rt: &(impl Input + Print)) -> Result<(), Unanswered> {
    let mut head = [0u8; 8];
    replay::read_part(rt, &mut head)?;
    let mut payload = [0u8; 13];
    let mut out = [0u8; 18];
    let payload = replay::read_bytes(rt, &mut payload)?;
    let fields = replay_records::uplinks::fields_of(&head);
    let header = frame::header::uplink_header(fields, payload, &mut out)?;
    print_header(rt, header, &out);
    Ok(())
}

// Kind, voltages and temperature of a control message.
fn print_control(rt: &impl Print, kind: &[u8], idle: u16, tx: u16, temperature: f64) {
    replay::print(rt, kind);
    replay::print_number(rt, idle);
    replay::print(rt, b" ");
    replay::print_number(rt, tx);
    replay::print(rt, b" ");
    replay::print_f64(rt, temperature);
}

fn print_message(rt: &impl Print, m: Option<ControlMessage>) {
    match m {
        None => {
            replay::print(rt, b"control -\n");
        }
        Some(
            ControlMessage::KeepAlive {
                voltage_idle_mv,
                voltage_tx_mv,
                temperature_c,
            },
        ) => {
            print_control(
                rt,
                b"control 0 ",
                voltage_idle_mv,
                voltage_tx_mv,
                temperature_c,
            );
            replay::print(rt, b" -\n");
        }
        Some(
            ControlMessage::DownlinkConfirmation {
                voltage_idle_mv,
                voltage_tx_mv,
                temperature_c,
                downlink_rssi_dbm,
            },
        ) => {
            print_control(
                rt,
                b"control 1 ",
                voltage_idle_mv,
                voltage_tx_mv,
                temperature_c,
            );
            replay::print(rt, b" ");
            replay::print_number(rt, downlink_rssi_dbm);
            replay::print_end(rt);
        }
    }
}

fn decode_control_row(rt: &(impl Input + Print)) -> Result<(), Unanswered> {
    let mut payload = [0u8; 4096];
    let payload = replay::read_bytes(rt, &mut payload)?;
    print_message(rt, frame::control::decode_control(payload));
    Ok(())
}

fn cfo_step_hz_row(rt: &(impl Input + Print)) -> Result<(), Unanswered> {
    let mut head = [0u8; 5];
    replay::read_part(rt, &mut head)?;
    let step = cfo::cfo_step_hz(head[0], endian::get::<u32>(&head, 1))?;
    replay::print(rt, b"step ");
    replay::print_f64(rt, step);
    replay::print_end(rt);
    Ok(())
}

fn cfo_signed_row(rt: &(impl Input + Print)) -> Result<(), Unanswered> {
    let mut head = [0u8; 2];
    replay::read_part(rt, &mut head)?;
    replay::print(rt, b"signed ");
    replay::print_number(rt, cfo::cfo_signed(endian::get::<u16>(&head, 0)));
    replay::print_end(rt);
    Ok(())
}

// Sine and cosine of an angle.
fn trig_row(rt: &(impl Input + Print)) -> Result<(), Unanswered> {
    let mut head = [0u8; 8];
    replay::read_part(rt, &mut head)?;
    let a = endian::get::<f64>(&head, 0);
    replay::print(rt, b"trig ");
    replay::print_f64(rt, floats::sin64(a));
    replay::print(rt, b" ");
    replay::print_f64(rt, floats::cos64(a));
    replay::print_end(rt);
    Ok(())
}

fn atan2_row(rt: &(impl Input + Print)) -> Result<(), Unanswered> {
    let mut head = [0u8; 16];
    replay::read_part(rt, &mut head)?;
    let s = endian::get::<f64>(&head, 0);
    let c = endian::get::<f64>(&head, 8);
    replay::print(rt, b"atan2 ");
    replay::print_f64(rt, floats::atan2_64(s, c));
    replay::print_end(rt);
    Ok(())
}

fn round_row(rt: &(impl Input + Print)) -> Result<(), Unanswered> {
    let mut head = [0u8; 8];
    replay::read_part(rt, &mut head)?;
    replay::print(rt, b"round ");
    replay::print_f64(rt, floats::round_half_up(endian::get::<f64>(&head, 0)));
    replay::print_end(rt);
    Ok(())
}

fn noise_floor_row(rt: &(impl Input + Print)) -> Result<(), Unanswered> {
    let mut dbm = [0.0f32; 48001];
    let mut scratch = [0.0f32; 48001];
    let dbm = replay::read_list(rt, &mut dbm)?;
    let floor = bursts::noise_floor(dbm, &mut scratch)?;
    replay::print(rt, b"floor ");
    replay::print_f32(rt, floor);
    replay::print_end(rt);
    Ok(())
}

fn print_first_frame_end(rt: &impl Print, end: Option<f64>) {
    match end {
        None => {
            replay::print(rt, b"ffe -\n");
        }
        Some(t) => {
            replay::print(rt, b"ffe ");
            replay::print_f64(rt, t);
            replay::print_end(rt);
        }
    }
}

fn estimate_first_frame_end_row(rt: &(impl Input + Print)) -> Result<(), Unanswered> {
    let mut part = [0u8; 1];
    replay::read_part(rt, &mut part)?;
    let spans = replay_records::spans::read_spans(rt, part[0])?;
    print_first_frame_end(rt, receiver_message::estimate_first_frame_end(spans)?);
    Ok(())
}

// The case of a row.
fn case(rt: &(impl Input + Print), row: u8) -> Result<(), Unanswered> {
    match row {
        0 => crc16_row(rt),
        1 => coding_row(rt, b"deconvolve ", coding::deconvolve),
        2 => coding_row(rt, b"convolve ", coding::convolve),
        3 => uplink_header_row(rt),
        4 => decode_control_row(rt),
        5 => cfo_step_hz_row(rt),
        6 => cfo_signed_row(rt),
        7 => trig_row(rt),
        8 => atan2_row(rt),
        9 => noise_floor_row(rt),
        10 => estimate_first_frame_end_row(rt),
        11 => round_row(rt),
        _ => Err(Unanswered::Short),
    }
}

fn main(rt: HostRuntime) {
    replay::run(&rt, |row: [u8; 1]| case(&rt, row[0]));
}
