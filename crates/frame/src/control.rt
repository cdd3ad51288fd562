// The payload of a control frame (frame.rs decode_control).
ghost use Rattle.std.specs.Prelude.{◌≡◌, ◌≤◌, ◌<◌};
ghost use Rattle.limits.specs.Answer.{accepted};
ghost use Rattle.frame.specs.Control.{signed_below, minus, celsius, rssi_of, control_of, said};

#[derive(Clone, Copy)]
pub enum ControlMessage {
    KeepAlive {
        voltage_idle_mv: u16,
        voltage_tx_mv: u16,
        temperature_c: f64,
    },
    DownlinkConfirmation {
        voltage_idle_mv: u16,
        voltage_tx_mv: u16,
        temperature_c: f64,
        downlink_rssi_dbm: i32,
    },
}

const KEEP_ALIVE: u8 = 8;

const KEEP_ALIVE_SIZE: usize = 7;

const CONFIRMATION: u8 = 9;

const CONFIRMATION_SIZE: usize = 8;

// Two's complement below `m`.
fn signed_below(m: u32, n: u32) -> i32
    requires { (n < m) × (m ≤ 65536) }
    ensures { result ≡ signed_below m n }
{
    if n < m / 2 {
        return n as i32;
    }
    -((m - n) as i32)
}

fn difference(a: u32, b: u32) -> i32
    requires { (a < 1024) × (b < 1024) }
    ensures { result ≡ minus a b }
{
    if a < b {
        return -((b - a) as i32);
    }
    (a - b) as i32
}

// Tenths of a degree.
fn celsius_of(n: u16) -> f64
    ensures { result ≡ celsius n }
{
    (signed_below(65536, n as u32) as f64) / 10.0
}

fn rssi_of(b: u8) -> i32
    ensures { result ≡ rssi_of b }
{
    if b < 128 {
        return difference(b as u32, 100);
    }
    difference(b as u32, 356)
}

// What a control frame's payload says, by its length and first byte; none for any other (frame.rs decode_control).
pub fn decode_control(payload: &[u8]) -> Option<ControlMessage>
    ensures { said result ≡ accepted (control_of payload.now) }
{
    if payload.len() == KEEP_ALIVE_SIZE {
        if payload[0] == KEEP_ALIVE {
            return Some(ControlMessage::KeepAlive {
                voltage_idle_mv: endian::get::<u16>(payload, 1),
                voltage_tx_mv: endian::get::<u16>(payload, 3),
                temperature_c: celsius_of(endian::get::<u16>(payload, 5)),
            });
        }
    }
    if payload.len() == CONFIRMATION_SIZE {
        if payload[0] == CONFIRMATION {
            return Some(ControlMessage::DownlinkConfirmation {
                voltage_idle_mv: endian::get::<u16>(payload, 1),
                voltage_tx_mv: endian::get::<u16>(payload, 3),
                temperature_c: celsius_of(endian::get::<u16>(payload, 5)),
                downlink_rssi_dbm: rssi_of(payload[7]),
            });
        }
    }
    None
}
