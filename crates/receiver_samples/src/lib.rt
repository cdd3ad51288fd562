// The lent sample buffer (receiver.rs `buf`): the drop of its older half, a filling, and raw bytes as dBm.
#![tactic(auto)]

ghost use Rattle.std.specs.Prelude.{◌≡◌, ◌++◌, map, ◌+◌, ◌*◌, ◌≤◌, min, length, take, drop};
ghost use Rattle.std.proofs.Math.Seq.{paste};
ghost use Rattle.limits.specs.Limits.{buffer_s};
ghost use Rattle.ledger.specs.Ledger.{capacity, half, dbm_of};
ghost use Rattle.receiver_samples.specs.Buffer.{left_held, left_places, room};

// A full buffer keeps this many seconds, the newer half.
const HALF_S: usize = 6;

// The places that the rate needs.
pub fn capacity(rate: u32) -> usize
    ensures { result ≡ capacity rate }
{
    limits::BUFFER_S * (rate as usize)
}

// Where the buffer is full, its older half is dropped; how many samples are held then.
pub fn halve(samples: &mut [f32], rate: u32, held: usize) -> usize
    requires { capacity rate ≤ length samples.old }
    ensures { (result ≡ left_held rate held) × (samples.new ≡ left_places rate held samples.old) }
{
    if held == capacity(rate) {
        let half = HALF_S * (rate as usize);
        samples.copy_within(half..2 * half, 0);
        return half;
    }
    held
}

// The samples of dbm from `from` on, as many as there is room for, stand behind those held; how many they are.
pub fn fill(samples: &mut [f32], rate: u32, held: usize, dbm: &[f32], from: usize) -> usize
    requires { (capacity rate ≤ length samples.old) × (held ≤ capacity rate) × (from ≤ length dbm.now) }
    ensures { (result ≡ room rate held (drop from dbm.now)) × (samples.new ≡ paste samples.old held (drop from dbm.now) result) }
{
    let n = (dbm.len() - from).min(capacity(rate) - held);
    samples[held..held + n].copy_from_slice(&dbm[from..from + n]);
    n
}

// receiver.rs `push_raw`: dBm = -value / 2.
pub fn dbm_of(raw: u8) -> f32
    ensures { result ≡ dbm_of raw }
{
    -(raw as f32) / 2.0
}

// The dBm values of raw bytes, at the start of `dbm`.
pub fn dbm_of_all(raw: &[u8], dbm: &mut [f32])
    requires { length raw.now ≤ length dbm.old }
    ensures { dbm.new ≡ map dbm_of raw.now ++ drop (length raw.now) dbm.old }
{
    for (i, b) in raw.iter().enumerate() {
        dbm[i] = dbm_of(*b);
    }
}
