// The decoder of a frame's bits for a program in C: host/include has the header, and a static library is no library that a crate can name.
#![tactic(auto)]

ghost use Rattle.std.specs.Prelude.{◌≡◌};
ghost use Rattle.record.specs.Decoding.{decode_number, decode_record};

// record::sigfox_decode_bits.
#[unsafe(no_mangle)]
pub extern "C" fn sigfox_decode_bits(bits: &[u8], record: &mut [u8]) -> u8
    ensures { (result ≡ decode_number bits.now «record».old) × («record».new ≡ decode_record bits.now «record».old) }
{
    record::sigfox_decode_bits(bits, record)
}
