// An uplink's fields in the input.
ghost use Rattle.std.specs.Prelude.{◌≡◌};
ghost use Rattle.replay_records.specs.Inputs.{bit_from, fields_from};

use frame::header::UplinkFields;

// 0 for none, 1 for false, 2 for true.
fn bit_of(n: u8) -> Option<bool>
    ensures { result ≡ bit_from n }
{
    if n == 0 {
        return None;
    }
    Some(n == 2)
}

// Device, counter, single bit and downlink flag.
pub fn fields_of(head: &[u8; 8]) -> UplinkFields
    ensures { result ≡ fields_from head.now }
{
    UplinkFields {
        device_id: endian::get::<u32>(head, 0),
        counter: endian::get::<u16>(head, 4),
        bit: bit_of(head[6]),
        downlink: head[7] != 0,
    }
}
