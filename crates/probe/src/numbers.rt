// Numbers of two and of four bytes, high byte first.
ghost use Rattle.std.specs.Prelude.{◌≡◌, cond};
ghost use Rattle.octet_numbers.specs.Numbers.{be, be_bytes};
ghost use Rattle.octet_numbers.specs.Runs.{write};
ghost use Rattle.probe_laws.specs.Probe.{answer, written, number_ok, put_ok};

use crate::bytes::lies_in;

// Reads a number of width bytes at a place.
#[unsafe(no_mangle)]
pub extern "C" fn probe_number(s: &[u8], at: usize, width: u32, value: &mut u32) -> u32
    ensures value { result ≡ answer (number_ok at width s.now) }
    ensures value_after { value.new ≡ cond (number_ok at width s.now) (be at width s.now) value.old }
{
    if lies_in(s.len(), at, width as usize) {
        if width == 2 {
            *value = octet_numbers::be16(s, at) as u32;
            return 0;
        }
        if width == 4 {
            *value = octet_numbers::be32(s, at);
            return 0;
        }
        return 1;
    }
    1
}

// Writes v in width bytes at a place.
#[unsafe(no_mangle)]
pub extern "C" fn probe_put(t: &mut [u8], at: usize, width: u32, v: u32) -> u32
    ensures value { result ≡ answer (put_ok at width v t.old) }
    ensures t_after { t.new ≡ written (put_ok at width v t.old) (write t.old at (be_bytes width v)) t.old }
{
    if lies_in(t.len(), at, width as usize) {
        if width == 4 {
            octet_numbers::put_be32(t, at, v);
            return 0;
        }
        if width != 2 {
            return 1;
        }
        if v < 65536 {
            octet_numbers::put_be16(t, at, v as u16);
            return 0;
        }
        return 1;
    }
    1
}
