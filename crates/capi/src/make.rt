// Making a scheduler, as C calls it: what C holds is lent as arrays.
ghost use Rattle.std.specs.Prelude.{◌≡◌};
ghost use Rattle.nas_settings.specs.Settings.{settings};
ghost use Rattle.sched_state.specs.Refusals.{make_refusal};
ghost use Rattle.sched_rows.specs.Layout.{held};
ghost use Rattle.sched_rows.specs.Left.{make_left};
ghost use Rattle.c_numbers.specs.Numbers.{refused_number};

use nas_settings::Gate;
use sched_rows::Rows;

#[unsafe(no_mangle)]
pub extern "C" fn fbk_make_lent(
    words: &mut [[u32; 4]; 4],
    kinds: &mut [[u32; 2]; 4],
    places: &mut [[usize; 2]; 4],
    marks: &mut [[u8; 64]; 4],
    kept: &mut [u8; 64],
    size: &mut usize,
    nas_ip: &mut u32,
    own: &mut [u8; 32],
    label: &mut usize,
    secret: &[u8],
    ip: u32,
    nas_id: &[u8],
) -> u32
    ensures value { result ≡ refused_number (make_refusal (settings secret.now ip nas_id.now)) }
    ensures label_after { held words.new kinds.new places.new marks.new kept.new size.new nas_ip.new own.new label.new ≡ make_left (settings secret.now ip nas_id.now) (held words.old kinds.old places.old marks.old kept.old size.old nas_ip.old own.old label.old) }
{
    let mut rows = Rows {
        words,
        kinds,
        places,
        marks,
    };
    let gate = Gate {
        secret,
        nas_ip: ip,
        nas_id,
    };
    match sched_make::make(&mut rows, kept, size, nas_ip, own, label, &gate) {
        Ok(()) => 0,
        Err(r) => u32::from(r),
    }
}
