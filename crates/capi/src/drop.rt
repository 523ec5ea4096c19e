// Dropping a job, as C calls it: what C holds is lent as arrays.
ghost use Rattle.std.specs.Prelude.{◌≡◌};
ghost use Rattle.sched_state.specs.Calls.{drop_called};
ghost use Rattle.sched_rows.specs.Layout.{held, scheduler_in};
ghost use Rattle.sched_rows.specs.Left.{drop_left};
ghost use Rattle.c_told.specs.Told.{number_by};

use sched_rows::{Made, Rows};

#[unsafe(no_mangle)]
pub extern "C" fn fbk_drop_lent(
    words: &mut [[u32; 4]; 4],
    kinds: &mut [[u32; 2]; 4],
    places: &mut [[usize; 2]; 4],
    marks: &mut [[u8; 64]; 4],
    secret: &[u8; 64],
    size: usize,
    nas_ip: u32,
    nas_id: &[u8; 32],
    label: usize,
    job: u32,
) -> u32
    ensures value { result ≡ number_by (drop_called (scheduler_in (held words.old kinds.old places.old marks.old secret.now size nas_ip nas_id.now label)) job).outcome }
    ensures label_after { held words.new kinds.new places.new marks.new secret.now size nas_ip nas_id.now label ≡ drop_left (held words.old kinds.old places.old marks.old secret.now size nas_ip nas_id.now label) job }
{
    let mut rows = Rows {
        words,
        kinds,
        places,
        marks,
    };
    let made = Made {
        secret,
        secret_size: size,
        nas_ip,
        nas_id,
        nas_id_size: label,
    };
    sched_open::drop(&mut rows, &made, job as usize)
}
