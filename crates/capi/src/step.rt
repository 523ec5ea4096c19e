// A step of a job, as C calls it: what C holds is lent as arrays.
ghost use Rattle.std.specs.Prelude.{◌≡◌};
ghost use Rattle.sched_state.specs.Calls.{step_called, step_table, step_reply};
ghost use Rattle.sched_rows.specs.Layout.{held, scheduler_in};
ghost use Rattle.sched_rows.specs.Left.{step_left};
ghost use Rattle.c_numbers.specs.Numbers.{told};
ghost use Rattle.c_told.specs.Told.{told_by};

use sched_rows::{Made, Rows};

#[unsafe(no_mangle)]
pub extern "C" fn fbk_step_lent(
    words: &mut [[u32; 4]; 4],
    kinds: &mut [[u32; 2]; 4],
    places: &mut [[usize; 2]; 4],
    marks: &mut [[u8; 64]; 4],
    secret: &[u8; 64],
    size: usize,
    nas_ip: u32,
    nas_id: &[u8; 32],
    label: usize,
    job: u32,
    table: &mut [u8],
    reply: &mut [u8],
    store: &[u8],
    changed: &mut u32,
    bytes: &mut u32,
    skew: &mut i64,
    stamped: &mut u32,
) -> u32
    ensures stamped_after { told result changed.new bytes.new skew.new stamped.new ≡ told_by (step_called (scheduler_in (held words.old kinds.old places.old marks.old secret.now size nas_ip nas_id.now label)) job table.old reply.old store.now).outcome (told 0 changed.old bytes.old skew.old stamped.old) }
    ensures label_after { held words.new kinds.new places.new marks.new secret.now size nas_ip nas_id.now label ≡ step_left (held words.old kinds.old places.old marks.old secret.now size nas_ip nas_id.now label) job table.old reply.old store.now }
    ensures table_after { table.new ≡ step_table (scheduler_in (held words.old kinds.old places.old marks.old secret.now size nas_ip nas_id.now label)) job table.old reply.old store.now }
    ensures reply_after { reply.new ≡ step_reply (scheduler_in (held words.old kinds.old places.old marks.old secret.now size nas_ip nas_id.now label)) job table.old reply.old store.now }
{
    let mut rows = Rows {
        words,
        kinds,
        places,
        marks,
    };
    let made = Made {
        secret,
        secret_size: size,
        nas_ip,
        nas_id,
        nas_id_size: label,
    };
    let old = crate::untold();
    let told = sched_step::step(&mut rows, &made, job as usize, table, reply, store, old);
    crate::told_to(told, changed, bytes, skew, stamped)
}
