// Ending a session, as C calls it: what C holds is lent as arrays.
ghost use Rattle.std.specs.Prelude.{◌≡◌};
ghost use Rattle.table_sessions.specs.Session.{remove_table};
ghost use Rattle.sched_state.specs.Calls.{end_called};
ghost use Rattle.sched_rows.specs.Layout.{held, scheduler_in};
ghost use Rattle.sched_rows.specs.Left.{end_left};
ghost use Rattle.c_told.specs.Told.{number_by};

use sched_rows::Made;

#[unsafe(no_mangle)]
pub extern "C" fn fbk_end_lent(
    words: &[[u32; 4]; 4],
    kinds: &[[u32; 2]; 4],
    places: &mut [[usize; 2]; 4],
    marks: &mut [[u8; 64]; 4],
    secret: &[u8; 64],
    size: usize,
    nas_ip: u32,
    nas_id: &[u8; 32],
    label: usize,
    table: &mut [u8],
    slot: u32,
) -> u32
    ensures value { result ≡ number_by (end_called (scheduler_in (held words.now kinds.now places.old marks.old secret.now size nas_ip nas_id.now label)) slot table.old).outcome }
    ensures label_after { held words.now kinds.now places.new marks.new secret.now size nas_ip nas_id.now label ≡ end_left (held words.now kinds.now places.old marks.old secret.now size nas_ip nas_id.now label) slot table.old }
    ensures table_after { table.new ≡ remove_table slot table.old }
{
    let made = Made {
        secret,
        secret_size: size,
        nas_ip,
        nas_id,
        nas_id_size: label,
    };
    sched_start::end(words, kinds, places, marks, &made, table, slot as usize)
}
