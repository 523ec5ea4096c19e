// Opening a request, as C calls it: what C holds is lent as arrays.
ghost use Rattle.std.specs.Prelude.{◌≡◌};
ghost use Rattle.sched_state.specs.Calls.{open_called, open_store};
ghost use Rattle.sched_rows.specs.Layout.{held, scheduler_in};
ghost use Rattle.sched_rows.specs.Left.{open_left};
ghost use Rattle.c_told.specs.Told.{number_by, place_by};

use sched_rows::{Made, Rows};

#[unsafe(no_mangle)]
pub extern "C" fn fbk_open_lent(
    words: &mut [[u32; 4]; 4],
    kinds: &mut [[u32; 2]; 4],
    places: &mut [[usize; 2]; 4],
    marks: &mut [[u8; 64]; 4],
    secret: &[u8; 64],
    size: usize,
    nas_ip: u32,
    nas_id: &[u8; 32],
    label: usize,
    packet: &[u8],
    clock: u32,
    store: &mut [u8],
    job: &mut u32,
) -> u32
    ensures value { result ≡ number_by (open_called (scheduler_in (held words.old kinds.old places.old marks.old secret.now size nas_ip nas_id.now label)) packet.now clock store.old).outcome }
    ensures label_after { held words.new kinds.new places.new marks.new secret.now size nas_ip nas_id.now label ≡ open_left (held words.old kinds.old places.old marks.old secret.now size nas_ip nas_id.now label) packet.now clock store.old }
    ensures store_after { store.new ≡ open_store (scheduler_in (held words.old kinds.old places.old marks.old secret.now size nas_ip nas_id.now label)) packet.now store.old }
    ensures job_after { job.new ≡ place_by (open_called (scheduler_in (held words.old kinds.old places.old marks.old secret.now size nas_ip nas_id.now label)) packet.now clock store.old).outcome job.old }
{
    let mut rows = Rows {
        words,
        kinds,
        places,
        marks,
    };
    let made = Made {
        secret,
        secret_size: size,
        nas_ip,
        nas_id,
        nas_id_size: label,
    };
    sched_open::open(&mut rows, &made, packet, clock, store, job)
}
