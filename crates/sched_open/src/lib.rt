// A request comes in and gets a job or none; an open job is dropped.
#![tactic(auto)]

ghost use Rattle.std.specs.Prelude.{◌≡◌, ◌*◌, ◌≤◌, ◌<◌, length, take, set, Some, MatchResult};
ghost use Rattle.octet_numbers.specs.Runs.{write};
ghost use Rattle.packet_form.specs.Packet.{length_of};
ghost use Rattle.sched_job.specs.Job.{first_job};
ghost use Rattle.sched_state.specs.Scheduler.{open_at};
ghost use Rattle.sched_state.specs.Refusals.{open_refusal};
ghost use Rattle.sched_state.specs.Calls.{open_called, open_store, drop_called};
ghost use Rattle.sched_rows.specs.Layout.{kind_row, place_row, scheduler_in};
ghost use Rattle.sched_rows.specs.Left.{open_left, drop_left};
ghost use Rattle.sched_rows.specs.Lent.{held_by, jobs_of, SameRows};
ghost use Rattle.c_told.specs.Told.{number_by, place_by};
ghost use Rattle.sched_open.specs.Chosen.{Given};

use packet_form::Packet;
use refusals::Refusal;
use sched_rows::{Made, Rows};

// The job that a request gets, the lowest free one; or R5, R6, the lower that applies.
fn chosen(rows: &Rows<'_>, size: usize, store: &[u8]) -> Result<usize, Refusal>
    requires { size ≤ 64 }
    ensures { MatchResult result (λ j. Given (open_at (jobs_of size rows.now)) (length store.now) j) (λ r. open_refusal (open_at (jobs_of size rows.now)) (length store.now) ≡ Some r) }
{
    if store.len() != 16384 {
        return Err(Refusal::StoreLength);
    }
    rows.lowest_free(size).ok_or(Refusal::NoFreeJob)
}

// A job for a request that D1 to D3 leave: its rows, and its Length bytes to the front of the job's part.
fn admit(rows: &mut Rows<'_>, j: usize, packet: &Packet, clock: u32, store: &mut [u8])
    requires { (j < 4) × (length store.old ≡ 16384) }
    ensures same { SameRows rows.old rows.new }
    ensures words_after { rows.new.words.now ≡ set rows.old.words.now j (first_job (length_of packet.now.bytes.now) clock).words }
    ensures kinds_after { rows.new.kinds.now ≡ set rows.old.kinds.now j (kind_row (first_job (length_of packet.now.bytes.now) clock)) }
    ensures places_after { rows.new.places.now ≡ set rows.old.places.now j (place_row (first_job (length_of packet.now.bytes.now) clock)) }
    ensures marks_after { rows.new.marks.now ≡ set rows.old.marks.now j (first_job (length_of packet.now.bytes.now) clock).marks }
    ensures store_after { store.new ≡ write store.old (j * 4096) (take (length_of packet.now.bytes.now) packet.now.bytes.now) }
{
    let n = packet.length;
    octet_copies::copy(store, j * 4096, &packet.bytes[..n]);
    rows.put(j, sched_job::first(n, clock));
}

// R5, R6, D1 to D3, or the lowest free job.
pub fn open(
    rows: &mut Rows<'_>,
    made: &Made<'_>,
    p: &[u8],
    clock: u32,
    store: &mut [u8],
    job: &mut u32,
) -> u32
    ensures same { SameRows rows.old rows.new }
    ensures value { result ≡ number_by (open_called (scheduler_in (held_by rows.old made.now)) p.now clock store.old).outcome }
    ensures rows_after { held_by rows.new made.now ≡ open_left (held_by rows.old made.now) p.now clock store.old }
    ensures store_after { store.new ≡ open_store (scheduler_in (held_by rows.old made.now)) p.now store.old }
    ensures job_after { job.new ≡ place_by (open_called (scheduler_in (held_by rows.old made.now)) p.now clock store.old).outcome job.old }
{
    let z = sched_rows::reading::secret_in(made.secret_size);
    let j = match chosen(rows, z, store) {
        Ok(j) => j,
        Err(r) => return u32::from(r),
    };
    match packet_form::form(p) {
        Ok(packet) => {
            admit(rows, j, &packet, clock, store);
            *job = j as u32;
            0
        }
        Err(d) => 100 + u32::from(d),
    }
}

// R7, or the job is free and nothing else changes.
pub fn drop(rows: &mut Rows<'_>, made: &Made<'_>, j: usize) -> u32
    ensures same { SameRows rows.old rows.new }
    ensures value { result ≡ number_by (drop_called (scheduler_in (held_by rows.old made.now)) j).outcome }
    ensures rows_after { held_by rows.new made.now ≡ drop_left (held_by rows.old made.now) j }
{
    let z = sched_rows::reading::secret_in(made.secret_size);
    if j < 4 && rows.open_at(z, j) {
        rows.put(j, sched_job::free());
        return 0;
    }
    u32::from(Refusal::NoSuchJob)
}
