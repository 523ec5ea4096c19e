// A criterion, compared with the field that it names. The area is that of the request's attributes.
ghost use Rattle.std.specs.Prelude.{◌≡◌};
ghost use Rattle.table_criteria.specs.Meets.{meets};

// Whether the slot s meets the criterion c. It is called and not inlined: a walk over slots is then small, and keeps in registers what its sieve tests.
#[inline(never)]
#[tactic(auto, unfolding(crate::specs::Meets::meets))]
pub fn meets_one(area: &[u8], s: &[u8], c: &crate::Criterion) -> bool
    ensures { result ≡ meets area.now s.now c.now }
{
    octet_runs::equal(c.value.of(area), c.field.of(s))
}
